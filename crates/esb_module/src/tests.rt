use crate::{ParseFault, parse_file};
use esb_base::{Memory, Steps, Text};
use esb_early::Rule;
use esb_nodes::Discard;
use std::alloc::Global;
use std::test::Fail;

/// Why a text has no tree that may be used, if it has none.
fn fault_in(alloc: Global, text: &str) -> Result<Option<ParseFault>, Memory> {
    let contents = Text::of(alloc, text)?;
    let mut steps = Steps::new();
    match parse_file(alloc, &contents, &mut steps) {
        Ok(tree) => {
            tree.items.discard();
            Ok(None)
        }
        Err(ParseFault::Memory) => Err(Memory),
        Err(fault) => Ok(Some(fault)),
    }
}

/// The first of some texts that has no tree, or that breaks a rule.
fn first_refused<'a>(alloc: Global, texts: &[&'a str]) -> Result<&'a str, Memory> {
    for text in texts {
        if fault_in(alloc, text)?.is_some() {
            return Ok(text);
        }
    }
    Ok("")
}

/// The first of some texts that has a tree.
fn first_with_tree<'a>(alloc: Global, texts: &[&'a str]) -> Result<&'a str, Memory> {
    for text in texts {
        match fault_in(alloc, text)? {
            Some(ParseFault::NoTree(_)) => {}
            _ => return Ok(text),
        }
    }
    Ok("")
}

/// The first of some texts whose first breach isn't the one beside it.
fn first_unbroken<'a>(alloc: Global, rows: &[(&'a str, usize, Rule)]) -> Result<&'a str, Memory> {
    for (text, at, rule) in rows {
        if fault_in(alloc, text)? != Some(ParseFault::Early(*at, *rule)) {
            return Ok(text);
        }
    }
    Ok("")
}

/// How many items the tree of a text has, if it has one that breaks no rule.
fn items_in(alloc: Global, text: &str) -> Result<Option<usize>, Memory> {
    let contents = Text::of(alloc, text)?;
    let mut steps = Steps::new();
    match parse_file(alloc, &contents, &mut steps) {
        Ok(tree) => {
            let items = tree.items.len();
            tree.items.discard();
            Ok(Some(items))
        }
        Err(ParseFault::Memory) => Err(Memory),
        Err(_) => Ok(None),
    }
}

/// A call of a number in so many parentheses.
fn nested(alloc: Global, parentheses: usize) -> Result<String, Memory> {
    let mut text = String::new(alloc);
    text.push_str("use(")?;
    for _ in 0..parentheses {
        text.push('(')?;
    }
    text.push('1')?;
    for _ in 0..parentheses {
        text.push(')')?;
    }
    text.push_str(");")?;
    Ok(text)
}

#[test]
fn literals_and_templates(rt: HostRuntime) -> Result<(), Fail> {
    let alloc = rt.alloc();
    let accepted = [
        "this",
        "a",
        "1",
        "1 .toString()",
        "'b'",
        "\"\\u{10ffff}\"",
        "/[/]/",
        "a / b / c",
        "x\n/y/z",
        "`a`",
        "`a${b}c${`d${e}`}f`",
        "tag`\\u`",
        "`\\u`",
        "tag`a${b}`",
        "null, true, false",
        "x<!--y",
    ];
    let refused = [
        "\"\\u{110000}\"",
        "1a",
        "'",
        "`${a",
        "`${}`",
        "enum",
        "-->x",
    ];
    assert_eq!(rt; first_refused(alloc, &accepted)?, "");
    assert_eq!(rt; first_with_tree(alloc, &refused)?, "");
    Ok(())
}

#[test]
fn lists_and_objects(rt: HostRuntime) -> Result<(), Fail> {
    let alloc = rt.alloc();
    let accepted = [
        "[,]",
        "[,,a,,]",
        "[...a, b]",
        "f(a,)",
        "f(...a, ...b)",
        "(a, b)",
        "((a))",
        "x = {}",
        "({ a, b, })",
        "({ get, set, async, static: 1 })",
        "({ get x() { return 1 }, set x(v) {}, async f() {}, *g() {}, [h]: 1, ...i, \"j\": 2, 3: 4 })",
        "({ async *f() {}, async get() {}, get async() {} })",
        "({ get\nf() {} })",
    ];
    let refused = [
        "f(,)",
        "f(a,,b)",
        "(...a)",
        "(a,)",
        "()",
        "({ , })",
        "({ async\nf() {} })",
        "({ a b })",
        "({ *get f() {} })",
        "{} = a",
    ];
    assert_eq!(rt; first_refused(alloc, &accepted)?, "");
    assert_eq!(rt; first_with_tree(alloc, &refused)?, "");
    Ok(())
}

#[test]
fn members_and_calls(rt: HostRuntime) -> Result<(), Fail> {
    let alloc = rt.alloc();
    let accepted = [
        "a.b.c(d)(e)[f]`g`",
        "new A",
        "new A()",
        "new new A()()",
        "new a.b().c",
        "a?.b.c?.[d]?.(e)",
        "x = a ?.5 : b",
        "import(\"x\").then(y)",
        "import.meta.url",
        "a.if.class",
        "async(a, b)",
        "async",
    ];
    let refused = [
        "a?.`x`",
        "a?.b`x`",
        "new a?.b()",
        "a.",
        "a[]",
        "import(a, b)",
        "new import(a)",
        "import.target",
        "a?.5.b",
        "super",
    ];
    assert_eq!(rt; first_refused(alloc, &accepted)?, "");
    assert_eq!(rt; first_with_tree(alloc, &refused)?, "");
    Ok(())
}

#[test]
fn operators(rt: HostRuntime) -> Result<(), Fail> {
    let alloc = rt.alloc();
    let accepted = [
        "a + b - c * d / e % f << 1 >> 2 >>> 3",
        "a < b > c <= d >= e instanceof f",
        "a == b != c === d !== e",
        "a & b ^ c | d && e || f",
        "a ?? b ?? c",
        "(a ?? b) || c",
        "a ** b ** c",
        "(-a) ** b",
        "a ** -b",
        "typeof void delete a.b",
        "++a",
        "a++",
        "- -a",
        "a in b",
        "!function () {}()",
    ];
    let refused = [
        "a ?? b || c",
        "a || b ?? c",
        "a && b ?? c",
        "-a ** b",
        "typeof a ** b",
        "++ ++a +",
        "a++ ++",
        "a +",
        "a ! b",
    ];
    assert_eq!(rt; first_refused(alloc, &accepted)?, "");
    assert_eq!(rt; first_with_tree(alloc, &refused)?, "");
    Ok(())
}

#[test]
fn choices_and_assignments(rt: HostRuntime) -> Result<(), Fail> {
    let alloc = rt.alloc();
    let accepted = [
        "a ? b : c ? d : e",
        "a = b = c",
        "a += b",
        "a **= b",
        "a.b >>>= c",
        "[a, b = 1, ...c] = d",
        "({a: b.c} = e)",
        "({a = 1} = b)",
        "[a.b, c[d]] = e",
        "0, a, b",
    ];
    let refused = [
        "a ? b, c : d",
        "a ? : b",
        "a ? b",
        "a ||= b",
        "a = ",
        "= a",
        "a => b = c +",
        "a ? b : c : d",
    ];
    assert_eq!(rt; first_refused(alloc, &accepted)?, "");
    assert_eq!(rt; first_with_tree(alloc, &refused)?, "");
    Ok(())
}

#[test]
fn arrow_functions(rt: HostRuntime) -> Result<(), Fail> {
    let alloc = rt.alloc();
    let accepted = [
        "a => b => c => d",
        "() => ({})",
        "(...a) => b",
        "([a], {b}) => c",
        "(a = b) => c",
        "(a, ...b) => a",
        "(a, b) => { return a }",
        "async () => {}",
        "async (a) => {}",
        "async x => await x",
        "(async x => x)(y)",
        "a = b ? c : d => e",
        "x = () => {}\n(f)()",
        "x = () => {}\n/y/g",
        "x = async\n(y)",
        "f(a => {}, b)",
    ];
    let refused = [
        "async\n(x) => x",
        "async (x)\n=> x",
        "async x\n=> x",
        "a\n=> b",
        "x => {} (f)()",
        "(a, ...b,) => a",
        "(a, ...b, c) => a",
        "((a)) => b",
        "(a.b) => c",
        "(a += b) => c",
        "() => {} || a",
        "a b => c",
    ];
    assert_eq!(rt; first_refused(alloc, &accepted)?, "");
    assert_eq!(rt; first_with_tree(alloc, &refused)?, "");
    Ok(())
}

#[test]
fn functions(rt: HostRuntime) -> Result<(), Fail> {
    let alloc = rt.alloc();
    let accepted = [
        "function f(a, b = 1, {c}, [d], ...e) {}",
        "function f(a,) {}",
        "x = function f() {}",
        "x = function () {}",
        "function* g() { yield\n-a }",
        "function* g() { yield* a; yield }",
        "async function f() { (await a) ** b }",
        "a = async function* () {}",
        "async function\nf() {}",
        "function f() { return\na }",
        "async\nfunction f() {}",
    ];
    let refused = [
        "function () {}",
        "function f(...a,) {}",
        "function f(...a, b) {}",
        "function f(...a = b) {}",
        "function f(a, , b) {}",
        "function f(a.b) {}",
        "function f() {",
        "async function f() { await a ** b }",
        "function* g() { yield\n* a }",
        "async function f() { x = await => 1 }",
    ];
    assert_eq!(rt; first_refused(alloc, &accepted)?, "");
    assert_eq!(rt; first_with_tree(alloc, &refused)?, "");
    Ok(())
}

#[test]
fn classes(rt: HostRuntime) -> Result<(), Fail> {
    let alloc = rt.alloc();
    let accepted = [
        "class A { }",
        "x = class {}",
        "class A extends B { constructor() { super(); } get x() { return 1 } static *g() {} async *h() {} }",
        "class A extends (B, C) {}",
        "class A { get\nf() {} }",
        "class A { ; a() {} ; }",
        "class A { static static() {} static get() {} static async() {} get() {} set() {} async() {} }",
        "class A { [a]() {} 'b'() {} 1() {} if() {} }",
    ];
    let refused = [
        "class { }",
        "class A extends B, C {}",
        "class A { x = 1 }",
        "class A { async\nf() {} }",
        "class A { a: 1 }",
        "class A { a() {}, b() {} }",
        "class A { #a() {} }",
        "class A extends a => b {}",
    ];
    assert_eq!(rt; first_refused(alloc, &accepted)?, "");
    assert_eq!(rt; first_with_tree(alloc, &refused)?, "");
    Ok(())
}

#[test]
fn declarations(rt: HostRuntime) -> Result<(), Fail> {
    let alloc = rt.alloc();
    let accepted = [
        "let x = 1, {y} = z",
        "let [a] = b",
        "var a = 1\nvar b = 2",
        "const {a, b: [c, ...d] = e, ...f} = g",
        "var {a} = b, [c] = d",
        "let\nx",
        "const a",
    ];
    let refused = [
        "let {a}",
        "const a = 1,",
        "var a b",
        "let x = 1 y",
        "var [a.b] = c",
        "let {a: b.c} = d",
    ];
    assert_eq!(rt; first_refused(alloc, &accepted)?, "");
    assert_eq!(rt; first_with_tree(alloc, &refused)?, "");
    Ok(())
}

#[test]
fn statements(rt: HostRuntime) -> Result<(), Fail> {
    let alloc = rt.alloc();
    let accepted = [
        ";;;",
        "{ a; { b } }",
        "debugger",
        "if (a) b; else if (c) d; else e",
        "if (a) if (b) c; else d",
        "do x; while (0) y",
        "while (a) b",
        "switch (a) { case 1: b; default: c }",
        "try { } catch { } finally { }",
        "try { } catch ({a}) { }",
        "try { } finally { }",
        "label: for (;;) { continue label; }",
        "throw a",
        "a: b: c",
        "for (;;) { break }",
    ];
    let refused = [
        "try { }",
        "if (a) else b",
        "if (a) class B {}",
        "if (a) function f() {}",
        "while (a) let\nb",
        "while (a)",
        "with (a) b",
        "throw\na",
        "switch (a) { b }",
        "else a",
        "case 1:",
        "do x while (0)",
        "label: class A {}",
        "catch { }",
    ];
    assert_eq!(rt; first_refused(alloc, &accepted)?, "");
    assert_eq!(rt; first_with_tree(alloc, &refused)?, "");
    Ok(())
}

#[test]
fn loops_with_heads(rt: HostRuntime) -> Result<(), Fail> {
    let alloc = rt.alloc();
    let accepted = [
        "for (a;b;c) ;",
        "for (var a = 1, b = 2;;) ;",
        "for (a in b) ;",
        "for (a in b, c) ;",
        "for (let of of x) ;",
        "for (let a in b) ;",
        "for (const a of b) ;",
        "for (var [a, b] of c) ;",
        "for ({a} of b) ;",
        "for (async of => 1; ;) ;",
        "for (async of x) ;",
        "for (const a;;) ;",
        "for (var a = (b in c);;) ;",
        "async function f() { for await (const x of y) z; }",
    ];
    let refused = [
        "for (a\nb;c) ;",
        "for (a;b) ;",
        "for (let x = 1 of y) ;",
        "for (var a = 1 in b) ;",
        "for (var a of b, c) ;",
        "for (let.x of b) ;",
        "for (a of b, c) ;",
        "for await (x of y) ;",
        "for (a in b;;) ;",
        "for (var a, b of c) ;",
    ];
    assert_eq!(rt; first_refused(alloc, &accepted)?, "");
    assert_eq!(rt; first_with_tree(alloc, &refused)?, "");
    Ok(())
}

#[test]
fn semicolons_that_are_left_out(rt: HostRuntime) -> Result<(), Fail> {
    let alloc = rt.alloc();
    let accepted = [
        "i++\n(f)()",
        "a\n++b",
        "a\nb",
        "{ a }",
        "a = b\n/c/d",
        "do; while (0) a",
        "a\n`b`",
        "x\n(y)",
        "return_\na",
        "a;\n\n;b",
        "if (a) b\nelse c",
        "let x\nlet y",
        "yield_\n* 2",
    ];
    let refused = [
        "a b",
        "a ++ b",
        "if (a) else b",
        "for (;\n) ;",
        "for (a\n;b\n) ;",
        "{ a b }",
        "var a var b",
        "if (a)",
        "x => {} y",
        "a\n)",
    ];
    assert_eq!(rt; first_refused(alloc, &accepted)?, "");
    assert_eq!(rt; first_with_tree(alloc, &refused)?, "");
    Ok(())
}

#[test]
fn modules(rt: HostRuntime) -> Result<(), Fail> {
    let alloc = rt.alloc();
    let accepted = [
        "import \"a\"",
        "import a from \"b\"",
        "import a, { b as c } from \"d\"",
        "import a, * as b from \"c\"",
        "import * as a from \"b\"",
        "import {} from \"a\"",
        "import { default as x, } from \"y\"",
        "export * from \"m\"",
        "export * as ns from \"m\"",
        "export { a as b, c } from \"m\"",
        "export { default } from \"x\"",
        "export {}",
        "export var x = 1",
        "export let {x} = y",
        "export async function f() {}",
        "export default function () {} (1)",
        "export default class {}",
        "export default async function () {}",
        "export default a = b",
        "export default (a, b)",
        "export default [a]",
        "export default {}",
    ];
    let refused = [
        "import a from b",
        "import { default } from \"y\"",
        "import { a b } from \"c\"",
        "import a, b from \"c\"",
        "import * from \"a\"",
        "import { a, , b } from \"c\"",
        "export a",
        "export *",
        "export default a, b",
        "export default var a",
        "export async\nfunction f() {}",
        "{ import \"a\" }",
        "{ export {} }",
        "function f() { import a from \"b\" }",
    ];
    assert_eq!(rt; first_refused(alloc, &accepted)?, "");
    assert_eq!(rt; first_with_tree(alloc, &refused)?, "");
    Ok(())
}

#[test]
fn early_rules(rt: HostRuntime) -> Result<(), Fail> {
    let alloc = rt.alloc();
    let rows: [(&str, usize, Rule); 44] = [
        ("break;", 0, 3),
        ("for (;;) break;\nbreak;", 16, 3),
        ("continue", 0, 3),
        ("a: continue a", 3, 3),
        ("a: { continue a }", 5, 3),
        ("break a", 6, 2),
        ("a: a: b", 3, 2),
        ("a: { a: b }", 5, 2),
        ("switch (a) { case 1: continue }", 21, 3),
        ("return", 0, 4),
        ("{ return }", 2, 4),
        ("1++", 0, 7),
        ("f() = 1", 0, 7),
        ("++a++", 2, 7),
        ("a?.b = c", 0, 7),
        ("([a]) = b", 0, 7),
        ("for (f() of x) ;", 5, 7),
        ("eval = 1", 0, 8),
        ("let arguments = 1", 4, 8),
        ("delete a", 0, 10),
        ("delete (a)", 0, 10),
        ("class A { constructor() {} constructor() {} }", 27, 11),
        ("class A { get constructor() {} }", 14, 11),
        (
            "class A { 'constructor'() {} async constructor() {} }",
            35,
            11,
        ),
        ("({ __proto__: a, '__proto__': b })", 17, 12),
        ("super.x", 0, 13),
        ("new.target", 0, 13),
        ("function f() { super() }", 15, 13),
        ("let", 0, 14),
        ("let let = 1", 4, 14),
        ("yield => 1", 0, 14),
        ("await", 0, 14),
        ("static => 1", 0, 14),
        ("function* g() { function yield() {} }", 25, 14),
        ("var yield", 4, 14),
        ("export { default }", 9, 14),
        ("function* g(a = yield) {}", 16, 15),
        ("async function f(a = await b) {}", 21, 15),
        ("function f(a = 1) { 'use strict' }", 20, 16),
        ("({ a = 1 })", 5, 17),
        ("({ get a(b) {} })", 7, 18),
        ("({ set a() {} })", 7, 18),
        ("break; return", 0, 3),
        ("return; break", 0, 4),
    ];
    assert_eq!(rt; first_unbroken(alloc, &rows)?, "");
    Ok(())
}

#[test]
fn statements_end_where_they_do(rt: HostRuntime) -> Result<(), Fail> {
    let alloc = rt.alloc();
    let rows = [
        ("", 0),
        ("x\n/y/z", 1),
        ("i++\n(f)()", 2),
        ("x = () => {}\n(f)()", 2),
        ("x = () => {}\n/y/g", 2),
        ("a = b / c / d\nf(/x/g)\ng = () => {}\n/x/.test(h)", 4),
        (
            "r(function () { return\na })\na\n++b\nx\n(y)\ndo;while(0) z",
            6,
        ),
    ];
    for (text, items) in rows {
        assert_eq!(rt; items_in(alloc, text)?, Some(items));
    }
    Ok(())
}

#[test]
fn levels_end(rt: HostRuntime) -> Result<(), Fail> {
    let alloc = rt.alloc();
    let low = nested(alloc, 100)?;
    assert_eq!(rt; items_in(alloc, low.as_str())?, Some(1));
    let deep = nested(alloc, 300)?;
    assert_eq!(rt; first_with_tree(alloc, &[deep.as_str()])?, "");
    Ok(())
}
