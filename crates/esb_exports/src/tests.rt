use super::*;
use esb_base::{List, Text};
use esb_json::{Json, read_json};
use std::alloc::Global;
use std::test::Fail;

/// The members of an object, in written order.
const CONDITIONS: &str = r##"name | exports | path | conditions | wanted
import is written first | {".": {"import": "./i.js", "default": "./d.js"}} | . | import | ./i.js
import is not active | {".": {"import": "./i.js", "default": "./d.js"}} | . | require | ./d.js
default is written first | {".": {"default": "./d.js", "import": "./i.js"}} | . | import | ./d.js
a condition of the user | {"require": "./r.js", "zone": "./z.js", "import": "./i.js"} | . | import zone | ./z.js
without the condition of the user | {"require": "./r.js", "zone": "./z.js", "import": "./i.js"} | . | import | ./i.js
no condition is active | {".": {"require": "./r.js"}} | . | import | not exported
conditions in a condition | {".": {"import": {"zone": "./z.js", "default": "./i.js"}, "default": "./d.js"}} | . | import zone | ./z.js
nothing is active in a condition | {".": {"import": {"zone": "./z.js"}, "default": "./d.js"}} | . | import | ./d.js
null for a condition | {".": {"import": null, "default": "./d.js"}} | . | import | not exported
null in a condition | {".": {"import": {"default": null}, "default": "./d.js"}} | . | import | not exported
a bad target for a condition | {".": {"import": "i.js", "default": "./d.js"}} | . | import | bad target
a number for a condition | {".": {"require": 1, "default": "./d.js"}} | . | require | bad target
"##;

/// What the package itself leads to, and names of both kinds.
const WHOLE: &str = r##"name | exports | path | conditions | wanted
a text | "./a.js" | . | import | ./a.js
a text has no subpaths | "./a.js" | ./a.js | import | not exported
an array | ["./a.js"] | . | require | ./a.js
an object of conditions | {"require": "./r.js", "import": "./i.js"} | . | import | ./i.js
conditions have no subpaths | {"import": "./i.js"} | ./i.js | import | not exported
an empty object | {} | . | import | not exported
subpaths alone | {"./a": "./a.js"} | . | import | not exported
no package in itself | {"./a": "./a.js", ".": "./m.js"} | . | import | ./m.js
names of both kinds | {".": "./a.js", "import": "./i.js"} | . | import | bad package.json
names of both kinds for a subpath | {"import": "./i.js", "./a": "./a.js"} | ./a | import | bad package.json
an empty name beside a subpath | {"": "./a.js", "./b": "./b.js"} | ./c | import | bad package.json
a boolean | false | . | import | not exported
"##;

/// The key that a path takes.
const KEYS: &str = r##"name | exports | path | conditions | wanted
the longer part up to the star | {".": {"import": "./i.js", "default": "./d.js"}, "./f/*": "./x/*.js", "./f/a/*": "./y/*.js"} | ./f/a/b | import | ./y/b.js
null for a closer key | {"./f/*": "./x/*.js", "./f/secret/*": null} | ./f/secret/k | import | not exported
an exact key behind a star | {"./f/*": "./x/*.js", "./f/a": "./e.js"} | ./f/a | import | ./e.js
null for an exact key | {"./f/*": "./x/*.js", "./f/a": null} | ./f/a | import | not exported
a longer key with a shorter part | {"./f/*.production.js": "./x/*.js", "./f/a/*": "./y/*"} | ./f/a/b.production.js | import | ./y/b.production.js
the longer key of two parts as long | {"./f/*": "./x/*", "./f/*.js": "./y/*.js"} | ./f/a.js | import | ./y/a.js
the longer key first | {"./f/*.js": "./y/*.js", "./f/*": "./x/*"} | ./f/a.js | require | ./y/a.js
a slash at the end of an exact key | {"./f/": "./x.js"} | ./f/ | import | ./x.js
a name that stands twice | {"./a": "./b.js", "./a": "./c.js"} | ./a | import | ./b.js
nothing for the star | {"./f/*": "./x/*.js"} | ./f/ | import | not exported
nothing between the parts | {"./a*a": "./x/*.js"} | ./aa | import | not exported
parts that share no letter | {"./a*a": "./x/*.js"} | ./aba | import | ./x/b.js
letters of another case | {"./A": "./a.js"} | ./a | import | not exported
no other key after the closest | {"./*": "./x/*.js", "./a*": {"require": "./r.js"}} | ./ab | import | not exported
"##;

/// What stands for a star.
const STARS: &str = r##"name | exports | path | conditions | wanted
segments for a star | {"./*": "./lib/*"} | ./a/b.js | import | ./lib/a/b.js
each star of a target | {"./*": "./x/*/*.js"} | ./a | import | ./x/a/a.js
a target without a star | {"./*": "./x.js"} | ./a | import | ./x.js
two stars in a key | {"./*/*": "./x/*.js"} | ./a/b | import | not exported
a star in the target of an exact key | {"./a": "./x/*.js"} | ./a | import | ./x/*.js
a star for the star | {"./*": "./x/*.js"} | ./* | import | ./x/*.js
stars in a condition | {"./*": {"require": "./r/*.js", "import": ["./i/*.js"]}} | ./a | import | ./i/a.js
letters past ASCII | {"./\u00e9/*": "./x/*\ud83d\ude00.js"} | ./é/ü | import | ./x/ü😀.js
"##;

/// The items of an array.
const ARRAYS: &str = r##"name | exports | path | conditions | wanted
the first item | ["./a.js", "./b.js"] | . | import | ./a.js
past an item with nothing active | [{"require": "./r.js"}, "./d.js"] | . | import | ./d.js
past a bad target | ["a.js", "./b.js"] | . | import | ./b.js
past a number | [1, true, "./b.js"] | . | import | ./b.js
past an array of bad targets | [["a.js"], "./b.js"] | . | import | ./b.js
an empty array | [] | . | import | not exported
bad targets alone | ["a.js", "../b.js"] | . | import | bad target
a bad target and nothing active | ["a.js", {"require": "./r.js"}] | . | import | bad target
nothing active | [{"require": "./r.js"}] | . | import | not exported
null behind a bad target | ["a.js", null] | . | import | not exported
null before a target | [null, "./b.js"] | . | import | not exported
an empty array before a target | [[], "./b.js"] | . | import | not exported
"##;

/// Names that are array indices.
const INDICES: &str = r##"name | exports | path | conditions | wanted
an array index | {".": {"0": "./a.js"}} | . | import | bad package.json
an array index behind an active condition | {".": {"import": "./i.js", "7": "./a.js"}} | . | import | bad package.json
an array index for the package itself | {"import": "./i.js", "1": "./a.js"} | . | import | bad package.json
an array index that is not tried | {"import": "./i.js", "1": "./a.js"} | ./a | import | not exported
an array index in a condition that is not active | {".": {"require": {"0": "./a.js"}, "import": "./i.js"}} | . | import | ./i.js
an array index in an array | ["a.js", {"0": "./a.js"}, "./b.js"] | . | import | bad package.json
the greatest array index | {".": {"4294967294": "./a.js", "import": "./i.js"}} | . | import | bad package.json
past the greatest array index | {".": {"4294967295": "./a.js", "import": "./i.js"}} | . | import | ./i.js
a leading zero | {".": {"01": "./a.js", "import": "./i.js"}} | . | import | ./i.js
a sign | {".": {"-0": "./a.js", "+1": "./b.js", "import": "./i.js"}} | . | import | ./i.js
a fraction | {".": {"1.5": "./a.js", "import": "./i.js"}} | . | import | ./i.js
"##;

/// Segments of a target.
const TARGETS: &str = r##"name | exports | path | conditions | wanted
the folder above | "./a/../b.js" | . | import | bad target
out of the package | "./../b.js" | . | require | bad target
an escaped folder above | "./%2e%2E/b.js" | . | import | bad target
a half escaped folder above | "./a/.%2e" | . | import | bad target
a dot | "./a/./b.js" | . | import | bad target
a backslash | "./a\\..\\b.js" | . | import | bad target
other packages | "./node_modules/b.js" | . | import | bad target
other packages in capitals and escaped | "./a/NODE%5F%6dodules/b.js" | . | import | bad target
three dots | "./.../..a/b.js" | . | import | ./.../..a/b.js
an escaped escape | "./%252e%252e/b.js" | . | import | ./%252e%252e/b.js
an empty segment | "./a//b.js" | . | import | bad target
the folder of the package | "./" | . | import | bad target
"##;

/// Targets that name no file of the package.
const FRONTS: &str = r##"name | exports | path | conditions | wanted
no dot | "a.js" | . | import | bad target
a hidden file without a dot before | ".a.js" | . | import | bad target
an absolute path | "/a.js" | . | import | bad target
a dot alone | "." | . | import | bad target
an empty text | "" | . | require | bad target
a package | {"./a": "dep"} | ./a | import | bad target
a boolean target | {"./a": true} | ./a | import | bad target
null | {"./a": null} | ./a | import | not exported
half a character | "./a\ud83d.js" | . | import | bad target
"##;

/// Segments of what stands for a star.
const MATCHES: &str = r##"name | exports | path | conditions | wanted
up in a match | {"./f/*": "./x/*.js"} | ./f/../k | import | bad specifier
up is the match | {"./f/*": "./x/*"} | ./f/.. | import | bad specifier
escaped up in a match | {"./f/*": "./x/*.js"} | ./f/a/%2e%2E/k | import | bad specifier
a dot in a match | {"./f/*": "./x/*.js"} | ./f/a/./k | require | bad specifier
a backslash in a match | {"./f/*": "./x/*.js"} | ./f/a\..\k | import | bad specifier
other packages in a match | {"./f/*": "./x/*.js"} | ./f/Node_Modules/k | import | bad specifier
a match that begins with dots | {"./f/*": "./x/*.js"} | ./f/..k | import | ./x/..k.js
a bad target before a bad match | {"./f/*": "./x/../*.js"} | ./f/../k | import | bad target
null before a bad match | {"./f/*": null} | ./f/../k | import | not exported
a bad match ends an array | {"./f/*": ["x", "./x/*.js", "./d.js"]} | ./f/../k | import | bad specifier
an empty segment in a match | {"./f/*": "./x/*.js"} | ./f/a//k | import | bad specifier
a slash at the end of a match | {"./f/*": "./x/*.js"} | ./f/a/ | import | bad specifier
"##;

/// What imports lead to.
const IMPORTED: &str = r##"name | imports | path | conditions | wanted
a file | {"#a": "./a.js"} | #a | import | ./a.js
another package | {"#a": "dep"} | #a | import | package dep
a file of another package | {"#a/*": "@dep/lib/*.js"} | #a/b | require | package @dep/lib/b.js
a package by condition | {"#a": {"require": "./r.js", "default": "dep"}} | #a | import | package dep
a file by condition | {"#a": {"require": "./r.js", "default": "dep"}} | #a | require | ./r.js
a match under imports | {"#a*": "./x/*.js", "#ab*": "./y/*.js"} | #abc | import | ./y/c.js
any name | {"*": "./x/*.js"} | #a | import | ./x/#a.js
a slash at the end of a specifier | {"#a/": "./a.js"} | #a/ | import | ./a.js
a package in an array | {"#a": ["/a.js", "dep"]} | #a | import | package dep
a file above under imports | {"#a": "../a.js"} | #a | import | bad target
an absolute path under imports | {"#a": "/a.js"} | #a | import | bad target
a URL | {"#a": "https://example.org/a.js"} | #a | import | package https://example.org/a.js
a match of a package is free | {"#a/*": "dep/*"} | #a/b/../c.js | require | package dep/b/../c.js
"##;

/// Specifiers that imports refuse.
const UNNAMED: &str = r##"name | imports | path | conditions | wanted
no such name | {"#a": "./a.js"} | #b | import | not exported
null under imports | {"#a*": "./a.js", "#ab": null} | #ab | import | not exported
a number under imports | {"#a": 1} | #a | import | bad target
an array index under imports | {"#a": {"0": "./a.js", "default": "./b.js"}} | #a | import | bad package.json
up in a match under imports | {"#a/*": "./x/*.js"} | #a/../k | import | bad specifier
no name | {"#": "./a.js"} | # | import | bad specifier
a slash behind the sign | {"#/a": "./a.js"} | #/a | require | bad specifier
a slash behind the sign in a package with no imports | null | #/a | import | bad specifier
an array is no object of names | ["./a.js"] | #a | import | not exported
a text is no object of names | "./a.js" | #a | import | not exported
"##;

/// Whether the answer is what a line wants: the text of a file, the specifier of a package behind
/// `package `, or the text of a fault.
fn is_wanted(answer: &Result<Target, TargetFault>, wanted: &str) -> bool {
    match answer {
        Ok(Target::File(text)) => text.as_str() == wanted,
        Ok(Target::Bare(text)) => wanted.strip_prefix("package ") == Some(text.as_str()),
        Err(TargetFault::NotExported) => wanted == "not exported",
        Err(TargetFault::BadTarget) => wanted == "bad target",
        Err(TargetFault::BadConfig) => wanted == "bad package.json",
        Err(TargetFault::BadSpecifier) => wanted == "bad specifier",
        Err(TargetFault::Memory) => false,
    }
}

/// The cells of a line: its name, the JSON, the path that is asked for, the active conditions with
/// a space between two of them, and what is wanted.
fn cells_of(line: &str) -> Option<(&str, &str, &str, &str)> {
    let mut cells = line.split(" | ");
    let _name = cells.next()?;
    Some((cells.next()?, cells.next()?, cells.next()?, cells.next()?))
}

/// The names between the spaces of a text.
fn names_of(alloc: Global, text: &str) -> Result<List<Text>, Fail> {
    let mut names = List::new(alloc);
    for name in text.split(' ') {
        names.push(Text::of(alloc, name)?)?;
    }
    Ok(names)
}

fn json_of(alloc: Global, text: &str) -> Result<Json, Fail> {
    Ok(read_json(alloc, &Text::of(alloc, text)?)?)
}

/// Whether `exports` lead to what a line wants.
fn exports_lead(alloc: Global, line: &str) -> Result<bool, Fail> {
    let Some((json, path, conditions, wanted)) = cells_of(line) else {
        return Ok(false);
    };
    let exports = json_of(alloc, json)?;
    let subpath = Text::of(alloc, path)?;
    let conditions = names_of(alloc, conditions)?;
    let answer = exports_of(alloc, &exports, &subpath, conditions.as_slice());
    Ok(is_wanted(&answer, wanted))
}

/// Whether `imports` lead to what a line wants.
fn imports_lead(alloc: Global, line: &str) -> Result<bool, Fail> {
    let Some((json, spec, conditions, wanted)) = cells_of(line) else {
        return Ok(false);
    };
    let imports = json_of(alloc, json)?;
    let spec = Text::of(alloc, spec)?;
    let conditions = names_of(alloc, conditions)?;
    let answer = imports_of(alloc, &imports, &spec, conditions.as_slice());
    Ok(is_wanted(&answer, wanted))
}

#[test]
fn conditions(rt: HostRuntime) -> Result<(), Fail> {
    for line in CONDITIONS.lines().skip(1) {
        assert!(rt; exports_lead(rt.alloc(), line)?, "{line}");
    }
    Ok(())
}

#[test]
fn the_package_itself(rt: HostRuntime) -> Result<(), Fail> {
    for line in WHOLE.lines().skip(1) {
        assert!(rt; exports_lead(rt.alloc(), line)?, "{line}");
    }
    Ok(())
}

#[test]
fn keys(rt: HostRuntime) -> Result<(), Fail> {
    for line in KEYS.lines().skip(1) {
        assert!(rt; exports_lead(rt.alloc(), line)?, "{line}");
    }
    Ok(())
}

#[test]
fn stars(rt: HostRuntime) -> Result<(), Fail> {
    for line in STARS.lines().skip(1) {
        assert!(rt; exports_lead(rt.alloc(), line)?, "{line}");
    }
    Ok(())
}

#[test]
fn arrays(rt: HostRuntime) -> Result<(), Fail> {
    for line in ARRAYS.lines().skip(1) {
        assert!(rt; exports_lead(rt.alloc(), line)?, "{line}");
    }
    Ok(())
}

#[test]
fn array_indices(rt: HostRuntime) -> Result<(), Fail> {
    for line in INDICES.lines().skip(1) {
        assert!(rt; exports_lead(rt.alloc(), line)?, "{line}");
    }
    Ok(())
}

#[test]
fn segments_of_targets(rt: HostRuntime) -> Result<(), Fail> {
    for line in TARGETS.lines().skip(1) {
        assert!(rt; exports_lead(rt.alloc(), line)?, "{line}");
    }
    Ok(())
}

#[test]
fn fronts_of_targets(rt: HostRuntime) -> Result<(), Fail> {
    for line in FRONTS.lines().skip(1) {
        assert!(rt; exports_lead(rt.alloc(), line)?, "{line}");
    }
    Ok(())
}

#[test]
fn segments_of_matches(rt: HostRuntime) -> Result<(), Fail> {
    for line in MATCHES.lines().skip(1) {
        assert!(rt; exports_lead(rt.alloc(), line)?, "{line}");
    }
    Ok(())
}

#[test]
fn imported_targets(rt: HostRuntime) -> Result<(), Fail> {
    for line in IMPORTED.lines().skip(1) {
        assert!(rt; imports_lead(rt.alloc(), line)?, "{line}");
    }
    Ok(())
}

#[test]
fn refused_specifiers(rt: HostRuntime) -> Result<(), Fail> {
    for line in UNNAMED.lines().skip(1) {
        assert!(rt; imports_lead(rt.alloc(), line)?, "{line}");
    }
    Ok(())
}

#[test]
fn laws_can_be_called() {
    chosen_keys();
    matches();
    exported_files();
}
