ghost use Rattle.std.specs.Prelude.{◌≡◌, ◌||◌, not, IfOk, codes};
ghost use Rattle.std.specs.List.{list_any};
ghost use Rattle.std.specs.Str.{bytes_eq};
ghost use Rattle.esb_json.specs.declared.value.Json.{out-Json};
ghost use Rattle.esb_exports.specs.Outcomes.{begins};
ghost use Rattle.esb_exports.specs.Targets.{answer_of, keyed_outcome, has_dot, main_outcome, object_exports, open_exports, open_imports, exports_target, imports_target, Answers};

use crate::choice::{chosen, match_of};
use crate::fault::TargetFault;
use crate::outcome::{Outcome, Request, Target, target_outcome};
use crate::units::{active_names, units_of};
use esb_base::{List, Memory, Text};
use esb_json::Json;
use std::alloc::Global;

#[tactic(auto, unfolding(crate::specs::Targets::answer_of))]
fn answer_of(outcome: Outcome) -> Result<Target, TargetFault>
    ensures { result ≡ answer_of outcome }
{
    match outcome {
        Outcome::Undefined | Outcome::Nothing => Err(TargetFault::NotExported),
        Outcome::Found(target) => Ok(target),
        Outcome::BadTarget => Err(TargetFault::BadTarget),
        Outcome::BadConfig => Err(TargetFault::BadConfig),
        Outcome::BadSpecifier => Err(TargetFault::BadSpecifier),
    }
}

/// What the member that the path takes comes to.
#[tactic(auto, unfolding(crate::specs::Targets::keyed_outcome, crate::specs::Targets::member_outcome))]
fn keyed_outcome(
    alloc: Global,
    imports: bool,
    active: &[List<u16>],
    members: &[(List<u16>, Json)],
    path: &[u16],
) -> Result<Outcome, Memory>
    ensures { IfOk result (λ outcome. outcome ≡ keyed_outcome imports active.now members.now path.now) }
{
    let Some(member) = chosen(members, path) else {
        return Ok(Outcome::Undefined);
    };
    let matched = match_of(member.0.as_slice(), path);
    let request = Request {
        imports,
        matched,
        active,
    };
    target_outcome(alloc, &request, &member.1)
}

/// A value without subpaths is the target of the package itself.
#[tactic(auto, unfolding(crate::specs::Targets::main_outcome))]
fn main_outcome(
    alloc: Global,
    active: &[List<u16>],
    exports: &Json,
    path: &[u16],
) -> Result<Outcome, Memory>
    ensures { IfOk result (λ outcome. outcome ≡ main_outcome active.now exports.now path.now) }
{
    if path != [0x2E].as_slice() {
        return Ok(Outcome::Undefined);
    }
    let request = Request {
        imports: false,
        matched: &path[..0],
        active,
    };
    target_outcome(alloc, &request, exports)
}

fn has_dot(member: &(List<u16>, Json)) -> bool
    ensures { result ≡ has_dot member.now }
{
    member.0.as_slice().first() == Some(&0x2E)
}

fn has_subpath(members: &[(List<u16>, Json)]) -> bool
    ensures { result ≡ list_any has_dot members.now }
{
    members.iter().any(|member| has_dot(member))
}

fn has_condition(members: &[(List<u16>, Json)]) -> bool
    ensures { result ≡ list_any (λ member. not (has_dot member)) members.now }
{
    members.iter().any(|member| !has_dot(member))
}

/// The conditions of the package itself, or its subpaths, and never both.
fn object_exports(
    alloc: Global,
    active: &[List<u16>],
    exports: &Json,
    members: &[(List<u16>, Json)],
    path: &[u16],
) -> Result<Outcome, Memory>
    ensures { IfOk result (λ outcome. outcome ≡ object_exports active.now exports.now members.now path.now) }
{
    if has_subpath(members) {
        if has_condition(members) {
            return Ok(Outcome::BadConfig);
        }
        return keyed_outcome(alloc, false, active, members, path);
    }
    main_outcome(alloc, active, exports, path)
}

/// What the subpath leads to in a package with these exports.
fn open_exports(
    alloc: Global,
    active: &[List<u16>],
    exports: &Json,
    path: &[u16],
) -> Result<Outcome, Memory>
    ensures { IfOk result (λ outcome. outcome ≡ open_exports active.now exports.now path.now (out-Json exports.now)) }
{
    match exports {
        Json::Null => Ok(Outcome::Undefined),
        Json::Bool(_) => Ok(Outcome::Undefined),
        Json::Number(_) => Ok(Outcome::Undefined),
        Json::Str(_) => main_outcome(alloc, active, exports, path),
        Json::Array(_) => main_outcome(alloc, active, exports, path),
        Json::Object(members) => object_exports(alloc, active, exports, members.as_slice(), path),
    }
}

/// What the subpath of a package leads to, which is `.` or begins with `./`, by the package's
/// `exports` and the conditions that are active beside `default` (Node.js, "Modules: ECMAScript
/// modules", PACKAGE_EXPORTS_RESOLVE).
///
/// # Errors
///
/// Each variant of [`TargetFault`] comes exactly where `exports_target` of `specs/Targets.antt` is
/// that fault, and `Memory` also comes where memory is refused.
pub fn exports_of(
    alloc: Global,
    exports: &Json,
    subpath: &Text,
    conditions: &[Text],
) -> Result<Target, TargetFault>
    ensures { Answers result (exports_target exports.now subpath.now conditions.now) }
{
    let active = active_names(alloc, conditions)?;
    let path = units_of(alloc, subpath.as_str())?;
    let outcome = open_exports(alloc, active.as_slice(), exports, path.as_slice())?;
    answer_of(outcome)
}

/// Whether a specifier is `#` alone or begins with `#/`.
fn is_nameless(spec: &str) -> bool
    ensures { result ≡ (bytes_eq spec.now (codes "#") || begins spec.now (codes "#/")) }
{
    spec == "#" || spec.starts_with("#/")
}

/// What the specifier leads to in a package with these imports.
fn open_imports(
    alloc: Global,
    active: &[List<u16>],
    imports: &Json,
    path: &[u16],
) -> Result<Outcome, Memory>
    ensures { IfOk result (λ outcome. outcome ≡ open_imports active.now path.now (out-Json imports.now)) }
{
    match imports {
        Json::Null => Ok(Outcome::Undefined),
        Json::Bool(_) => Ok(Outcome::Undefined),
        Json::Number(_) => Ok(Outcome::Undefined),
        Json::Str(_) => Ok(Outcome::Undefined),
        Json::Array(_) => Ok(Outcome::Undefined),
        Json::Object(members) => keyed_outcome(alloc, true, active, members.as_slice(), path),
    }
}

/// What a specifier that begins with `#` leads to, by the `imports` of the package that asks and
/// the conditions that are active beside `default` (Node.js, "Modules: ECMAScript modules",
/// PACKAGE_IMPORTS_RESOLVE).
///
/// # Errors
///
/// Each variant of [`TargetFault`] comes exactly where `imports_target` of `specs/Targets.antt` is
/// that fault, and `Memory` also comes where memory is refused.
pub fn imports_of(
    alloc: Global,
    imports: &Json,
    spec: &Text,
    conditions: &[Text],
) -> Result<Target, TargetFault>
    ensures { Answers result (imports_target imports.now spec.now conditions.now) }
{
    if is_nameless(spec.as_str()) {
        return Err(TargetFault::BadSpecifier);
    }
    let active = active_names(alloc, conditions)?;
    let path = units_of(alloc, spec.as_str())?;
    let outcome = open_imports(alloc, active.as_slice(), imports, path.as_slice())?;
    answer_of(outcome)
}
