//! As what expressions and lists stand.

ghost use Rattle.std.specs.Prelude.{◌≡◌};
ghost use Rattle.esb_early_checks.specs.Roles as spec;

use esb_token::{Kind, Token};

/// As what an expression stands.
#[derive(Clone, Copy)]
pub enum Role {
    Value,
    /// What is assigned to, and is no pattern (ECMA-262, 12.4.1, 12.15.1).
    Simple,
    /// What is assigned to or bound, which may be a pattern (12.15.5, 13.3).
    Target,
    /// The same with a default, if `=` stands behind it.
    TargetOrDefault,
    /// What stands before the arrow of a function (14.2, 14.8).
    Parameters,
}

/// As what a list of elements stands.
#[derive(Clone, Copy)]
pub enum ListRole {
    /// Values, arguments, or the properties of an object.
    Values,
    /// An array that is a pattern, parameters, or the bindings of a declaration.
    ArrayPattern,
    /// An object that is a pattern.
    ObjectPattern,
}

/// Where an element stands: in what list, at which place that begins, and whether it is the last.
#[derive(Clone, Copy)]
pub struct Place {
    pub role: ListRole,
    pub begin: usize,
    pub is_last: bool,
}

/// An element that stands so.
pub fn placed(role: ListRole, begin: usize, is_last: bool) -> Place
    ensures { result ≡ spec.placed role begin is_last }
{
    Place {
        role,
        begin,
        is_last,
    }
}

/// An array literal that stands so.
pub fn array_role(role: Role) -> ListRole
    ensures { result ≡ spec.array_role role }
{
    match role {
        Role::Value | Role::Simple => ListRole::Values,
        _ => ListRole::ArrayPattern,
    }
}

/// An object literal that stands so.
pub fn object_role(role: Role) -> ListRole
    ensures { result ≡ spec.object_role role }
{
    match role {
        Role::Value | Role::Simple => ListRole::Values,
        _ => ListRole::ObjectPattern,
    }
}

/// A list in parentheses that stands so.
pub fn parenthesized_role(role: Role) -> ListRole
    ensures { result ≡ spec.parenthesized_role role }
{
    match role {
        Role::Parameters => ListRole::ArrayPattern,
        _ => ListRole::Values,
    }
}

/// The left side of an assignment with this operator (12.15.1).
pub fn assigned_role(operator: Kind) -> Role
    ensures { result ≡ spec.assigned_role operator }
{
    match operator {
        Kind::Assign => Role::Target,
        _ => Role::Simple,
    }
}

/// An expression that is an element, or the value of a property.
pub fn element_role(place: Place) -> Role
    ensures { result ≡ spec.element_role place }
{
    match place.role {
        ListRole::Values => Role::Value,
        _ => Role::TargetOrDefault,
    }
}

/// An expression behind `...` (12.15.5.1).
pub fn spread_role(place: Place) -> Role
    ensures { result ≡ spec.spread_role place }
{
    match place.role {
        ListRole::Values => Role::Value,
        ListRole::ArrayPattern => Role::Target,
        ListRole::ObjectPattern => Role::Simple,
    }
}

/// Whether something is assigned or bound.
pub fn is_target(role: Role) -> bool
    ensures { result ≡ spec.is_target role }
{
    match role {
        Role::Value => false,
        _ => true,
    }
}

/// Whether something is assigned or bound that is no list of parameters.
pub fn is_assigned(role: Role) -> bool
    ensures { result ≡ spec.is_assigned role }
{
    match role {
        Role::Value | Role::Parameters => false,
        _ => true,
    }
}

/// Whether what is assigned to may not be a pattern.
pub fn is_simple(role: Role) -> bool
    ensures { result ≡ spec.is_simple role }
{
    match role {
        Role::Simple => true,
        _ => false,
    }
}

/// Whether `=` and a default may stand behind what is bound.
pub fn may_have_default(role: Role) -> bool
    ensures { result ≡ spec.may_have_default role }
{
    match role {
        Role::TargetOrDefault => true,
        _ => false,
    }
}

/// Whether a list is a pattern, parameters, or the bindings of a declaration.
pub fn is_pattern(role: ListRole) -> bool
    ensures { result ≡ spec.is_pattern role }
{
    match role {
        ListRole::Values => false,
        _ => true,
    }
}

/// Whether a method of a class is not static.
pub fn is_prototype_method(static_word: Option<Token>) -> bool
    ensures { result ≡ spec.is_prototype_method static_word }
{
    match static_word {
        Some(_) => false,
        None => true,
    }
}
