//! Where a node stands, as far as the early rules ask.

ghost use Rattle.std.specs.Prelude.{◌≡◌};
ghost use Rattle.esb_early_checks.specs.Settings as spec;

use esb_names::is_constructor;
use esb_token::Token;

/// What round a node permits what in it.
#[derive(Clone, Copy)]
pub struct Setting {
    /// A function, so `return` may stand here (ECMA-262, 13.10).
    pub in_function: bool,
    /// A loop, so `continue` may (13.8).
    pub in_loop: bool,
    /// A loop or a `switch`, so `break` may (13.9).
    pub in_breakable: bool,
    /// A function that is no arrow function, so `new.target` may (12.3.1.1, 15.2.1.1).
    pub has_new_target: bool,
    /// A method, so `super.x` may (14.1.2, 15.2.1.1).
    pub has_super: bool,
    /// The constructor of a class that extends another, so `super()` may (14.6.1).
    pub has_super_call: bool,
    /// The parameters of a function, so `yield` and `await` may not (14.2.1, 14.4.1, 14.5.1, 14.7.1).
    pub in_parameters: bool,
}

/// In the items of a module.
pub fn of_module() -> Setting
    ensures { result ≡ spec.of_module }
{
    Setting {
        in_function: false,
        in_loop: false,
        in_breakable: false,
        has_new_target: false,
        has_super: false,
        has_super_call: false,
        in_parameters: false,
    }
}

/// In the body of a loop.
pub fn of_loop(setting: Setting) -> Setting
    ensures { result ≡ spec.of_loop setting }
{
    Setting {
        in_loop: true,
        in_breakable: true,
        ..setting
    }
}

/// In the clauses of a `switch`.
pub fn of_switch(setting: Setting) -> Setting
    ensures { result ≡ spec.of_switch setting }
{
    Setting {
        in_breakable: true,
        ..setting
    }
}

/// In the parameters of an arrow function.
pub fn of_parameters(setting: Setting) -> Setting
    ensures { result ≡ spec.of_parameters setting }
{
    Setting {
        in_parameters: true,
        ..setting
    }
}

/// In the body of an arrow function, which has the `super` and the `new.target` of what is round it.
pub fn of_body(setting: Setting) -> Setting
    ensures { result ≡ spec.of_body setting }
{
    Setting {
        in_function: true,
        in_loop: false,
        in_breakable: false,
        in_parameters: false,
        ..setting
    }
}

/// In a function that is no method and no arrow function.
pub fn of_function() -> Setting
    ensures { result ≡ spec.of_function }
{
    Setting {
        in_function: true,
        in_loop: false,
        in_breakable: false,
        has_new_target: true,
        has_super: false,
        has_super_call: false,
        in_parameters: false,
    }
}

/// In a method, which may be the constructor of a class that extends another.
pub fn of_method(is_derived_constructor: bool) -> Setting
    ensures { result ≡ spec.of_method is_derived_constructor }
{
    Setting {
        has_super: true,
        has_super_call: is_derived_constructor,
        ..of_function()
    }
}

/// In the parameters of a function that is no method and no arrow function.
pub fn of_function_parameters() -> Setting
    ensures { result ≡ spec.of_function_parameters }
{
    of_parameters(of_function())
}

/// In the body of a method with this key, which may be one of a class that is not static, and of a class that extends another.
pub fn of_named_method(
    text: &[u8],
    is_prototype: bool,
    is_derived: bool,
    key: Option<Token>,
) -> Setting
    ensures { result ≡ spec.of_named_method text.now is_prototype is_derived key }
{
    of_method(is_prototype && is_derived && is_constructor(text, key))
}

/// In its parameters.
pub fn of_method_parameters(
    text: &[u8],
    is_prototype: bool,
    is_derived: bool,
    key: Option<Token>,
) -> Setting
    ensures { result ≡ spec.of_method_parameters text.now is_prototype is_derived key }
{
    of_parameters(of_named_method(text, is_prototype, is_derived, key))
}
