//! The parser of literals and patterns (ECMA-262, 12.2, 12.3.8, 13.3, 14.1): lists in parentheses and brackets, templates, names
//! of properties, patterns, parameters, and lists of bindings. Each function gives what the reader of its production gives, over
//! functions handed in that read the values.
#![tactic(auto)]

mod bindings;
mod kinds;
mod literals;
mod names;
mod patterns;
mod places;
mod properties;
mod targets;
mod words;

pub use kinds::{
    begins_name, closer, ends_element, inside, is_assign, is_colon, is_comma, is_dots,
    is_left_brace, is_left_bracket, is_star, opener, stands_alone,
};
pub use literals::Literals;
pub use places::make_list;
pub use targets::make_property;
pub use words::{is_accessor, is_async};
