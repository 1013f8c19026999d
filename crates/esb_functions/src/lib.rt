//! The parser of functions, methods, objects and classes (ECMA-262, 12.2.6, 14.1, 14.3 to 14.7). Each function gives what the
//! reader of its production gives, over functions handed in that read the values, the bodies, and what classes extend.
#![tactic(auto)]

mod classes;
mod functions;
mod kinds;
mod made;
mod methods;
mod objects;
mod parser;
mod properties;

pub use parser::Functions;
