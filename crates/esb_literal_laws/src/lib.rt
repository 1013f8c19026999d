//! What it is to read literals, functions and classes, and that what is read so are exactly the well-formed ones of a text:
//! laws, each the contract of a function that does nothing.
#![tactic(auto)]

mod laws;

pub use laws::{bindings, classes, functions, objects, templates};
