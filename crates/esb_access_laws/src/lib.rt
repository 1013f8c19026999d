//! Members, calls, `new` and optional chains (ECMA-262, 12.3): the definitions of how they are read, and the laws, each the
//! contract of a function that does nothing.
#![tactic(auto)]

mod laws;

pub use laws::accesses;
