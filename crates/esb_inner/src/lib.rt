//! What reads the nodes one level down. The parsers of expressions, of functions and of statements hold one another, so each is
//! handed the functions that read what stands in its nodes. The crate that ties them together hands in the functions themselves.
#![tactic(auto)]

mod parser;
mod readers;

pub use parser::Parser;
pub use readers::Readers;
