//! Members, calls, `new` and optional chains, from left to right (ECMA-262, 12.3). What reads the nodes in them is handed in,
//! so that each production is proved by itself. Each function gives what the reader of its production gives, of which the laws
//! say that it reads exactly the nodes that stand in the text.
#![tactic(auto)]

mod accesses;
mod chains;
mod kinds;
mod left;
mod links;
mod parts;
mod shapes;
mod words;

pub use accesses::Accesses;
pub use parts::Parts;
