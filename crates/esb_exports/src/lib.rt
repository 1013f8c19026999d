//! Node's targets of packages: what a package's `exports` and `imports` lead to, by the rules that
//! Node.js 20 documents ("Modules: ECMAScript modules", "Resolution Algorithm Specification").
#![tactic(auto)]

mod choice;
mod fault;
mod laws;
mod outcome;
mod segments;
mod target;
mod units;

pub use fault::TargetFault;
pub use laws::{chosen_keys, exported_files, matches};
pub use outcome::Target;
pub use target::{exports_of, imports_of};

#[cfg(test)]
mod tests;
