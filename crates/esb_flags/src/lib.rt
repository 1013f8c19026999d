//! What a request asks for: commands, and the options of a build.
#![tactic(auto)]

mod command;
mod fault;
mod fields;
mod flag;
mod flags;
mod kind;
mod laws;
mod options;
mod reading;
mod refusal;
mod shapes;
mod unbuilt;
mod words;

pub use command::{Command, CommandFault};
pub use fault::FlagFault;
pub use flags::read_flags;
pub use laws::{accepted_builds, accepted_flags, said_commands, same_fields};
pub use options::{Filter, Options, Plugin};
pub use reading::read_command;
pub use refusal::refusal_of;

#[cfg(test)]
mod flag_tests;
#[cfg(test)]
mod tests;
