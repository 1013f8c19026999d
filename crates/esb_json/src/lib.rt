//! JSON texts (RFC 8259, ECMA-404), read to a value that keeps what the text wrote.
#![tactic(auto)]

mod characters;
mod fault;
mod laws;
mod number;
mod reading;
mod skipping;
mod stop;
mod strings;
mod value;

pub use fault::JsonFault;
pub use laws::one_value;
pub use reading::read_json;
pub use value::Json;

#[cfg(test)]
mod tests;
