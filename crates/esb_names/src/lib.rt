//! Names by what they stand for: names of variables and labels, and of properties, which may be strings, also where they are
//! written with escapes (StringValue and PropName, ECMA-262, 11th edition, 11.6.1.2, 11.8.4.1 and 12.2.6.5).
#![tactic(auto)]

mod keys;
mod names;
mod points;
mod strings;

pub use keys::{inside, is_constructor, is_proto_in, is_text};
pub use names::{bytes_of, has_escape, is_same_name, is_spelled, points_of};
