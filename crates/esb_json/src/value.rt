use esb_base::{List, Text};

/// A JSON value as a text writes it (RFC 8259, sections 3 to 7).
#[derive(Drop, PartialEq, Eq)]
pub enum Json {
    Null,
    Bool(bool),
    /// The number by its spelling, as `-0.50e+3`.
    Number(Text),
    /// The code units of UTF-16. A surrogate that has no partner stays as it is.
    Str(List<u16>),
    /// The elements in written order.
    Array(List<Json>),
    /// The members in written order, each name with its value. A name may stand more than once.
    Object(List<(List<u16>, Json)>),
}
