use crate::kind::Kind;

/// A token and the bytes of the contents that it stands on, from `start` up to `end`. `after_line` says that a line
/// terminator stands between it and the place from which it was read.
#[derive(Clone, Copy, Debug, PartialEq, Eq)]
pub struct Token {
    pub kind: Kind,
    pub start: usize,
    pub end: usize,
    pub after_line: bool,
}
