//! Labels round a place.

use esb_token::Token;

/// A label of a statement round a place (ECMA-262, 13.13).
#[derive(Clone, Copy)]
pub struct Label {
    pub name: Token,
    /// It is that of a loop, so `continue` may name it.
    pub is_loop: bool,
}
