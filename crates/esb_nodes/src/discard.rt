//! What is let go.

ghost use Rattle.std.specs.Prelude.{◌≡◌, Ok, Err, IfOk, IfErr};

use esb_reader::Node;
use esb_token::Token;

/// What can be let go.
pub trait Discard: Sized {
    fn discard(self);
}

impl Discard for Token {
    fn discard(self) {}
}

impl Discard for Option<Token> {
    fn discard(self) {}
}

impl<A: Discard, B: Discard> Discard for (A, B) {
    fn discard(self) {
        let (first, second) = self;
        first.discard();
        second.discard();
    }
}

impl<T: Discard> Discard for Node<T> {
    fn discard(self) {
        self.tree.discard();
    }
}

/// What comes next, together with what was read before. Where there is nothing next, what was read is let go.
pub fn with<X: Discard, Y, E>(read: X, next: Result<Y, E>) -> Result<(X, Y), E>
    ensures read { IfOk result (λ both. both.0 ≡ read) }
    ensures next { IfOk result (λ both. next ≡ Ok both.1) }
    ensures err { IfErr result (λ error. next ≡ Err error) }
{
    match next {
        Ok(next) => Ok((read, next)),
        Err(error) => {
            read.discard();
            Err(error)
        }
    }
}
