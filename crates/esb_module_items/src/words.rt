//! Words that mean something in a place.

ghost use Rattle.std.specs.Prelude.{◌≡◌};
ghost use Rattle.esb_module_laws.specs.Marks as marks;

use esb_base::Text;
use esb_statement_tests::is_word;
use esb_token::Token;

/// `as` (ECMA-262, 15.2.2, 15.2.3).
pub(crate) fn is_as(text: &Text, token: Token) -> bool
    ensures { result ≡ marks.is_as text.now token }
{
    is_word(text, b"as", token)
}

/// `from` (ECMA-262, 15.2.2).
pub(crate) fn is_from(text: &Text, token: Token) -> bool
    ensures { result ≡ marks.is_from text.now token }
{
    is_word(text, b"from", token)
}
