//! Templates in their parts.

ghost use Rattle.std.specs.Prelude.{◌≡◌, ◌≤◌, length, IfSome};
ghost use Rattle.esb_token.specs.Templates as spec;
ghost use Rattle.esb_lex.specs.Pieces.{IsPiece};

use crate::bytes::{after, byte_at};
use crate::run::{Part, run};
use esb_token::Kind;

struct TemplatePiece;

impl Part for TemplatePiece {
    ghost part = { λ _ text. spec.template_piece text };

    #[tactic(auto, unfolding(esb_token::specs::Templates::template_piece))]
    fn length(&self, text: &[u8]) -> usize {
        match text {
            [] => 0,
            [b'`', ..] => 0,
            [b'$', rest @ ..] => usize::from(byte_at(rest, 0) != b'{'),
            [b'\\', rest @ ..] => { if rest.is_empty() { 0 } else { 2 } }
            _ => 1,
        }
    }
}

/// A part of a template, from its "`" or `}`: of the kind `closed` where a "`" ends it, of the kind `opened` where a `${`
/// does.
#[tactic(auto, unfolding(esb_token::specs::Templates::template))]
pub fn template(closed: Kind, opened: Kind, text: &[u8]) -> Option<(Kind, usize)>
    requires { 1 ≤ length text.now }
    ensures value { result ≡ spec.template closed opened text.now }
    ensures within { IfSome result (IsPiece text.now) }
{
    let body = run(&TemplatePiece, after(text, 1));
    if byte_at(text, 1 + body) == b'`' {
        return Some((closed, body + 2));
    }
    if byte_at(text, 1 + body) == b'$' && byte_at(text, 2 + body) == b'{' {
        return Some((opened, body + 3));
    }
    None
}
