//! Tokens that are put together one after another.

ghost use Rattle.std.specs.Prelude.{◌≡◌, [], ◌∷◌, false, IfOk};
ghost use Rattle.esb_tree.specs.Gathered.{Adds};
ghost use Rattle.esb_tree.specs.Trees.{completed};
ghost use Rattle.esb_tree.specs.Yields.{maybe_token};

use esb_base::{List, Memory};
use esb_token::{Kind, Token};
use std::alloc::Global;

/// The tokens so far. Once memory was refused, none is added, and `finish` says so: the code that adds them needs no `?`.
#[derive(Drop)]
pub struct Gathered {
    pub tokens: List<Token>,
    pub refused: bool,
}

/// None so far.
pub fn begin(alloc: Global) -> Gathered
    ensures tokens { result.tokens ≡ [] }
    ensures refused { result.refused ≡ false }
{
    Gathered {
        tokens: List::new(alloc),
        refused: false,
    }
}

/// What was gathered.
pub fn finish(gathered: Gathered) -> Result<List<Token>, Memory>
    ensures { IfOk result (λ tokens. (gathered.refused ≡ false) × (tokens ≡ gathered.tokens)) }
{
    if gathered.refused {
        return Err(Memory);
    }
    Ok(gathered.tokens)
}

#[tactic(auto, unfolding(crate::specs::Gathered::Adds))]
pub fn put(token: Token, out: &mut Gathered)
    ensures { Adds (token ∷ []) out.old out.new }
{
    if out.refused {
        return;
    }
    if out.tokens.push(token).is_err() {
        out.refused = true;
    }
}

#[tactic(auto, using(crate::proofs::Adding::adds_none))]
pub fn put_maybe(token: Option<Token>, out: &mut Gathered)
    ensures { Adds (maybe_token token) out.old out.new }
{
    match token {
        Some(token) => put(token, out),
        None => {}
    }
}

/// Puts the semicolon, or for one that was left out a token that no bytes spell.
pub fn put_end(semicolon: Option<Token>, out: &mut Gathered)
    ensures { Adds (completed semicolon) out.old out.new }
{
    match semicolon {
        Some(semicolon) => put(semicolon, out),
        None => put(
            Token {
                kind: Kind::Semicolon,
                start: 0,
                end: 0,
                after_line: false,
            },
            out,
        ),
    }
}
