//! Runs of parts at the front of a text.

ghost use Rattle.std.specs.Prelude.{◌≡◌, ◌<◌, ◌≤◌, ℕ, Bool, List, length};
ghost use Rattle.esb_token.specs.Runs as runs;

use crate::bytes::after;

/// What may stand again and again, as the characters of a string.
pub trait Part {
    ghost part: { Self → List ℕ → ℕ };

    /// How many bytes the part at the front has, and 0 where none is there.
    fn length(&self, text: &[u8]) -> usize
        ensures value { result ≡ part self.now text.now }
        ensures within { result ≤ length text.now };
}

/// How many bytes the longest run of parts has.
pub fn run<P: Part>(part: &P, text: &[u8]) -> usize
    ensures value { result ≡ runs.run (P.part part.now) text.now }
    ensures within { result ≤ length text.now }
{
    let mut end = 0;
    while end < text.len() {
        let rest = after(text, end);
        let length = part.length(rest);
        if length == 0 {
            return end;
        }
        end += length;
    }
    end
}

/// How many bytes there are, and whether a line terminator is among them.
#[derive(Clone, Copy)]
pub struct Extent {
    pub length: usize,
    pub has_line: bool,
}

/// A part that tells as well whether it has a line terminator.
pub trait LinedPart {
    ghost part: { Self → List ℕ → ℕ };

    ghost line: { Self → List ℕ → Bool };

    fn extent(&self, text: &[u8]) -> Extent
        ensures value { result.length ≡ part self.now text.now }
        ensures within { result.length ≤ length text.now }
        ensures lined { 0 < result.length → result.has_line ≡ line self.now text.now };
}

pub fn run_lined<P: LinedPart>(part: &P, text: &[u8]) -> Extent
    ensures value { result.length ≡ runs.run (P.part part.now) text.now }
    ensures within { result.length ≤ length text.now }
    ensures lined { result.has_line ≡ runs.run_any (P.part part.now) (P.line part.now) text.now }
{
    let mut end = 0;
    let mut has_line = false;
    while end < text.len() {
        let rest = after(text, end);
        let next = part.extent(rest);
        if next.length == 0 {
            return Extent {
                length: end,
                has_line,
            };
        }
        end += next.length;
        has_line |= next.has_line;
    }
    Extent {
        length: end,
        has_line,
    }
}
