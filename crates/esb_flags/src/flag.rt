//! One flag: its front says which it is, and what stands behind the front is its value.

ghost use Rattle.std.specs.Prelude.{◌≡◌};
ghost use Rattle.std.specs.List.{list_all};
ghost use Rattle.std.specs.Option.{option_copied, option_map, is_some, IfSome};
ghost use Rattle.esb_flags.specs.Flags.{front, is_given, listed, ending, assigned, is_chunk_mark, is_entry_mark, behind_brackets, fits, valued, output_flag, idle_flag, input_flag, flag_of, unassigned, shared, once, loader_of};

use crate::kind::Kind;
use crate::words::{before, behind, if_word};
use esb_base::Loader;

/// What a word of the kind begins with.
pub(crate) fn front(kind: Kind) -> &'static str
    ensures { result.now ≡ front kind }
{
    match kind {
        Kind::Outdir => "--outdir=",
        Kind::Outfile => "--outfile=",
        Kind::Splitting => "--splitting",
        Kind::Bundle => "--bundle",
        Kind::LogLevel => "--log-level=",
        Kind::LogLimit => "--log-limit=",
        Kind::Color => "--color=",
        Kind::Format => "--format=",
        Kind::Loader => "--loader:.",
        Kind::External => "--external:",
        Kind::Conditions => "--conditions=",
        Kind::EntryNames => "--entry-names=",
        Kind::ChunkNames => "--chunk-names=",
    }
}

#[tactic(auto, unfolding(crate::specs::Flags::ending))]
fn ending<'a>(name: &str, loader: Loader, value: &'a str) -> Option<(&'a str, Loader)>
    ensures { option_map (λ found. (found.0.now, found.1)) result ≡ ending name.now loader value.now }
{
    let extension = if_word(before(name, value)?)?;
    Some((extension, loader))
}

#[tactic(auto, unfolding(crate::specs::Flags::assigned))]
fn assigned(value: &str) -> Option<(&str, Loader)>
    ensures { option_map (λ found. (found.0.now, found.1)) result ≡ assigned value.now }
{
    ending("=js", Loader::Js, value)
        .or(ending("=json", Loader::Json, value))
        .or(ending("=text", Loader::Txt, value))
        .or(ending("=copy", Loader::Copy, value))
        .or(ending("=empty", Loader::Empty, value))
}

/// The extension and the loader of a word that is a loader flag.
#[tactic(auto, unfolding(crate::specs::Flags::loader_of))]
pub(crate) fn loader_of(word: &str) -> Option<(&str, Loader)>
    ensures { option_map (λ found. (found.0.now, found.1)) result ≡ loader_of word.now }
{
    assigned(behind(front(Kind::Loader), word)?)
}

fn is_given(value: &str) -> bool
    ensures { result ≡ is_given value.now }
{
    !value.is_empty()
}

fn are_given(value: &str) -> bool
    ensures { result ≡ list_all is_given (listed value.now) }
{
    value.split(',').all(|part| is_given(part))
}

fn is_chunk_mark(rest: &str) -> bool
    ensures { result ≡ is_chunk_mark rest.now }
{
    rest.starts_with("name]") || rest.starts_with("hash]")
}

fn is_entry_mark(rest: &str) -> bool
    ensures { result ≡ is_entry_mark rest.now }
{
    rest.starts_with("dir]") || rest.starts_with("name]") || rest.starts_with("hash]")
}

fn has_chunk_marks(value: &str) -> bool
    ensures { result ≡ list_all is_chunk_mark (behind_brackets value.now) }
{
    value.split('[').skip(1).all(|rest| is_chunk_mark(rest))
}

fn has_entry_marks(value: &str) -> bool
    ensures { result ≡ list_all is_entry_mark (behind_brackets value.now) }
{
    value.split('[').skip(1).all(|rest| is_entry_mark(rest))
}

fn fits(kind: Kind, value: &str) -> bool
    ensures { result ≡ fits kind value.now }
{
    match kind {
        Kind::Outdir | Kind::Outfile => true,
        Kind::LogLevel | Kind::LogLimit | Kind::Color => true,
        Kind::Splitting | Kind::Bundle => value == "",
        Kind::Format => value == "esm",
        Kind::Loader => assigned(value).is_some(),
        Kind::External => is_given(value),
        Kind::Conditions => are_given(value),
        Kind::EntryNames => is_given(value) && has_entry_marks(value),
        Kind::ChunkNames => is_given(value) && has_chunk_marks(value),
    }
}

#[tactic(auto, unfolding(crate::specs::Flags::valued))]
fn valued(kind: Kind, word: &str) -> Option<(Kind, &str)>
    ensures { option_map (λ flag. (flag.0, flag.1.now)) result ≡ valued kind word.now }
{
    let value = behind(front(kind), word)?;
    if fits(kind, value) {
        Some((kind, value))
    } else {
        None
    }
}

/// A flag that says where the outputs go.
#[tactic(auto, unfolding(crate::specs::Flags::output_flag))]
fn output_flag(word: &str) -> Option<(Kind, &str)>
    ensures { option_map (λ flag. (flag.0, flag.1.now)) result ≡ output_flag word.now }
{
    valued(Kind::Outdir, word)
        .or(valued(Kind::Outfile, word))
        .or(valued(Kind::Splitting, word))
        .or(valued(Kind::EntryNames, word))
        .or(valued(Kind::ChunkNames, word))
}

/// A flag that has no effect.
#[tactic(auto, unfolding(crate::specs::Flags::idle_flag))]
fn idle_flag(word: &str) -> Option<(Kind, &str)>
    ensures { option_map (λ flag. (flag.0, flag.1.now)) result ≡ idle_flag word.now }
{
    valued(Kind::Bundle, word)
        .or(valued(Kind::LogLevel, word))
        .or(valued(Kind::LogLimit, word))
        .or(valued(Kind::Color, word))
        .or(valued(Kind::Format, word))
}

/// A flag of the files that are read.
#[tactic(auto, unfolding(crate::specs::Flags::input_flag))]
fn input_flag(word: &str) -> Option<(Kind, &str)>
    ensures { option_map (λ flag. (flag.0, flag.1.now)) result ≡ input_flag word.now }
{
    valued(Kind::Loader, word)
        .or(valued(Kind::External, word))
        .or(valued(Kind::Conditions, word))
}

#[tactic(auto, unfolding(crate::specs::Flags::flag_of))]
fn flag_of(word: &str) -> Option<(Kind, &str)>
    ensures { option_map (λ flag. (flag.0, flag.1.now)) result ≡ flag_of word.now }
{
    output_flag(word).or(idle_flag(word)).or(input_flag(word))
}

#[tactic(auto, unfolding(crate::specs::Flags::unassigned))]
fn unassigned(word: &str) -> Option<&str>
    ensures { option_copied result ≡ unassigned word.now }
{
    before("=js", word)
        .or(before("=json", word))
        .or(before("=text", word))
        .or(before("=copy", word))
        .or(before("=empty", word))
}

fn shared(kind: Kind, word: &str) -> Option<&str>
    ensures { option_copied result ≡ shared kind word.now }
{
    match kind {
        Kind::Outfile => Some(front(Kind::Outdir)),
        Kind::Loader => unassigned(word),
        Kind::External => None,
        _ => Some(front(kind)),
    }
}

/// The text that a flag shares with no other, or none where it may stand any number of times. No answer: the word is no flag.
#[tactic(auto, unfolding(crate::specs::Flags::once))]
pub(crate) fn once(word: &str) -> Option<Option<&str>>
    ensures flag { is_some result ≡ is_some (flag_of word.now) }
    ensures once { IfSome result (λ shared. option_copied shared ≡ once word.now) }
{
    let (kind, _value) = flag_of(word)?;
    Some(shared(kind, word))
}
