//! The words of the command line.
ghost use Rattle.std.specs.Prelude.{◌≡◌, ◌<◌, ◌≤◌, ◌^◌, length, IfOk, IfErr, IfSome, Some, None};
ghost use Rattle.std.specs.Option.{option_copied};
ghost use Rattle.esb_top.specs.Words.{bad_place, first_text, handshake_place, if_short, serial_service, text_of};

use esb_base::Text;

/// The first word that is wrong or missing has this place, counted from 0.
#[derive(Clone, Copy, Debug, PartialEq, Eq)]
pub struct BadWord {
    pub place: u32,
}

/// What the words ask for.
#[derive(Clone, Copy, Debug, PartialEq, Eq)]
pub enum Words {
    /// The service.
    Service {
        /// Whether it works on one thread.
        serial: bool,
        /// The place of the word with the text that is sent first.
        handshake: Option<u32>,
        workers: u32,
        hosts: u32,
        doors: u32,
    },
}

/// The text that is sent first where no word tells another.
const VERSION: &[u8] = b"esb-profile-1";

/// The most bytes of the text of a handshake word: 2^28.
const MOST_BYTES: usize = 268_435_456;

fn if_short(text: &[u8]) -> Option<&[u8]>
    ensures text { option_copied result ≡ if_short text.now }
    ensures short { IfSome result (λ text. length text.now ≤ 2 ^ 28) }
{
    if text.len() <= MOST_BYTES {
        Some(text)
    } else {
        None
    }
}

/// The text of a handshake word.
#[tactic(auto, unfolding(crate::specs::Words::text_of))]
fn text_of(word: &Text) -> Option<&[u8]>
    ensures text { option_copied result ≡ text_of word.now }
    ensures short { IfSome result (λ text. length text.now ≤ 2 ^ 28) }
{
    if_short(word.as_bytes().strip_prefix(b"--handshake=")?)
}

/// The service on one thread.
fn serial_service(handshake: Option<u32>) -> Words
    ensures { result ≡ serial_service handshake }
{
    Words::Service {
        serial: true,
        handshake,
        workers: 1,
        hosts: 1,
        doors: 0,
    }
}

/// Reads the words: `service --serial`, and then at most one `--handshake=TEXT`. It takes no memory.
pub fn read_words(words: &[Text]) -> Result<Words, BadWord>
    ensures ok { IfOk result (λ read. (bad_place words.now ≡ None) × (read ≡ serial_service (handshake_place words.now))) }
    ensures err { IfErr result (λ bad. bad_place words.now ≡ Some bad.place) }
    ensures small { IfErr result (λ bad. bad.place < 4) }
{
    let place = match words {
        [first, second, rest @ ..]
            if first.as_str() == "service" && second.as_str() == "--serial" => match rest {
            [] => return Ok(serial_service(None)),
            [third, ..] if text_of(third).is_none() => 2,
            [_] => return Ok(serial_service(Some(2))),
            _ => 3,
        },
        [first, ..] if first.as_str() == "service" => 1,
        _ => 0,
    };
    Err(BadWord { place })
}

/// The text that is sent first.
pub(crate) fn first_text(words: &[Text]) -> &[u8]
    ensures text { result.now ≡ first_text words.now }
    ensures short { length result.now ≤ 2 ^ 28 }
{
    let told = match words {
        [_, _, word, ..] => text_of(word),
        _ => None,
    };
    told.unwrap_or(VERSION)
}
