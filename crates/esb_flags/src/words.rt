//! Words, their fronts and their backs.

ghost use Rattle.std.specs.Prelude.{◌≡◌};
ghost use Rattle.std.specs.Option.{option_copied};
ghost use Rattle.esb_flags.specs.Words.{is_word, if_word, behind, before};

fn is_word(chars: &str) -> bool
    ensures { result ≡ is_word chars.now }
{
    let bytes = chars.as_bytes();
    !bytes.is_empty() && !bytes.contains(&b'.') && !bytes.contains(&b'/')
}

/// A word that is not empty and has no dot and no slash.
pub(crate) fn if_word(chars: &str) -> Option<&str>
    ensures { option_copied result ≡ if_word chars.now }
{
    if is_word(chars) { Some(chars) } else { None }
}

/// What stands behind the front.
pub(crate) fn behind<'a>(front: &str, chars: &'a str) -> Option<&'a str>
    ensures { option_copied result ≡ behind front.now chars.now }
{
    chars.strip_prefix(front)
}

/// What stands before the back.
pub(crate) fn before<'a>(back: &str, chars: &'a str) -> Option<&'a str>
    ensures { option_copied result ≡ before back.now chars.now }
{
    chars.strip_suffix(back)
}
