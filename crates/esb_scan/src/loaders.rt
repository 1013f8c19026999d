//! Which loader reads a file.

ghost use Rattle.std.specs.Prelude.{◌≡◌};
ghost use Rattle.std.specs.Option.{option_copied};
ghost use Rattle.esb_scan.specs.Loaders.{last_segment, extension_of, given, default_loader, loader_of, stem_of};

use esb_base::{Flags, Loader, Text};

fn last_segment(path: &str) -> &str
    ensures { result.now ≡ last_segment path.now }
{
    match path.rsplit_once('/') {
        Some((_, last)) => last,
        None => path,
    }
}

fn extension_of(path: &str) -> Option<&str>
    ensures { option_copied result ≡ extension_of path.now }
{
    match last_segment(path).rsplit_once('.') {
        Some((stem, extension)) if !stem.is_empty() => Some(extension),
        _ => None,
    }
}

/// The path without its extension and its dot.
#[tactic(auto, unfolding(crate::specs::Loaders::stem_of))]
pub fn stem_of(path: &str) -> &str
    ensures { result.now ≡ stem_of path.now }
{
    match extension_of(path) {
        Some(_) => match path.rsplit_once('.') {
            Some((stem, _)) => stem,
            None => path,
        },
        None => path,
    }
}

/// The loader that a flag gives the extension. There are few flags, so it walks over them.
fn given(loaders: &[(Text, Loader)], extension: &str) -> Option<Loader>
    ensures { result ≡ given loaders.now extension.now }
{
    for pair in loaders {
        if pair.0.as_str() == extension {
            return Some(pair.1);
        }
    }
    None
}

fn default_loader(extension: &str) -> Option<Loader>
    ensures { result ≡ default_loader extension.now }
{
    match extension {
        "js" | "mjs" | "cjs" => Some(Loader::Js),
        "json" => Some(Loader::Json),
        "txt" => Some(Loader::Txt),
        _ => None,
    }
}

/// The loader of a path's extension: the one that a flag gives it, or else the default.
#[tactic(auto, unfolding(crate::specs::Loaders::loader_of))]
pub fn loader_of(flags: &Flags, path: &str) -> Option<Loader>
    ensures { result ≡ loader_of flags.now path.now }
{
    match extension_of(path) {
        Some(extension) => {
            given(flags.loaders.as_slice(), extension).or(default_loader(extension))
        }
        None => None,
    }
}
