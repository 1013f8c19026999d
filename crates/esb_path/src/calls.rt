ghost use Rattle.std.specs.Prelude.{◌≡◌, ◌==◌, IfOk, slice_index};
ghost use Rattle.esb_path.specs.Segments.{slash};
ghost use Rattle.esb_path.specs.Paths.{clean_path, joined_path, parent_path, relative_path};

use crate::names::{absolute, joined, names_of, walk, way};
use esb_base::{Memory, Text};
use std::alloc::Global;

/// The clean form of a path, which is read as standing below `/`: empty segments and `.` are left
/// out, and `..` goes one step up, at most to `/`.
#[tactic(auto, unfolding(crate::specs::Paths::clean_path))]
pub fn clean(alloc: Global, path: &str) -> Result<Text, Memory>
    ensures { IfOk result (λ text. text ≡ clean_path path.now) }
{
    let names = names_of(alloc, path)?;
    absolute(alloc, names.as_slice(), path.len().saturating_add(1))
}

fn is_absolute(path: &str) -> bool
    ensures { result ≡ (slice_index path.now 0 == slash) }
{
    path.starts_with('/')
}

/// The clean form of `rest` as it is seen from the folder. An absolute `rest` disregards the folder.
pub fn join(alloc: Global, folder: &str, rest: &str) -> Result<Text, Memory>
    ensures { IfOk result (λ text. text ≡ joined_path folder.now rest.now) }
{
    if is_absolute(rest) {
        return clean(alloc, rest);
    }
    let mut names = names_of(alloc, folder)?;
    walk(&mut names, rest)?;
    let room = folder.len().saturating_add(rest.len()).saturating_add(2);
    absolute(alloc, names.as_slice(), room)
}

/// The folder of a path: its clean form without the last name. The folder of `/` is `/`.
#[tactic(auto, unfolding(crate::specs::Paths::parent_path))]
pub fn parent(alloc: Global, path: &str) -> Result<Text, Memory>
    ensures { IfOk result (λ text. text ≡ parent_path path.now) }
{
    let mut names = names_of(alloc, path)?;
    let _last = names.pop();
    absolute(alloc, names.as_slice(), path.len().saturating_add(1))
}

/// The shortest way from the folder to the path: `..` for each name to leave, then each name to
/// enter, with no leading `./`. It is empty where both are the same.
#[tactic(auto, unfolding(crate::specs::Paths::relative_path))]
pub fn relative(alloc: Global, folder: &str, path: &str) -> Result<Text, Memory>
    ensures { IfOk result (λ text. text ≡ relative_path folder.now path.now) }
{
    let from = names_of(alloc, folder)?;
    let to = names_of(alloc, path)?;
    let steps = way(alloc, from.as_slice(), to.as_slice())?;
    let room = path.len().saturating_add(from.len().saturating_mul(3));
    joined(alloc, steps.as_slice(), room)
}
