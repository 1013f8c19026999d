ghost use Rattle.std.specs.Prelude.{◌≡◌, IfOk};
ghost use Rattle.esb_scan.specs.Paths.{below};

use esb_base::{Memory, Text};
use std::alloc::Global;

/// The path of a name in a folder.
pub fn below(alloc: Global, folder: &Text, name: &Text) -> Result<Text, Memory>
    ensures { IfOk result (λ path. path ≡ below folder.now name.now) }
{
    let folder = folder.as_str();
    let name = name.as_str();
    let path = format!(in alloc; "{folder}/{name}")?;
    Text::of(alloc, path.as_str())
}
