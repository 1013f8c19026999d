ghost use Rattle.std.specs.Prelude.{◌≡◌, IfOk};

use crate::memory::Memory;
use crate::text::Text;

/// A file's name: a path in a namespace. The namespace of the files of the system is `file`.
#[derive(Drop, PartialEq, Eq, Hash)]
pub struct FileName {
    pub namespace: Text,
    /// In the namespace `file` a clean absolute path.
    pub path: Text,
}

impl FileName {
    /// One more holder of the same name.
    pub fn share(&self) -> Result<FileName, Memory>
        ensures { IfOk result (λ name. name ≡ self.now) }
    {
        let namespace = self.namespace.share()?;
        let path = self.path.share()?;
        Ok(FileName { namespace, path })
    }
}
