ghost use Rattle.std.specs.Prelude.{◌≡◌, ◌≢◌, ℕ, List, Option, Some, ◌≤◌, OnOk, OnErr, IsErrOf, IsOk};
ghost use Rattle.esb_base.specs.Faults.{Rose};
ghost use Rattle.esb_base.specs.World.{Folder, kind_told, read_told, KindIs, ReadIs, IsReadable};

use crate::blob::Blob;
use crate::text::Text;

/// What lies at a path.
#[derive(Clone, Copy, Debug, PartialEq, Eq)]
pub enum KindAnswer {
    File,
    /// Some file lies below the path.
    Folder,
    Missing,
    /// The look failed.
    Fault,
    Memory,
}

/// What a file has.
#[derive(Drop)]
pub enum ReadAnswer {
    /// The contents, of at most 16,777,216 bytes.
    Bytes(Blob),
    Missing,
    /// The file has more than 16,777,216 bytes.
    TooBig,
    /// The reading failed.
    Fault,
    Memory,
}

/// Why a file was not put.
#[derive(Clone, Copy, Debug, PartialEq, Eq)]
pub enum PutFault {
    Failed,
    Memory,
}

/// Where files are read and put. A host may tell a world: the folders that are read, one for each turn.
pub trait Host {
    /// Whether the world and the files that were put are told.
    ghost tells: { Type 0 };

    /// The folder of each turn. The last stands for all later turns. It means nothing where it is not told.
    ghost world: { Self → List Folder };

    /// The contents that were put at a path. It means nothing where it is not told.
    ghost put_at: { Self → List ℕ → Option (List ℕ) };

    /// How many faults `kind` and `read` had. It never falls.
    ghost faults: { Self → ℕ };

    /// How many faults `put` had. It never falls.
    ghost put_faults: { Self → ℕ };

    /// That no call will fail.
    ghost is_reliable: { Self → Type 0 };

    /// What lies at the path, in the folder of the turn.
    fn kind(&mut self, turn: u32, path: &Text) -> KindAnswer
        ensures told { tells → KindIs (kind_told (world self.old) turn path.now) result }
        ensures world { tells → world self.new ≡ world self.old }
        ensures put { tells → (q : List ℕ) → put_at self.new q ≡ put_at self.old q }
        ensures never_falls { faults self.old ≤ faults self.new }
        ensures put_never_falls { put_faults self.old ≤ put_faults self.new }
        ensures failed { result ≡ KindAnswer.Fault → Rose (faults self.old) (faults self.new) }
        ensures reliable { is_reliable self.old → is_reliable self.new × (faults self.new ≡ faults self.old) };

    /// The contents of the file at the path, in the folder of the turn.
    fn read(&mut self, turn: u32, path: &Text) -> ReadAnswer
        ensures told { tells → ReadIs (read_told (world self.old) turn path.now) result }
        ensures within { IsReadable result }
        ensures world { tells → world self.new ≡ world self.old }
        ensures put { tells → (q : List ℕ) → put_at self.new q ≡ put_at self.old q }
        ensures never_falls { faults self.old ≤ faults self.new }
        ensures put_never_falls { put_faults self.old ≤ put_faults self.new }
        ensures failed { result ≡ ReadAnswer.Fault → Rose (faults self.old) (faults self.new) }
        ensures reliable { is_reliable self.old → is_reliable self.new × (faults self.new ≡ faults self.old) };

    /// Sets the file at the path. Where it fails, the file may have any bytes.
    fn put(&mut self, path: &Text, bytes: &[u8]) -> Result<(), PutFault>
        ensures ok { tells → OnOk result (put_at self.new path.now ≡ Some bytes.now) }
        ensures others { tells → (q : List ℕ) → q ≢ path.now → put_at self.new q ≡ put_at self.old q }
        ensures world { tells → world self.new ≡ world self.old }
        ensures never_falls { faults self.old ≤ faults self.new }
        ensures put_never_falls { put_faults self.old ≤ put_faults self.new }
        ensures failed { IsErrOf result PutFault.Failed → Rose (put_faults self.old) (put_faults self.new) }
        ensures reliable { is_reliable self.old → is_reliable self.new × (put_faults self.new ≡ put_faults self.old) };
}
