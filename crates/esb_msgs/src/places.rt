ghost use Rattle.std.specs.Prelude.{◌≡◌, ◌<◌, ◌≤◌, length, IfOk};
ghost use Rattle.std.specs.List.Sorted.{IsNonDecreasing, IsPartitionPoint};
ghost use Rattle.esb_msgs.specs.Lines.{told, line_of, column_of};

use crate::place::told;
use esb_base::Memory;
use std::alloc::Global;
use std::marker::Model;

/// The places of a text, for many questions: where each line begins is found once. Contracts see
/// the text.
#[derive(Drop)]
pub struct Places<'a> {
    contents: &'a [u8],
    starts: Vec<usize>,
}

impl<'a> Model for Places<'a> {
    ghost use Rattle.std.specs.Prelude.{◌≡◌, ℕ, List};
    ghost use Rattle.esb_msgs.specs.Lines.{line_starts};

    ghost Value = { List ℕ };

    ghost view = { λ places. places.contents.now };

    ghost invariant = { λ places. places.starts.items ≡ line_starts places.contents.now };
}

/// How many of these offsets, which do not fall, are at most this one.
fn count_upto(starts: &[usize], offset: usize) -> usize
    requires { IsNonDecreasing starts.now }
    ensures within { result ≤ length starts.now }
    ensures parts { IsPartitionPoint (λ start. start ≤ offset) (λ start. offset < start) starts.now result }
{
    starts.partition_point(|start| *start <= offset)
}

impl<'a> Places<'a> {
    /// Finds where the lines begin, in one walk over the contents.
    pub fn of(alloc: Global, contents: &'a [u8]) -> Result<Places<'a>, Memory>
        ensures { IfOk result (λ places. places ≡ contents.now) }
    {
        let mut starts = Vec::new(alloc);
        starts.push(0)?;
        for (at, byte) in contents.iter().enumerate() {
            if *byte == b'\n' {
                starts.push(at + 1)?;
            }
        }
        Ok(Places { contents, starts })
    }

    /// What [`place_of`](crate::place_of) tells of the text, found by a binary search.
    pub fn place_of(&self, offset: usize) -> (u32, u32)
        requires { offset ≤ length self.now }
        ensures line { result.0 ≡ told (line_of self.now offset) }
        ensures column { result.1 ≡ told (column_of self.now offset) }
    {
        let line = count_upto(self.starts.as_slice(), offset);
        let start = self.starts[line - 1];
        (told(line), told(offset - start))
    }
}
