ghost use Rattle.std.specs.Prelude.{◌≡◌, ◌≤◌, length};
ghost use Rattle.esb_msgs.specs.Lines.{told, line_of, column_of};

/// The number, or the greatest `u32` where it is above that.
pub(crate) fn told(number: usize) -> u32
    ensures { result ≡ told number }
{
    u32::try_from(number).unwrap_or(u32::MAX)
}

/// The line and the column of the byte at an offset, which may also be the end of the contents.
/// Lines end with a line feed and are counted from 1, columns are counted in bytes from 0. Each is
/// told as the greatest `u32` where it is above that. It reads the bytes up to the offset: for many
/// places of one text use [`Places`](crate::Places).
pub fn place_of(contents: &[u8], offset: usize) -> (u32, u32)
    requires { offset ≤ length contents.now }
    ensures line { result.0 ≡ told (line_of contents.now offset) }
    ensures column { result.1 ≡ told (column_of contents.now offset) }
{
    let before = &contents[..offset];
    let mut line = 1;
    let mut start = 0;
    for (at, byte) in before.iter().enumerate() {
        if *byte == b'\n' {
            line += 1;
            start = at + 1;
        }
    }
    (told(line), told(offset - start))
}
