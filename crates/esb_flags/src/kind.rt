/// Which flag a word is.
#[derive(Clone, Copy, Debug, PartialEq, Eq)]
pub(crate) enum Kind {
    Outdir,
    Outfile,
    Splitting,
    Bundle,
    LogLevel,
    LogLimit,
    Color,
    Format,
    Loader,
    External,
    Conditions,
    EntryNames,
    ChunkNames,
}
