use crate::list::List;
use crate::text::Text;

/// How a file's contents are read.
#[derive(Clone, Copy, Debug, PartialEq, Eq)]
pub enum Loader {
    /// A script or module.
    Js,
    /// A JSON text, as a module that exports its value.
    Json,
    /// A text, as a module that exports it.
    Txt,
    /// The contents go to the output unchanged.
    Copy,
    /// The contents are read and left out.
    Empty,
}

/// What the flags of a build ask for.
#[derive(Drop)]
pub struct Flags {
    /// The folder of the outputs, as written.
    pub outdir: Option<Text>,
    /// The one output's path, as written.
    pub outfile: Option<Text>,
    /// Whether shared code goes into chunks of its own.
    pub splitting: bool,
    /// The loaders by extension, without the dot, beside those that hold with no flag.
    pub loaders: List<(Text, Loader)>,
    /// The specifiers that stay imports.
    pub externals: List<Text>,
    /// The added conditions of package targets.
    pub conditions: List<Text>,
    /// The template of the entries' output names.
    pub entry_names: Text,
    /// The template of the other chunks' output names.
    pub chunk_names: Text,
}
