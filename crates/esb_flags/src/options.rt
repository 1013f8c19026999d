use esb_base::{Flags, List, Text};

/// Which files or specifiers a plug-in is asked about: the namespace is equal, and the path or specifier ends with the suffix.
#[derive(Drop)]
pub struct Filter {
    /// The client's number of the callback.
    pub id: u32,
    /// Of the files or specifiers that are asked about.
    pub namespace: Text,
    /// With which their paths or specifiers end.
    pub suffix: Text,
}

/// A plug-in of a build.
#[derive(Drop)]
pub struct Plugin {
    /// By which requests and messages call it.
    pub name: Text,
    /// Which specifiers it is asked to resolve.
    pub on_resolve: List<Filter>,
    /// Which files it is asked to load.
    pub on_load: List<Filter>,
    /// Whether it is asked at the end of each build.
    pub on_end: bool,
}

/// What a `build` request asks for.
#[derive(Drop)]
pub struct Options {
    /// The working folder: a clean absolute path.
    pub cwd: Text,
    /// Each entry's output path without extension, or an empty text, and its path.
    pub entries: List<(Text, Text)>,
    /// Whether the files are put. Else the reply has their contents.
    pub write: bool,
    /// Whether the request makes a context. Else it begins a build at once.
    pub context: bool,
    /// In the order in which they are asked.
    pub plugins: List<Plugin>,
    /// What the flags say.
    pub flags: Flags,
}
