use crate::options::Plugin;
use esb_base::{List, Text};

/// The fields of a `build` request.
#[derive(Drop)]
pub(crate) struct Fields {
    pub(crate) key: u32,
    pub(crate) entries: List<(Text, Text)>,
    pub(crate) flags: List<Text>,
    pub(crate) cwd: Text,
    pub(crate) write: bool,
    pub(crate) context: bool,
    pub(crate) plugins: List<Plugin>,
}
