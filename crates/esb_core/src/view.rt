use esb_ask::{Failures, Outcome};
use esb_base::Shared;
use esb_flags::Options;

/// What can be seen of a build.
#[derive(Drop)]
pub struct View {
    /// The context's key.
    pub key: u32,
    /// What the context was made with.
    pub options: Shared<Options>,
    /// How it ended, once it is settled.
    pub outcome: Option<Outcome>,
    /// Which of its files were not put, once the others were.
    pub failed: Option<Failures>,
}
