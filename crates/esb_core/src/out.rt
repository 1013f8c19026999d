ghost use Rattle.std.specs.Prelude.{◌≡◌, IfOk};

use esb_base::{Memory, Text};

/// What is owed to the client.
#[derive(Drop)]
pub enum Out {
    /// The reply to the request with this id.
    Reply { id: u32, body: Body },
}

/// What a reply says.
#[derive(Drop)]
pub enum Body {
    /// Nothing but that the request was done.
    Empty,
    /// Why the request is refused.
    Error(Text),
    /// The outcome of a build.
    Result { build: u32 },
    /// Nothing but that a build is closed, for whose close the request waited.
    Closed { build: u32 },
}

impl Body {
    /// The same once more.
    pub fn share(&self) -> Result<Body, Memory>
        ensures { IfOk result (λ body. body ≡ self.now) }
    {
        match self {
            Body::Empty => Ok(Body::Empty),
            Body::Error(text) => Ok(Body::Error(text.share()?)),
            Body::Result { build } => Ok(Body::Result { build: *build }),
            Body::Closed { build } => Ok(Body::Closed { build: *build }),
        }
    }
}
