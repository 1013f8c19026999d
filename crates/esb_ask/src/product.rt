ghost use Rattle.std.specs.Prelude.{◌≡◌, IfOk};

use crate::message::Message;
use esb_base::{Blob, FileName, Memory};

/// Where an entry or an import leads.
#[derive(Drop)]
pub enum Resolved {
    /// To a file. It is marked where its package says that it has no side effects.
    To { name: FileName, marked: bool },
    /// Out of the bundle.
    External,
    /// Nowhere, without a message.
    Left,
    Refused(Message),
}

/// What the loading of a file gave.
#[derive(Drop)]
pub enum Loaded {
    /// Contents that go to the output unchanged.
    Copied(Blob),
    Refused(Message),
}

/// What a task gave.
#[derive(Drop)]
pub enum Product {
    /// Of a task that finds an entry's file.
    Entry(Resolved),
    /// Of a task that loads a file.
    Load(Loaded),
}

impl Resolved {
    /// The same once more.
    pub fn share(&self) -> Result<Resolved, Memory>
        ensures { IfOk result (λ resolved. resolved ≡ self.now) }
    {
        match self {
            Resolved::To { name, marked } => Ok(Resolved::To {
                name: name.share()?,
                marked: *marked,
            }),
            Resolved::External => Ok(Resolved::External),
            Resolved::Left => Ok(Resolved::Left),
            Resolved::Refused(message) => Ok(Resolved::Refused(message.share()?)),
        }
    }
}

impl Loaded {
    /// The same once more.
    pub fn share(&self) -> Result<Loaded, Memory>
        ensures { IfOk result (λ loaded. loaded ≡ self.now) }
    {
        match self {
            Loaded::Copied(contents) => Ok(Loaded::Copied(contents.share()?)),
            Loaded::Refused(message) => Ok(Loaded::Refused(message.share()?)),
        }
    }
}

impl Product {
    /// The same once more.
    pub fn share(&self) -> Result<Product, Memory>
        ensures { IfOk result (λ product. product ≡ self.now) }
    {
        match self {
            Product::Entry(resolved) => Ok(Product::Entry(resolved.share()?)),
            Product::Load(loaded) => Ok(Product::Load(loaded.share()?)),
        }
    }
}
