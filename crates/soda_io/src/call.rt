// A name, and an entry of the journal of calls.
ghost use Rattle.std.specs.Prelude.{◌≡◌};

use std::marker::Model;

/// A list of bytes.
#[derive(Drop)]
pub struct Name {
    text: Vec<u8>,
}

impl Model for Name {
    ghost use Rattle.std.specs.Prelude.{ℕ, List};

    ghost Value = { List ℕ };

    ghost view = { λ n. n.text.items };
}

impl Name {
    /// The name with these bytes.
    pub fn new(text: Vec<u8>) -> Name
        ensures { result ≡ text.items }
    {
        Name { text }
    }

    /// Its bytes.
    pub fn bytes(&self) -> &[u8]
        ensures { result.now ≡ self.now }
    {
        &self.text
    }
}

/// An entry of the journal: a call that answered `Ok` or `Failed`.
///
/// The last field is None exactly where it answered `Failed`.
#[derive(Drop)]
pub enum FileCall {
    /// A call of `open`.
    Open {
        /// The name that was asked for.
        name: Name,
        /// The id that was given.
        id: Option<u32>,
    },
    /// A call of `create`.
    Create {
        /// The name that was asked for.
        name: Name,
        /// The id that was given.
        id: Option<u32>,
    },
    /// A call of `read`.
    Read {
        /// The id that it read by.
        id: u32,
        /// The length of the buffer, in bytes.
        asked: u64,
        /// How many bytes it got: 0 at the end.
        got: Option<u64>,
    },
    /// A call of `write`.
    Write {
        /// The id that it wrote by.
        id: u32,
        /// How many bytes it was given.
        given: u64,
        /// How many of them were taken: at least one.
        taken: Option<u64>,
    },
}
