// Bytes that grow.
ghost use Rattle.std.specs.Prelude.{◌≡◌, []};
ghost use Rattle.qg_script.specs.Added.{Adds};

use qg_num::NoMemory;
use std::alloc::Global;
use std::marker::Model;

/// The bytes of replies (this project's own). A contract sees them.
#[derive(Drop)]
pub struct Text {
    bytes: Vec<u8>,
}

impl Model for Text {
    ghost use Rattle.std.specs.Prelude.{List, ℕ};

    ghost Value = { List ℕ };

    ghost view = { λ text. text.bytes.items };
}

impl Text {
    /// The empty text, which takes no memory yet.
    pub fn new(alloc: Global) -> Text
        ensures { result ≡ [] }
    {
        Text {
            bytes: Vec::new(alloc),
        }
    }

    /// Its bytes.
    pub fn as_slice(&self) -> &[u8]
        ensures { result.now ≡ self.now }
    {
        &self.bytes
    }

    /// Takes out all bytes. What memory they had serves for those to come.
    pub fn clear(&mut self)
        ensures { self.new ≡ [] }
    {
        self.bytes.clear();
    }

    /// Adds a piece at the end, and nothing where memory is refused.
    pub(crate) fn add(&mut self, piece: &[u8]) -> Result<(), NoMemory>
        ensures { Adds result self.old self.new piece.now }
    {
        self.bytes.extend_from_slice(piece)?;
        Ok(())
    }
}
