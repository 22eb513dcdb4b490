//! The first images of a table: the row of each written key before its first write.
ghost use Rattle.std.specs.Prelude.{◌≡◌, ◌==◌, [], ◌++◌, length, is_some, false, OnErr, OnOk};
ghost use Rattle.cs_session_notes.specs.FirstImages.{first_at};
ghost use Rattle.cs_session_notes.specs.Images.{with_first};

use cs_value::{Key, NoMemory, Row};
use indexmap::IndexMap;
use indexmap::map::Iter;
use std::alloc::Global;
use std::marker::Model;

/// The keys of a table that were written, each once, in the order of the first write, and the row that
/// was under each first, or none. Those of the last call can be cut off.
#[derive(Debug, Drop)]
pub struct FirstImages {
    firsts: IndexMap<Key, Option<Row>>,
    // How many there were before the last call.
    kept: usize,
}

impl Model for FirstImages {
    ghost use Rattle.std.specs.Prelude.{◌≤◌, map, take, drop, length};
    ghost use Rattle.cs_session_notes.specs.FirstImages.{NotedImages};
    ghost use Rattle.cs_session_notes.specs.Images.{first_of};

    ghost Value = { NotedImages };

    ghost view = { λ f. record {
      kept = take f.kept (map first_of f.firsts.entries);
      pending = drop f.kept (map first_of f.firsts.entries);
    } };

    ghost invariant = { λ f. f.kept ≤ length f.firsts.entries };
}

impl FirstImages {
    ghost use Rattle.std.specs.Prelude.{map};
    ghost use Rattle.cs_session_notes.specs.Images.{first_of};

    /// No key was written.
    pub fn new(alloc: Global) -> FirstImages
        ensures { result ≡ record { kept = []; pending = [] } }
    {
        FirstImages {
            firsts: IndexMap::new(alloc),
            kept: 0,
        }
    }

    /// The keys, each with its row, and with those of the last call.
    pub fn iter(&self) -> Iter<'_, Key, Option<Row>>
        ensures { map first_of result ≡ self.now.kept ++ self.now.pending }
    {
        self.firsts.iter()
    }

    /// Whether no key was written.
    pub fn is_empty(&self) -> bool
        ensures { result ≡ (length (self.now.kept ++ self.now.pending) == 0) }
    {
        self.firsts.is_empty()
    }

    /// Whether the key was written.
    pub fn has_key(&self, key: &Key) -> bool
        ensures { result ≡ is_some (first_at (self.now.kept ++ self.now.pending) key.now) }
    {
        self.firsts.contains_key(key)
    }

    /// Notes a key that was not written before. [`NoMemory`] changes nothing.
    pub fn note(&mut self, key: Key, row: Option<Row>) -> Result<(), NoMemory>
        requires { is_some (first_at (self.old.kept ++ self.old.pending) key) ≡ false }
        ensures noted { OnOk result (self.new.kept ++ self.new.pending
            ≡ with_first (self.old.kept ++ self.old.pending) key row) }
        ensures kept { self.new.kept ≡ self.old.kept }
        ensures same { OnErr result (self.new ≡ self.old) }
    {
        self.firsts.insert(key, row)?;
        Ok(())
    }

    /// Keeps the keys that the last call noted.
    pub fn keep(&mut self)
        ensures { self.new ≡ record { kept = self.old.kept ++ self.old.pending; pending = [] } }
    {
        self.kept = self.firsts.len();
    }

    /// Forgets the keys that the last call noted.
    pub fn cut_back(&mut self)
        ensures { self.new ≡ record { kept = self.old.kept; pending = [] } }
    {
        self.firsts.truncate(self.kept);
    }
}
