//! An index of texts by their hashes.
ghost use Rattle.std.specs.Prelude.{◌≡◌, OnOk, OnErr};
ghost use Rattle.std.specs.Cow.{cow_slice_items};
ghost use Rattle.std.specs.FinMap as map;

use cs_value::NoMemory;
use indexmap::IndexMap;
use std::alloc::Global;
use std::borrow::CowSlice;
use std::marker::Model;

/// The indices of distinct texts, which are lists of bytes. Contracts see the map from text to index. A look-up takes
/// time proportional to the length of the text, unless the texts were chosen to have the same hash.
#[derive(Debug, Drop)]
pub(crate) struct HashedIndices<'a> {
    indices: IndexMap<CowSlice<'a, u8>, usize>,
}

impl<'a> Model for HashedIndices<'a> {
    ghost use Rattle.std.specs.Prelude.{ℕ, map as map_list};
    ghost use Rattle.std.specs.Coded.{coded_ℕ, coded_list};
    ghost use Rattle.std.specs.Cow.{cow_slice_items};
    ghost use Rattle.std.specs.FinMap as map;
    ghost use Rattle.cs_value.specs.Maps.{ByBytes};

    ghost Value = { ByBytes ℕ };

    ghost coded = { map.code (coded_list coded_ℕ) coded_ℕ };

    ghost view = { λ p. map.from_entries (map_list (λ e. (cow_slice_items e.0, e.1)) p.indices.entries) };
}

impl<'a> HashedIndices<'a> {
    /// Returns an empty index.
    pub(crate) fn new(alloc: Global) -> HashedIndices<'a>
        ensures { result ≡ map.empty }
    {
        HashedIndices {
            indices: IndexMap::new(alloc),
        }
    }

    /// Returns the index of a text.
    pub(crate) fn get(&self, text: &[u8]) -> Option<usize>
        ensures { result ≡ map.get self.now text.now }
    {
        self.indices.get(text).copied()
    }

    /// Sets the index of a text. [`NoMemory`] leaves the index unchanged.
    pub(crate) fn insert(&mut self, text: CowSlice<'a, u8>, index: usize) -> Result<(), NoMemory>
        ensures ok { OnOk result (self.new ≡ map.insert self.old (cow_slice_items text.entry) index) }
        ensures err { OnErr result (self.new ≡ self.old) }
    {
        self.indices.insert(text, index)?;
        Ok(())
    }
}
