//! The indices of texts in a list.
ghost use Rattle.std.specs.Prelude.{◌≡◌, OnOk, OnErr};
ghost use Rattle.std.specs.FinMap as map;

use cs_value::NoMemory;
use std::alloc::Global;
use std::collections::BTreeMap;
use std::marker::Model;

/// The indices of distinct texts, which are lists of bytes. Contracts see the map from text to index. A look-up takes
/// time in proportion to the logarithm of the number of texts, for all texts.
#[derive(Debug, Drop)]
pub(crate) struct Indices {
    indices: BTreeMap<Vec<u8>, usize>,
}

impl Model for Indices {
    ghost use Rattle.std.specs.Prelude.{ℕ, map as map_list};
    ghost use Rattle.std.specs.Coded.{coded_ℕ, coded_list};
    ghost use Rattle.std.specs.FinMap as map;
    ghost use Rattle.cs_value.specs.Maps.{ByBytes};

    ghost Value = { ByBytes ℕ };

    ghost coded = { map.code (coded_list coded_ℕ) coded_ℕ };

    ghost view = { λ p. map.from_entries (map_list (λ e. (e.0.items, e.1)) p.indices.entries) };
}

impl Indices {
    /// Returns the indices of no texts.
    pub(crate) fn new(alloc: Global) -> Indices
        ensures { result ≡ map.empty }
    {
        Indices {
            indices: BTreeMap::new(alloc),
        }
    }

    /// Returns the index of a text.
    pub(crate) fn get(&self, text: &[u8]) -> Option<usize>
        ensures { result ≡ map.get self.now text.now }
    {
        self.indices.get(text).copied()
    }

    /// Sets the index of a text. [`NoMemory`] leaves the indices unchanged.
    pub(crate) fn insert(&mut self, text: Vec<u8>, index: usize) -> Result<(), NoMemory>
        ensures ok { OnOk result (self.new ≡ map.insert self.old text.items index) }
        ensures err { OnErr result (self.new ≡ self.old) }
    {
        self.indices.insert(text, index)?;
        Ok(())
    }
}
