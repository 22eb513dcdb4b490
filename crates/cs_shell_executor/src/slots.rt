//! The slots of a script: bytes with names.
ghost use Rattle.std.specs.Prelude.{◌≡◌, OnOk, OnErr, None, Some, MatchResult};
ghost use Rattle.std.specs.FinMap as map;
ghost use Rattle.cs_shell_replies.specs.declared.refusal.Refusal.TheVariants.{EmptySlot};

use cs_shell_replies::Refusal;
use cs_value::NoMemory;
use std::alloc::Global;
use std::collections::BTreeMap;
use std::marker::Model;

/// Bytes with names. Contracts see a map from the bytes of each name.
#[derive(Drop)]
pub struct Slots {
    slots: BTreeMap<Vec<u8>, Vec<u8>>,
}

impl Model for Slots {
    ghost use Rattle.std.specs.Prelude.{List, ℕ, map as map_list};
    ghost use Rattle.std.specs.Ordering.{nat_cmp};
    ghost use Rattle.std.specs.Cmp.Lexicographic.{slice_cmp};
    ghost use Rattle.std.specs.Coded.{coded_ℕ, coded_list};
    ghost use Rattle.std.specs.FinMap as map;

    ghost Value = { map.FinMap (slice_cmp nat_cmp) (List ℕ) };

    ghost coded = { map.code (coded_list coded_ℕ) (coded_list coded_ℕ) };

    ghost view = { λ s. map.from_entries (map_list (λ e. (e.0.items, e.1.items)) s.slots.entries) };
}

impl Slots {
    /// Returns slots, none of them filled.
    pub(crate) fn new(alloc: Global) -> Slots
        ensures { result ≡ map.empty }
    {
        Slots {
            slots: BTreeMap::new(alloc),
        }
    }

    /// Returns the bytes of a slot. Fails if the slot is not filled.
    pub(crate) fn get(&self, name: &[u8]) -> Result<&[u8], Refusal>
        ensures { MatchResult result (λ bytes. map.get self.now name.now ≡ Some bytes.now)
            (λ refusal. (refusal ≡ EmptySlot) × (map.get self.now name.now ≡ None)) }
    {
        match self.slots.get(name) {
            Some(bytes) => Ok(bytes.as_slice()),
            None => Err(Refusal::EmptySlot),
        }
    }

    /// Fills a slot, and replaces its bytes. An error changes nothing.
    pub(crate) fn insert(
        &mut self,
        alloc: Global,
        name: &[u8],
        bytes: Vec<u8>,
    ) -> Result<(), NoMemory>
        ensures ok { OnOk result (self.new ≡ map.insert self.old name.now bytes.items) }
        ensures err { OnErr result (self.new ≡ self.old) }
    {
        self.slots.insert(Vec::from_slice(alloc, name)?, bytes)?;
        Ok(())
    }
}
