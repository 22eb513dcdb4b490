//! Keys, which identify the rows of a table.
ghost use Rattle.std.specs.Prelude.{◌≡◌, length, IfOk};
ghost use Rattle.cs_value.specs.Key.{row_key, image_key};
ghost use Rattle.cs_value.specs.Spelling.{row_bytes};

use crate::image::Image;
use crate::parts::{key_parts, parts_write};
use crate::refusal::NoMemory;
use crate::row::Row;
use crate::value::OwnedValue;
use std::alloc::Global;
use std::cmp::Ordering;
use std::hash::{Hash, Hasher};
use std::marker::Model;

/// The key of a row or an image: the bytes of its key columns, in column order. Contracts see these bytes, by which
/// keys are compared and ordered.
#[derive(Debug, Drop)]
pub struct Key {
    bytes: Vec<u8>,
}

impl Model for Key {
    ghost use Rattle.std.specs.Prelude.{List, ℕ};

    ghost Value = { List ℕ };

    ghost view = { λ k. k.bytes.items };
}

impl Key {
    /// Returns the key of a row. There is a flag for each column, and those other than 0 mark the key columns.
    pub fn of_row(alloc: Global, flags: &[u8], row: &Row) -> Result<Key, NoMemory>
        requires { length flags.now ≡ length row.now }
        ensures { IfOk result (λ key. key ≡ row_key flags.now row.now) }
    {
        Ok(Key {
            bytes: key_parts(alloc, flags, row.values())?,
        })
    }

    /// Returns the key of an image: the bytes of the fields in the key columns. The flags are as in [`Key::of_row`].
    pub fn of_image(alloc: Global, flags: &[u8], image: &Image) -> Result<Key, NoMemory>
        requires { length flags.now ≡ length image.now }
        ensures { IfOk result (λ key. key ≡ image_key flags.now image.now) }
    {
        Ok(Key {
            bytes: key_parts(alloc, flags, image.fields())?,
        })
    }

    /// Returns the key of these values, in column order. It accepts NULL and no values, but no row of a table has such
    /// a key.
    pub fn from_values(alloc: Global, values: &[OwnedValue]) -> Result<Key, NoMemory>
        ensures { IfOk result (λ key. key ≡ row_bytes values.now) }
    {
        let mut bytes = Vec::new(alloc);
        parts_write(&mut bytes, values)?;
        Ok(Key { bytes })
    }

    /// Returns the key with these bytes. They are meant to be those of its values, in column order, and are not tested.
    /// It allocates nothing.
    pub fn from_bytes(bytes: Vec<u8>) -> Key
        ensures { result ≡ bytes.items }
    {
        Key { bytes }
    }

    /// Returns the bytes of the values.
    pub fn bytes(&self) -> &[u8]
        ensures { result.now ≡ self.now }
    {
        &self.bytes
    }

    /// Returns a copy of the key.
    pub fn copy(&self, alloc: Global) -> Result<Key, NoMemory>
        ensures { IfOk result (λ x. x ≡ self.now) }
    {
        Ok(Key {
            bytes: Vec::from_slice(alloc, self.bytes())?,
        })
    }

    /// Returns the bytes. It allocates nothing.
    pub fn into_bytes(self) -> Vec<u8>
        ensures { result.items ≡ self }
    {
        let Key { bytes } = self;
        bytes
    }
}

impl PartialEq for Key {
    ghost use Rattle.std.specs.Prelude.{nat_eq};
    ghost use Rattle.std.specs.Cmp.{partial_equiv_from_equiv};
    ghost use Rattle.std.specs.Cmp.Lexicographic.{pointwise, nat_list_eq_equiv};

    ghost eq = { pointwise nat_eq };

    ghost laws = { partial_equiv_from_equiv nat_list_eq_equiv };

    fn eq(&self, other: &Key) -> bool {
        self.bytes == other.bytes
    }
}

impl Eq for Key {
    ghost use Rattle.std.specs.Cmp.Lexicographic.{nat_list_eq_equiv};

    ghost laws = { nat_list_eq_equiv };
}

impl Hash for Key {
    ghost use Rattle.std.proofs.Common.{rules};
    ghost use Rattle.std.specs.Hash as fed;
    ghost use Rattle.std.specs.Cmp.Rules.{hashing};

    ghost hash_input = { fed.slice fed.u8 };

    ghost respects_eq = { Prim.search (hashing, rules) };

    fn hash<H: Hasher>(&self, state: &mut H) {
        self.bytes.hash(state);
    }
}

impl PartialOrd for Key {
    ghost use Rattle.std.proofs.Common.{rules};
    ghost use Rattle.std.specs.Cmp.{partial_order_from_own_ties};
    ghost use Rattle.std.specs.Cmp.Rules.{comparing};
    ghost use Rattle.std.specs.Ordering.{nat_cmp, as_partial_cmp};
    ghost use Rattle.std.specs.Cmp.Lexicographic.{slice_cmp};

    ghost partial_cmp = { as_partial_cmp (slice_cmp nat_cmp) };

    ghost laws = { partial_order_from_own_ties (Prim.search (comparing, rules)) (Prim.search (comparing, rules)) };

    fn partial_cmp(&self, other: &Key) -> Option<Ordering> {
        Some(self.cmp(other))
    }
}

impl Ord for Key {
    ghost use Rattle.std.proofs.Common.{rules};
    ghost use Rattle.std.specs.Cmp.Rules.{comparing};
    ghost use Rattle.std.specs.Ordering.{nat_cmp};
    ghost use Rattle.std.specs.Cmp.Lexicographic.{slice_cmp};

    ghost cmp = { slice_cmp nat_cmp };

    ghost total = { Prim.search (comparing, rules) };

    ghost matches_partial_cmp = { Prim.search (comparing, rules) };

    ghost matches_eq = { Prim.search (comparing, rules) };

    fn cmp(&self, other: &Key) -> Ordering {
        self.bytes.cmp(&other.bytes)
    }
}
