//! The bytes of a blob.
ghost use Rattle.std.specs.Prelude.{◌≡◌, ◌≤◌, ℕ, List, length, vec_len, IfOk};
ghost use Rattle.cs_value.specs.declared.TheConstants.{MAX_CONTENT_LEN};

use crate::refusal::NoMemory;
use std::alloc::Global;
use std::marker::Model;

/// The bytes of a blob, at most [`MAX_CONTENT_LEN`](crate::MAX_CONTENT_LEN). Contracts see their list.
#[derive(Debug, Drop)]
pub struct Bytes {
    bytes: Vec<u8>,
}

impl Model for Bytes {
    ghost Value = { List ℕ };

    ghost view = { λ b. b.bytes.items };

    ghost invariant = { λ b. length b.bytes.items ≤ MAX_CONTENT_LEN };
}

impl Bytes {
    /// Returns the blob of a vector. It allocates nothing. [`OwnedValue::fits`](crate::OwnedValue::fits) tests whether
    /// the vector is short enough.
    pub fn new(bytes: Vec<u8>) -> Bytes
        requires { vec_len bytes ≤ MAX_CONTENT_LEN }
        ensures { result ≡ bytes.items }
    {
        Bytes { bytes }
    }

    /// Returns the bytes as a slice.
    pub fn as_slice(&self) -> &[u8]
        ensures same { result.now ≡ self.now }
        ensures short { length result.now ≤ MAX_CONTENT_LEN }
    {
        self.bytes.as_slice()
    }

    /// Returns a copy of the blob.
    pub fn copy(&self, alloc: Global) -> Result<Bytes, NoMemory>
        ensures { IfOk result (λ x. x ≡ self.now) }
    {
        Ok(Bytes::new(Vec::from_slice(alloc, self.as_slice())?))
    }

    /// Returns the vector. It allocates nothing.
    pub fn into_vec(self) -> Vec<u8>
        ensures { result.items ≡ self }
    {
        let Bytes { bytes } = self;
        bytes
    }
}

impl PartialEq for Bytes {
    ghost use Rattle.std.specs.Prelude.{nat_eq};
    ghost use Rattle.std.specs.Cmp.{partial_equiv_from_equiv};
    ghost use Rattle.std.specs.Cmp.Lexicographic.{pointwise, nat_list_eq_equiv};

    ghost eq = { pointwise nat_eq };

    ghost laws = { partial_equiv_from_equiv nat_list_eq_equiv };

    fn eq(&self, other: &Bytes) -> bool {
        self.bytes == other.bytes
    }
}

impl Eq for Bytes {
    ghost use Rattle.std.specs.Cmp.Lexicographic.{nat_list_eq_equiv};

    ghost laws = { nat_list_eq_equiv };
}
