//! The entries of the bench's files of one table, as `bench/shapes.py` makes them.

use std::alloc::{AllocError, Global};

/// The number of bytes of a key.
pub(crate) const KEY_LEN: usize = 9;

/// The number of bytes of the blob.
const BLOB_LEN: usize = 100_000_000;

/// The bytes before the content of the blob: the byte of its type, and `BLOB_LEN` as a varint.
const BLOB_START: &[u8] = b"\x04\xaf\xd7\xc2\0";

/// Which entries a file has.
#[derive(Clone, Copy)]
pub(crate) enum Shape {
    /// An INSERT, a DELETE and an UPDATE in turn.
    Mix,
    /// INSERTs only.
    Inserts,
    /// INSERTs of a blob.
    Blob,
}

/// What an entry does to its row.
#[derive(Clone, Copy)]
pub(crate) enum Change {
    Insert,
    Delete,
    Update,
}

impl Shape {
    /// Returns what the entry with this key does.
    pub(crate) fn change(self, key: i64) -> Change {
        match (self, key % 3) {
            (Shape::Inserts | Shape::Blob, _) | (Shape::Mix, 0) => Change::Insert,
            (Shape::Mix, 1) => Change::Delete,
            _ => Change::Update,
        }
    }
}

impl Change {
    /// Returns the bytes of the row with this key, after the entry or before it is deleted. A value is the byte of its
    /// type and its content, as `row_write` of `cs_value` writes it. The first nine bytes are those of the key.
    pub(crate) fn row(self, key: i64) -> [u8; 16] {
        let text = match self {
            Change::Insert | Change::Delete => b"\x03\x05hello",
            Change::Update => b"\x03\x05olleh",
        };
        let mut row = [0u8; 16];
        row[0] = 1;
        row[1..9].copy_from_slice(&key.to_be_bytes());
        row[9..].copy_from_slice(text);
        row
    }
}

/// Returns the bytes of the row with this key and a blob whose bytes are all 0. The first bytes are those of the key.
pub(crate) fn blob_row(alloc: Global, key: i64) -> Result<Vec<u8>, AllocError> {
    let mut row = Vec::from_slice(alloc, b"\x01")?;
    row.extend_from_slice(&key.to_be_bytes())?;
    row.extend_from_slice(BLOB_START)?;
    row.resize(row.len().saturating_add(BLOB_LEN), 0)?;
    Ok(row)
}
