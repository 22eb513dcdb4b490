//! The inverse of a changeset.
ghost use Rattle.std.specs.Prelude.{◌≡◌, length, IfOk};
ghost use Rattle.cs_wire.specs.Changeset.{IsChangeset, file_bytes};
ghost use Rattle.cs_group.specs.Inverse.{IsInverse, ChangesetInverses, InverseTwice};

use cs_value::NoMemory;
use cs_wire::{Changeset, entry_inverses_law};
use std::alloc::Global;

/// Returns the inverse of a changeset, as SQLite's `sqlite3changeset_invert` does. Inserts and deletes are exchanged,
/// and so are the two values of each modified column. All else is kept, and the file has the same length.
pub fn invert(alloc: Global, changeset: Changeset) -> Result<Changeset, NoMemory>
    ensures inverse { IfOk result (IsInverse changeset) }
    ensures well_formed { IfOk result IsChangeset }
    ensures length { IfOk result (λ inverse. length (file_bytes inverse) ≡ length (file_bytes changeset)) }
{
    let mut inverse = Changeset::new(alloc);
    for mut group in changeset.into_groups() {
        group.invert();
        inverse.push(group)?;
    }
    Ok(inverse)
}

/// Does nothing. Its contract says that a changeset has only one inverse.
pub fn changeset_inverses_law()
    ensures { ChangesetInverses }
{
    entry_inverses_law();
}

/// Does nothing. Its contract says that the inverse of the inverse is the changeset.
pub fn inverse_twice_law()
    ensures { InverseTwice }
{
    entry_inverses_law();
}
