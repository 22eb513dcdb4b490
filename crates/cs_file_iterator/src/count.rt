//! The number of changes of a file.
ghost use Rattle.std.specs.Prelude.{◌≡◌, ℕ, Err, IfErr, IfOk, IsOkAnd, List, length};
ghost use Rattle.cs_wire_entries.specs.declared.fault.ReadFault.{ReadFault as ReadFaultData};
ghost use Rattle.cs_wire_entries.specs.Changeset.{GroupData, IsFileOf};
ghost use Rattle.cs_file_iterator.specs.Changes.{changes_of};
ghost use Rattle.cs_file_iterator.specs.Readable.{AreCounted, IsUnreadable};

use crate::change::{ChangeSpan, next_change};
use cs_wire::ReadFault;

/// Returns the number of changes of a file. It allocates nothing.
///
/// # Errors
///
/// The fault at which reading stops, as [`next_change`]. Bytes that are changes to their end have none, also if a table
/// or a key is there twice.
pub fn count_changes(file: &[u8]) -> Result<usize, ReadFault>
    ensures counted { (all : List GroupData) → IsFileOf file.now all → IsOkAnd result (λ count. count ≡ length (changes_of all)) }
    ensures read { IfOk result (AreCounted file.now) }
    ensures stopped { IfErr result (λ _. (count : ℕ) → AreCounted file.now count → ⊥) }
    ensures checked { (fault : ReadFaultData) → IsUnreadable file.now fault → result ≡ Err fault }
{
    let mut count: usize = 0;
    let mut place = 0;
    let mut last = ChangeSpan::none();
    'changes: while let Some((change, end)) = next_change(file, place, &last)? {
        count += 1;
        place = end;
        last = change;
    }
    Ok(count)
}
