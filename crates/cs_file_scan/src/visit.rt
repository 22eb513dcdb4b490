//! What is done with a file as it is checked.
ghost use Rattle.std.specs.Prelude.{◌≡◌, ◌++◌, [], OnOk};
ghost use Rattle.cs_wire.specs.Changeset.{IsHeader};
ghost use Rattle.cs_wire.specs.Entry.{IsEntry, entry_bytes};
ghost use Rattle.cs_wire.specs.Headers.{header_of};

use cs_value::NoMemory;
use cs_wire::{EntryRef, HeaderRef};

/// What is done with the headers and entries of a file as the quick check reads them, in the order of the file. It is
/// described by the bytes that it appends.
pub trait Visit {
    ghost use Rattle.std.specs.Prelude.{List, ℕ};
    ghost use Rattle.cs_wire_entries.specs.declared.entry.Entry.{Entry};
    ghost use Rattle.cs_wire.specs.Changeset.{HeaderData};

    // The bytes that were appended.
    ghost written: { Self → List ℕ };

    // What is appended for a header.
    ghost header_text: { HeaderData → List ℕ };

    // What is appended for an entry of a table with these flags.
    ghost entry_text: { List ℕ → Entry → List ℕ };

    /// Visits the header of the next table.
    ///
    /// # Errors
    ///
    /// [`NoMemory`] if memory runs out.
    fn visit_header(&mut self, header: HeaderRef<'_>) -> Result<(), NoMemory>
        requires { IsHeader (header_of header) }
        ensures { OnOk result (written self.new ≡ written self.old ++ header_text (header_of header.entry)) };

    /// Visits the next entry of that table. `bytes` are those of the entry in the file.
    ///
    /// # Errors
    ///
    /// [`NoMemory`] if memory runs out.
    fn visit_entry(&mut self, seen: &EntryRef<'_>, bytes: &[u8]) -> Result<(), NoMemory>
        requires entry { IsEntry seen.now.flags seen.now.entry }
        requires bytes { bytes.now ≡ entry_bytes seen.now.entry }
        ensures { OnOk result (written self.new ≡ written self.old ++ entry_text seen.now.flags seen.now.entry) };
}

/// Does nothing.
#[derive(Drop)]
pub(crate) struct Unvisited;

impl Visit for Unvisited {
    ghost written = { λ _. [] };

    ghost header_text = { λ _. [] };

    ghost entry_text = { λ _ _. [] };

    fn visit_header(&mut self, _header: HeaderRef<'_>) -> Result<(), NoMemory> {
        Ok(())
    }

    fn visit_entry(&mut self, _seen: &EntryRef<'_>, _bytes: &[u8]) -> Result<(), NoMemory> {
        Ok(())
    }
}
