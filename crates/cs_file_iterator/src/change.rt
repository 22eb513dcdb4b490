//! From one change of a file to the next.
ghost use Rattle.std.specs.Prelude.{◌≡◌, ◌≢◌, ◌↔◌, ◌<◌, ◌≤◌, ◌+◌, [], ℕ, IfErr, IfOk, IfSome, IsErrAnd, IsOkAnd, IsSomeAnd, IsTrue, List, None, Ok, length};
ghost use Rattle.cs_wire_entries.specs.declared.entry.Entry.{Entry};
ghost use Rattle.cs_wire_entries.specs.declared.fault.ReadFault.{ReadFault as ReadFaultData};
ghost use Rattle.cs_wire_entries.specs.declared.fault.ReadFaultKind.TheVariants.{EmptyGroup};
ghost use Rattle.cs_wire_entries.specs.Changeset.{GroupData, HeaderData, IsFileOf, IsHeader, header_bytes};
ghost use Rattle.cs_wire_entries.specs.ReadFaults.{EntryStart, HasEntry, Stands, TableStart};
ghost use Rattle.cs_file_iterator.specs.Changes.{ChangesLeft, EndsName, IsInTable, IsStep, LiesIn, ShowsTable, TableChange};
ghost use Rattle.cs_file_iterator.specs.Readable.{AreAll, IsUnreadable, ReadsOn, WereRead};
ghost use Rattle.cs_file_iterator.specs.Steps.{IsBetween, NoEntry, NoTable, OpensTable, PassesEntry};

use cs_wire::{ReadFault, ReadFaultKind, has_entry, read_entry, read_header};
use cs_wire_entries::fault_at;

/// Where a change lies in a file, and where the header of its table does. Offsets count from the start of the file.
#[repr(C)]
#[derive(Clone, Copy, Debug, PartialEq, Eq)]
pub struct ChangeSpan {
    /// The offset of the table's name.
    pub name: usize,
    /// The number of bytes of the name.
    pub name_length: usize,
    /// The offset of the flags of the columns, a byte for each.
    pub flags: usize,
    /// The number of columns.
    pub columns: usize,
    /// The offset of the change's records.
    pub records: usize,
    /// The number of bytes of the records.
    pub records_length: usize,
    /// What the change does: 18 for an insert, 9 for a delete, 23 for an update.
    pub operation: i32,
    /// 1 if a trigger or a foreign key made the change, else 0.
    pub indirect: i32,
}

impl ChangeSpan {
    ghost use Rattle.cs_file_iterator.specs.Changes.{no_change};

    /// Returns the span of no change, for the first call of [`next_change`].
    pub fn none() -> ChangeSpan
        ensures { result ≡ no_change }
    {
        ChangeSpan {
            name: 0,
            name_length: 0,
            flags: 0,
            columns: 0,
            records: 0,
            records_length: 0,
            operation: 0,
            indirect: 0,
        }
    }
}

/// Returns the next change of a file and the offset after it, or None after the last.
///
/// The first call takes the offset 0 and any span, each later one the offset and the span that the previous call
/// returned. A call takes time in proportion to the change that it returns, and allocates nothing.
///
/// # Errors
///
/// The fault at which reading stops: a changeset's file has none. It is the fault of the file, as `cs_wire::read`
/// reports it, unless that is a table or a key that is there twice, which is not noticed. For a header without a change
/// after it, it is `EmptyGroup` at the end of the header.
pub fn next_change(
    file: &[u8],
    place: usize,
    last: &ChangeSpan,
) -> Result<Option<(ChangeSpan, usize)>, ReadFault>
    ensures next { (all : List GroupData) (left : List TableChange) → IsFileOf file.now all → ChangesLeft file.now all left place last.now
        → IfOk result (λ found. IfSome found (λ step. IsStep file.now all left step.0 step.1)) }
    ensures done { (all : List GroupData) (left : List TableChange) → IsFileOf file.now all → ChangesLeft file.now all left place last.now
        → result ≡ Ok None → left ≡ [] }
    ensures no_fault { (all : List GroupData) (left : List TableChange) → IsFileOf file.now all → ChangesLeft file.now all left place last.now
        → IfErr result (λ _. ⊥) }
    ensures ended { (result ≡ Ok None) ↔ (place ≡ length file.now) }
    ensures reads { (groups : List GroupData) → WereRead file.now groups place last.now
        → IfOk result (λ found. IfSome found (λ step. ReadsOn file.now groups step.0 step.1)) }
    ensures stops { (groups : List GroupData) → WereRead file.now groups place last.now
        → IfErr result (λ _. AreAll file.now groups) }
    ensures checked { (groups : List GroupData) (fault : ReadFaultData) → WereRead file.now groups place last.now
        → IsUnreadable file.now fault → IfErr result (λ f. f ≡ fault) }
    ensures unfinished { (groups : List GroupData) (fault : ReadFaultData) → WereRead file.now groups place last.now
        → IsUnreadable file.now fault → result ≢ Ok None }
    ensures empty { (header : HeaderData) (end : ℕ) → IsHeader header → Stands file.now place (header_bytes header) end
        → (HasEntry file.now end → ⊥) → IsErrAnd result (λ f. f ≡ record { kind = EmptyGroup; place = end }) }
    ensures within { IfOk result (λ found. IfSome found (λ step. LiesIn file.now step.0)) }
    ensures ends { IfOk result (λ found. IfSome found (λ step. step.0.records + step.0.records_length ≡ step.1)) }
    ensures forward { IfOk result (λ found. IfSome found (λ step. (place < step.1) × (step.1 ≤ length file.now))) }
{
    if is_in_table(file, place) {
        return Ok(Some(pass_change(file, place, last)?));
    }
    if place == file.len() {
        return Ok(None);
    }
    if place > file.len() {
        return Err(fault_at(ReadFaultKind::Truncated, file.len()));
    }
    let (table, start) = open_table(file, place)?;
    Ok(Some(pass_change(file, start, &table)?))
}

/// Returns whether a change of the open table is next.
fn is_in_table(file: &[u8], place: usize) -> bool
    ensures { IsTrue result ↔ ((0 < place) × HasEntry file.now place) }
{
    place > 0 && has_entry(file, place)
}

/// Returns the table at an offset, which has a change, and the offset of that.
fn open_table(file: &[u8], place: usize) -> Result<(ChangeSpan, usize), ReadFault>
    requires { place < length file.now }
    ensures next { (all : List GroupData) (left : List TableChange) → IsFileOf file.now all → IsBetween all left place
        → IfOk result (λ table. IsInTable file.now all left table.1 table.0) }
    ensures no_fault { (all : List GroupData) (left : List TableChange) → IsFileOf file.now all → IsBetween all left place
        → IfErr result (λ _. ⊥) }
    ensures entry { IfOk result (λ table. HasEntry file.now table.1) }
    ensures reads { IfOk result (λ table. OpensTable file.now place table.0 table.1) }
    ensures stops { IfErr result (λ _. NoTable file.now place) }
    ensures checked { (groups : List GroupData) (fault : ReadFaultData) → TableStart file.now place groups
        → (HasEntry file.now place → place ≡ 0) → IsUnreadable file.now fault → IfErr result (λ f. f ≡ fault) }
    ensures empty { (header : HeaderData) (end : ℕ) → IsHeader header → Stands file.now place (header_bytes header) end
        → (HasEntry file.now end → ⊥) → IsErrAnd result (λ f. f ≡ record { kind = EmptyGroup; place = end }) }
    ensures forward { IfOk result (λ table. place < table.1) }
{
    let (header, end) = read_header(file, place)?;
    if !has_entry(file, end) {
        return Err(fault_at(ReadFaultKind::EmptyGroup, end));
    }
    let name = end - 1 - header.name.len();
    let table = ChangeSpan {
        name,
        name_length: header.name.len(),
        flags: name - header.flags.len(),
        columns: header.flags.len(),
        ..ChangeSpan::none()
    };
    Ok((table, end))
}

/// Returns the change at an offset, of the table of a span, and the offset after it.
fn pass_change(
    file: &[u8],
    place: usize,
    last: &ChangeSpan,
) -> Result<(ChangeSpan, usize), ReadFault>
    requires { HasEntry file.now place }
    ensures next { (all : List GroupData) (left : List TableChange) → IsFileOf file.now all → IsInTable file.now all left place last.now
        → IfOk result (λ step. IsStep file.now all left step.0 step.1) }
    ensures no_fault { (all : List GroupData) (left : List TableChange) → IsFileOf file.now all → IsInTable file.now all left place last.now
        → IfErr result (λ _. ⊥) }
    ensures reads { (header : HeaderData) → ShowsTable file.now last.now header
        → IfOk result (λ step. PassesEntry file.now header place step.0 step.1) }
    ensures stops { (header : HeaderData) → ShowsTable file.now last.now header
        → IfErr result (λ _. NoEntry file.now header place) }
    ensures checked { (header : HeaderData) (entries : List Entry) (fault : ReadFaultData) → ShowsTable file.now last.now header
        → EntryStart file.now place header entries → IsUnreadable file.now fault → IfErr result (λ f. f ≡ fault) }
    ensures within { IfOk result (λ step. LiesIn file.now step.0) }
    ensures ends { IfOk result (λ step. step.0.records + step.0.records_length ≡ step.1) }
    ensures forward { IfOk result (λ step. (place < step.1) × (step.1 ≤ length file.now)) }
{
    let flags = flags_of(file, place, last)?;
    let (entry, end) = read_entry(file, place, flags)?;
    let records = place + 2;
    let change = ChangeSpan {
        records,
        records_length: end - records,
        operation: i32::from(entry.op()),
        indirect: i32::from(entry.indirect()),
        ..*last
    };
    Ok((change, end))
}

/// Returns the flags of the table of a span, whose name is in the file too, with a zero byte after it.
fn flags_of<'a>(file: &'a [u8], place: usize, span: &ChangeSpan) -> Result<&'a [u8], ReadFault>
    ensures flags { (flags : List ℕ) → Stands file.now span.now.flags flags (span.now.flags + span.now.columns)
        → EndsName file.now span.now → IsOkAnd result (λ r. r.now ≡ flags) }
    ensures name { IfOk result (λ _. EndsName file.now span.now) }
    ensures within { IfOk result (λ _. span.now.flags + span.now.columns ≤ length file.now) }
{
    if !ends_name(file, span) {
        return Err(fault_at(ReadFaultKind::NotTable, place));
    }
    let Some(flags) = part_of(file, span.flags, span.columns) else {
        return Err(fault_at(ReadFaultKind::NotTable, place));
    };
    Ok(flags)
}

/// Returns whether the name of a span is in the file, with a zero byte after it.
fn ends_name(file: &[u8], span: &ChangeSpan) -> bool
    ensures { IsTrue result ↔ EndsName file.now span.now }
{
    span.name < file.len()
        && span.name_length < file.len() - span.name
        && file[span.name + span.name_length] == 0
}

/// Returns a part of a file, or None if it is not inside.
fn part_of(file: &[u8], start: usize, count: usize) -> Option<&[u8]>
    ensures part { (part : List ℕ) → Stands file.now start part (start + count) → IsSomeAnd result (λ p. p.now ≡ part) }
    ensures within { IfSome result (λ _. start + count ≤ length file.now) }
{
    if start > file.len() || count > file.len() - start {
        return None;
    }
    Some(&file[start..start + count])
}
