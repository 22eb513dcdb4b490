//! The quick check of a file.
ghost use Rattle.std.specs.Prelude.{◌≡◌, ◌<◌, ◌≤◌, ◌++◌, ◌↔◌, ◌⊎◌, [], ℕ, IfOk, IfSome, IsTrue, List, OnOk, length};
ghost use Rattle.cs_wire_entries.specs.Records.{AreKeyColumns};
ghost use Rattle.cs_file_scan.specs.Checked.{HasEntries, Passes, VisitsDistinct, VisitsEntries, VisitsEntry, VisitsTable};
ghost use Rattle.cs_file_scan.specs.Distinct.{number_of as number_in};
ghost use Rattle.cs_file_scan.specs.Named.{table_of};
ghost use Rattle.cs_file_scan.specs.Visits.{IsVisited, group_text};
ghost use Rattle.cs_wire.specs.Entry.{key_of};
ghost use Rattle.cs_wire.specs.ReadFaults.{HasEntry, Stands};

use crate::distinct::{number_of, take_distinct};
use crate::visit::Visit;
use cs_value::NoMemory;
use cs_wire::{EntryRef, HeaderRef, KeyColumns, has_entry, read_entry, read_header};
use std::alloc::Global;

/// A table, the byte offset of its first entry, and the number of its entries.
#[derive(Debug, Drop)]
pub(crate) struct ListedTable<'a> {
    pub(crate) header: HeaderRef<'a>,
    pub(crate) start: usize,
    pub(crate) count: usize,
}

/// Returns whether the quick check accepts a file. A file that it accepts is the file of a changeset, and each of its
/// headers and entries is visited. A file that it rejects can still be one, if two names or two keys have the same
/// number. Then those before the rejection are visited.
///
/// It allocates eight bytes for each table, eight for each entry of one table at a time unless the numbers of the keys
/// rise, and a copy of each key whose columns are not adjacent. It reads each entry at most twice, and sorts the
/// numbers that it lists.
///
/// # Errors
///
/// [`NoMemory`] if memory runs out.
pub(crate) fn check_file<V: Visit>(
    alloc: Global,
    file: &[u8],
    visitor: &mut V,
) -> Result<bool, NoMemory>
    ensures { IfOk result (λ yes. IsTrue yes → IsVisited (group_text V.header_text V.entry_text) file.now
        (V.written visitor.old) (V.written visitor.new)) }
{
    let mut names = Vec::new(alloc);
    let mut keys = Vec::new(alloc);
    let mut place = 0;
    'tables: while place < file.len() {
        let Some((table, end)) = pass_table(alloc, file, place, &mut keys, visitor)? else {
            return Ok(false);
        };
        names.push(number_of(table.header.name.as_bytes()))?;
        place = end;
    }
    Ok(take_distinct(&mut names))
}

/// Returns the table at a byte offset and its end, if its header and entries are well formed and no two of its keys
/// have the same number. Visits them.
pub(crate) fn pass_table<'a, V: Visit>(
    alloc: Global,
    file: &'a [u8],
    at: usize,
    keys: &mut Vec<u64>,
    visitor: &mut V,
) -> Result<Option<(ListedTable<'a>, usize)>, NoMemory>
    requires within { at < length file.now }
    requires no_key { keys.old.items ≡ [] }
    ensures table { IfOk result (λ read. IfSome read (λ read. VisitsTable (group_text V.header_text V.entry_text)
        (V.written visitor.old) (V.written visitor.new) file.now at (table_of read.0) read.1)) }
    ensures no_key { IfOk result (λ read. IfSome read (λ _. keys.new.items ≡ [])) }
    ensures forward { IfOk result (λ read. IfSome read (λ read. at < read.1)) }
{
    let Ok((header, start)) = read_header(file, at) else {
        return Ok(None);
    };
    visitor.visit_header(header)?;
    let Some((count, end)) = pass_distinct(alloc, file, start, header.flags, keys, visitor)? else {
        return Ok(None);
    };
    if count == 0 {
        return Ok(None);
    }
    let table = ListedTable {
        header,
        start,
        count,
    };
    Ok(Some((table, end)))
}

/// Returns the number of the entries at a byte offset, and their end, if each is well formed and no two of their keys
/// have the same number. Visits them. The numbers of the keys are listed only if they do not rise. `keys` is room for
/// them.
fn pass_distinct<V: Visit>(
    alloc: Global,
    file: &[u8],
    at: usize,
    flags: &[u8],
    keys: &mut Vec<u64>,
    visitor: &mut V,
) -> Result<Option<(usize, usize)>, NoMemory>
    requires within { at ≤ length file.now }
    requires no_key { keys.old.items ≡ [] }
    ensures distinct { IfOk result (λ passed. IfSome passed (λ passed. VisitsDistinct (V.entry_text flags.now)
        (V.written visitor.old) (V.written visitor.new) file.now at flags.now passed.0 passed.1)) }
    ensures no_key { IfOk result (λ passed. IfSome passed (λ _. keys.new.items ≡ [])) }
{
    let columns = KeyColumns::of(flags);
    let Some(passed) = pass_rising(alloc, file, at, flags, columns, visitor)? else {
        return Ok(None);
    };
    if passed.rises {
        return Ok(Some((passed.count, passed.end)));
    }
    list_numbers(alloc, file, at, passed.count, flags, columns, keys)?;
    let Some(end) = pass_rest(alloc, file, passed.end, flags, columns, keys, visitor)? else {
        return Ok(None);
    };
    let count = keys.len();
    if !take_distinct(keys) {
        return Ok(None);
    }
    Ok(Some((count, end)))
}

/// Entries that were visited: their number, where they end, and whether the numbers of their keys rise.
#[derive(Clone, Copy)]
struct EntryRun {
    count: usize,
    end: usize,
    rises: bool,
}

/// Visits the entries at a byte offset, through the first whose key has a number that is not above the previous one, or
/// else all. None if one of them is malformed.
fn pass_rising<V: Visit>(
    alloc: Global,
    file: &[u8],
    at: usize,
    flags: &[u8],
    columns: Option<KeyColumns>,
    visitor: &mut V,
) -> Result<Option<EntryRun>, NoMemory>
    requires within { at ≤ length file.now }
    requires columns { IfSome columns (AreKeyColumns flags.now) }
    ensures { IfOk result (λ passed. IfSome passed (Passes (V.entry_text flags.now) (V.written visitor.old)
        (V.written visitor.new) file.now at flags.now)) }
{
    let mut passed = EntryRun {
        count: 0,
        end: at,
        rises: true,
    };
    let mut last = 0;
    'entries: while passed.rises && has_entry(file, passed.end) {
        let Some((number, end)) = pass_entry(alloc, file, passed.end, flags, columns, visitor)?
        else {
            return Ok(None);
        };
        passed = EntryRun {
            count: passed.count + 1,
            end,
            rises: rises_to(last, number, passed.count),
        };
        last = number;
    }
    Ok(Some(passed))
}

/// Returns whether a number is the first, or above the previous one. `count` numbers are before it.
fn rises_to(last: u64, number: u64, count: usize) -> bool
    ensures { IsTrue result ↔ (count ≡ 0) ⊎ (last < number) }
{
    count == 0 || last < number
}

/// Appends the numbers of the keys of the first entries at a byte offset, which were read before. `count` says how many
/// they are.
fn list_numbers(
    alloc: Global,
    file: &[u8],
    at: usize,
    count: usize,
    flags: &[u8],
    columns: Option<KeyColumns>,
    keys: &mut Vec<u64>,
) -> Result<(), NoMemory>
    requires columns { IfSome columns (AreKeyColumns flags.now) }
    ensures { (numbers : List ℕ) (end : ℕ) → HasEntries file.now at flags.now numbers end → length numbers ≡ count
        → OnOk result (keys.new.items ≡ keys.old.items ++ numbers) }
{
    let mut place = at;
    for _ in 0..count {
        if !has_entry(file, place) {
            return Ok(());
        }
        let Ok((seen, end)) = read_entry(file, place, flags) else {
            return Ok(());
        };
        keys.push(key_number(alloc, &seen, columns)?)?;
        place = end;
    }
    Ok(())
}

/// Returns the end of the entries at a byte offset, if each is well formed. Appends the numbers of their keys, and
/// visits them.
fn pass_rest<V: Visit>(
    alloc: Global,
    file: &[u8],
    at: usize,
    flags: &[u8],
    columns: Option<KeyColumns>,
    keys: &mut Vec<u64>,
    visitor: &mut V,
) -> Result<Option<usize>, NoMemory>
    requires within { at ≤ length file.now }
    requires columns { IfSome columns (AreKeyColumns flags.now) }
    ensures { IfOk result (λ end. IfSome end (λ end. (numbers : List ℕ)
        × (keys.new.items ≡ keys.old.items ++ numbers)
        × VisitsEntries (V.entry_text flags.now) (V.written visitor.old) (V.written visitor.new) file.now at flags.now
        numbers end)) }
{
    let mut place = at;
    'entries: while has_entry(file, place) {
        let Some((number, end)) = pass_entry(alloc, file, place, flags, columns, visitor)? else {
            return Ok(None);
        };
        keys.push(number)?;
        place = end;
    }
    Ok(Some(place))
}

/// Returns the number of the key of the entry at a byte offset, and the end of the entry, if it is well formed. Visits
/// it.
#[inline(always)]
fn pass_entry<V: Visit>(
    alloc: Global,
    file: &[u8],
    at: usize,
    flags: &[u8],
    columns: Option<KeyColumns>,
    visitor: &mut V,
) -> Result<Option<(u64, usize)>, NoMemory>
    requires entry { HasEntry file.now at }
    requires columns { IfSome columns (AreKeyColumns flags.now) }
    ensures { IfOk result (λ read. IfSome read (λ read. VisitsEntry (V.entry_text flags.now) (V.written visitor.old)
        (V.written visitor.new) file.now at flags.now read.0 read.1)) }
{
    let Ok((seen, end)) = read_entry(file, at, flags) else {
        return Ok(None);
    };
    let number = key_number(alloc, &seen, columns)?;
    visitor.visit_entry(&seen, part(file, at, end))?;
    Ok(Some((number, end)))
}

/// Returns the part of a file between two byte offsets, or nothing if they are not in order or not in the file.
pub fn part(file: &[u8], start: usize, end: usize) -> &[u8]
    ensures { (bytes : List ℕ) → Stands file.now start bytes end → start ≤ length file.now → result.now ≡ bytes }
{
    if start <= end && end <= file.len() {
        &file[start..end]
    } else {
        &[]
    }
}

/// Returns the number of an entry's key. `columns` are those of its table, if they are contiguous.
#[inline(always)]
pub(crate) fn key_number(
    alloc: Global,
    seen: &EntryRef<'_>,
    columns: Option<KeyColumns>,
) -> Result<u64, NoMemory>
    requires { IfSome columns (AreKeyColumns seen.now.flags) }
    ensures { IfOk result (λ number. number ≡ number_in (key_of seen.now.flags seen.now.entry.change)) }
{
    if let Some(columns) = columns {
        if let Some(key) = seen.borrowed_key(columns) {
            return Ok(number_of(key));
        }
    }
    let key = seen.key_slice(alloc)?;
    Ok(number_of(key.as_slice()))
}
