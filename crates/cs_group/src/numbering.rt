//! The numbers of key columns.
ghost use Rattle.std.specs.Prelude.{◌≡◌, length, IfOk, if◌then◌else◌, nat_lt};
ghost use Rattle.cs_wire.specs.Changeset.{IsChangeset, file_bytes, images};
ghost use Rattle.cs_group.specs.Net.{by_flag};
ghost use Rattle.cs_group.specs.Numbering.{next_number, numbered_flags, numbered_header, numbered_group, numbered};
ghost use Rattle.cs_group.specs.Numbering.{InvertsNumbered};

use crate::columns::is_of_key;
use cs_value::NoMemory;
use cs_wire::{Changeset, Group, Header};
use std::alloc::Global;

/// Returns the changeset with its key columns numbered in column order, as SQLite's session extension does: 1 for the
/// first column of the key, 2 for the second, and so on, and 255 from the 255th on. It has the same effect
/// (`numbering_does_law` of `cs_apply_conflict_kinds`), and its file the same length.
///
/// SQLite's `sqlite3changeset_apply` skips a table whose flags are not these numbers. Do not call this on a changeset
/// that SQLite recorded: it has its numbers, and they need not be in column order.
///
/// # Errors
///
/// [`NoMemory`] if out of memory.
pub fn number_keys(alloc: Global, changeset: Changeset) -> Result<Changeset, NoMemory>
    ensures numbered { IfOk result (λ other. other ≡ numbered changeset) }
    ensures well_formed { IfOk result IsChangeset }
    ensures images { IfOk result (λ other. images other ≡ images changeset) }
    ensures inverse { IfOk result (InvertsNumbered changeset) }
    ensures length { IfOk result (λ other. length (file_bytes other) ≡ length (file_bytes changeset)) }
{
    let mut numbered = Changeset::new(alloc);
    for group in changeset.into_groups() {
        numbered.push(number_group(alloc, group)?)?;
    }
    Ok(numbered)
}

/// Returns the group with numbered flags.
fn number_group(alloc: Global, group: Group) -> Result<Group, NoMemory>
    ensures { IfOk result (λ other. other ≡ numbered_group group) }
{
    let (header, entries) = group.into_parts();
    Group::from_entries(alloc, number_header(alloc, &header)?, entries)
}

/// Returns the header with numbered flags.
fn number_header(alloc: Global, header: &Header) -> Result<Header, NoMemory>
    ensures { IfOk result (λ other. other ≡ numbered_header header.now) }
{
    let name = String::from_str(alloc, header.name())?;
    Ok(Header::new(name, number_flags(alloc, header.flags())?))
}

/// Returns flags with those of key columns numbered in column order.
pub fn number_flags(alloc: Global, flags: &[u8]) -> Result<Vec<u8>, NoMemory>
    ensures { IfOk result (λ numbers. numbers.items ≡ numbered_flags flags.now) }
{
    let mut numbers = Vec::with_capacity(alloc, flags.len())?;
    let mut last = 0;
    for flag in flags {
        if is_of_key(*flag) {
            last = number_after(last);
            numbers.push(last)?;
        } else {
            numbers.push(0)?;
        }
    }
    Ok(numbers)
}

/// Returns the number of the key column after the one with this number.
fn number_after(last: u8) -> u8
    ensures { result ≡ next_number last }
{
    last.min(254) + 1
}
