//! Inverting entries in place.
ghost use Rattle.std.specs.Prelude.{◌≡◌, length, map};
ghost use Rattle.std.specs.List.{AllByRecursion};
ghost use Rattle.cs_wire_entries.specs.Entry.{IsChange, IsEntry, with_key};
ghost use Rattle.cs_wire_entries.specs.Views.{inverse_change as inverse_change_of, inverse_entry as inverse_entry_of};

use crate::entry::{Change, Entry};
use cs_value::{Image, OwnedField, Row};
use std::alloc::Global;
use std::mem;

/// Replaces each entry by its inverse.
pub fn invert_entries(alloc: Global, flags: &[u8], entries: &mut [Entry])
    requires { AllByRecursion (IsEntry flags.now) entries.old }
    ensures { entries.new ≡ map (inverse_entry_of flags.now) entries.old }
{
    for entry in entries.iter_mut() {
        invert_entry(alloc, flags, entry);
    }
}

/// Replaces an entry by its inverse.
fn invert_entry(alloc: Global, flags: &[u8], entry: &mut Entry)
    requires { IsEntry flags.now entry.old }
    ensures { entry.new ≡ inverse_entry_of flags.now entry.old }
{
    let nothing = Change::Insert(Row::new(Vec::new(alloc)));
    let change = mem::replace(&mut entry.change, nothing);
    entry.change = inverse_change(flags, change);
}

/// Returns the inverse of a change.
fn inverse_change(flags: &[u8], change: Change) -> Change
    requires { IsChange flags.now change }
    ensures { result ≡ inverse_change_of flags.now change }
{
    match change {
        Change::Insert(row) => Change::Delete(row),
        Change::Delete(row) => Change::Insert(row),
        Change::Update { old, new } => {
            let (old, new) = exchange(flags, old, new);
            Change::Update { old, new }
        }
    }
}

/// Returns the two records of an update with the fields outside the key exchanged.
fn exchange(flags: &[u8], old: Image, new: Image) -> (Image, Image)
    requires old { length flags.now ≡ length old }
    requires new { length flags.now ≡ length new }
    ensures old { result.0 ≡ with_key flags.now old new }
    ensures new { result.1 ≡ with_key flags.now new old }
{
    let mut old = old.into_fields();
    let mut new = new.into_fields();
    exchange_fields(flags, &mut old, &mut new);
    (Image::new(old), Image::new(new))
}

/// Exchanges the fields of two records outside the key.
fn exchange_fields(flags: &[u8], old: &mut [OwnedField], new: &mut [OwnedField])
    requires old { length flags.now ≡ length old.old }
    requires new { length flags.now ≡ length new.old }
    ensures old { old.new ≡ with_key flags.now old.old new.old }
    ensures new { new.new ≡ with_key flags.now new.old old.old }
{
    for (column, flag) in flags.iter().enumerate() {
        if *flag == 0 {
            mem::swap(&mut old[column], &mut new[column]);
        }
    }
}
