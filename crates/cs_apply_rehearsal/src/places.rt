//! The entries of a changeset, with their tables.
ghost use Rattle.std.specs.Prelude.{◌≡◌, ◌++◌, IfOk, OnOk, map};
ghost use Rattle.cs_apply_conflict_kinds.specs.Applying.{placed, placed_in};
ghost use Rattle.cs_apply_rehearsal.specs.Places.{place_of};

use cs_value::NoMemory;
use cs_wire::{Changeset, Entry, Group, Header};
use std::alloc::Global;

/// An entry of a changeset, and the header of its table.
#[derive(Drop)]
pub(crate) struct Place<'a> {
    pub(crate) header: &'a Header,
    pub(crate) entry: &'a Entry,
}

/// Appends the entries of a group.
fn push_places<'a>(places: &mut Vec<Place<'a>>, group: &'a Group) -> Result<(), NoMemory>
    ensures { OnOk result (map place_of places.new.items ≡ map place_of places.old.items ++ placed_in group.now) }
{
    let header = group.header();
    for entry in group.entries() {
        places.push(Place { header, entry })?;
    }
    Ok(())
}

/// Returns the entries of a changeset, in the order of the file.
pub(crate) fn places_of<'a>(
    alloc: Global,
    changeset: &'a Changeset,
) -> Result<Vec<Place<'a>>, NoMemory>
    ensures { IfOk result (λ places. map place_of places.items ≡ placed changeset.now) }
{
    let mut places = Vec::new(alloc);
    for group in changeset.groups() {
        push_places(&mut places, group)?;
    }
    Ok(places)
}
