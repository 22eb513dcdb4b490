//! The indices of the entries of conflicts.
ghost use Rattle.std.specs.Prelude.{◌≡◌, ◌∷◌, ◌≤◌, ◌↔◌, List, IfOk, IsTrue, drop, length, map};
ghost use Rattle.cs_apply_conflict_kinds.specs.Applying.{ConflictData};
ghost use Rattle.cs_apply_engine.specs.Report.{conflict_of};
ghost use Rattle.cs_apply_rehearsal.specs.Along.{AreAlong};
ghost use Rattle.cs_apply_rehearsal.specs.Found.{IsOf};
ghost use Rattle.cs_apply_rehearsal.specs.Numbering.{AreNumbered, IsEntryAt, conflicts_of};
ghost use Rattle.cs_apply_rehearsal.specs.Places.{place_of};

use crate::found::Found;
use crate::order::is_same_entry;
use crate::places::Place;
use cs_apply_engine::{Conflict, Met};
use cs_value::NoMemory;
use std::alloc::Global;

/// Returns whether a conflict is one of an entry.
fn is_of(place: &Place<'_>, conflict: &Conflict) -> bool
    ensures { IsTrue result ↔ IsOf (conflict_of conflict.now) (place_of place.now) }
{
    place.header.name() == conflict.table.as_str() && is_same_entry(place.entry, &conflict.entry)
}

/// Returns the index of the entry of a conflict, not before an index, or the number of the entries if there is none.
fn index_from(places: &[Place<'_>], start: usize, conflict: &Conflict) -> usize
    requires { start ≤ length places.now }
    ensures within { result ≤ length places.now }
    ensures found { (others : List ConflictData)
        → AreAlong (drop start (map place_of places.now)) (conflict_of conflict.now ∷ others)
        → IsEntryAt (map place_of places.now) (conflict_of conflict.now) others result }
{
    for index in start..places.len() {
        if is_of(&places[index], conflict) {
            return index;
        }
    }
    places.len()
}

/// Returns conflicts, which are in the order of their entries, with the indices of these.
pub(crate) fn number(
    alloc: Global,
    places: &[Place<'_>],
    conflicts: Vec<Met>,
) -> Result<Vec<Found>, NoMemory>
    ensures { AreAlong (map place_of places.now) (conflicts_of conflicts.items)
        → IfOk result (λ found. AreNumbered (map place_of places.now) conflicts.items found.items) }
{
    let mut found = Vec::with_capacity(alloc, conflicts.len())?;
    let mut index = 0;
    for met in conflicts {
        index = index_from(places, index, &met.conflict);
        let conflict = met.conflict;
        found.push(Found { index, conflict })?;
    }
    Ok(found)
}
