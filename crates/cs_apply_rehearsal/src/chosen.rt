//! Choices for the conflicts of a rehearsal.
ghost use Rattle.std.specs.Prelude.{◌≡◌, IfOk, length, map};
ghost use Rattle.cs_apply_conflict_kinds.specs.declared.conflict.Choice.{Choice as ChoiceData};
ghost use Rattle.cs_apply_conflict_kinds.specs.Applying.{ConflictData};
ghost use Rattle.cs_apply_engine.specs.Report.{conflict_of, met_of};
ghost use Rattle.cs_apply_rehearsal.specs.Choosing.{IsChoiceFor, listed_with};
ghost use Rattle.cs_apply_rehearsal.specs.Rehearsal.{found_of};

use crate::found::Found;
use crate::order::compare_conflicts;
use cs_apply_engine::{Choice, Conflict, Met};
use cs_value::NoMemory;
use std::alloc::Global;
use std::marker::Model;

/// A choice for each conflict of a rehearsal. Contracts see the conflicts with their choices.
#[derive(Debug, Drop)]
pub struct Chosen {
    // In the order of `compare_conflicts`.
    decisions: Vec<Met>,
}

impl Model for Chosen {
    ghost use Rattle.std.specs.Prelude.{List, map};
    ghost use Rattle.cs_apply_conflict_kinds.specs.Applying.{MetData};
    ghost use Rattle.cs_apply_engine.specs.Report.{met_of};
    ghost use Rattle.cs_apply_rehearsal.specs.Order.{IsInOrder};

    ghost Value = { List MetData };

    ghost view = { λ c. map met_of c.decisions.items };

    ghost invariant = { λ c. IsInOrder c.decisions.items };
}

impl Chosen {
    /// Returns the choices for the conflicts of a rehearsal, in their order. There is one for each.
    ///
    /// # Errors
    ///
    /// `NoMemory` if out of memory.
    pub fn new(alloc: Global, found: Vec<Found>, choices: &[Choice]) -> Result<Chosen, NoMemory>
        requires { length choices.now ≡ length found.items }
        ensures { IfOk result (λ chosen. (conflict : ConflictData) (choice : ChoiceData)
            → IsChoiceFor chosen conflict choice
            → IsChoiceFor (listed_with (map found_of found.items) choices.now) conflict choice) }
    {
        let mut decisions = decided(alloc, found, choices)?;
        decisions.sort_unstable_by(|one, other| compare_conflicts(&one.conflict, &other.conflict));
        Ok(Chosen { decisions })
    }

    /// Returns the choice for a conflict: that for the conflict of the same kind, table and entry, or Abort if the
    /// rehearsal does not have it. It allocates nothing, and takes time in proportion to the logarithm of the number of
    /// conflicts.
    pub fn choose(&self, conflict: &Conflict) -> Choice
        ensures { IsChoiceFor self.now (conflict_of conflict.now) result }
    {
        let found = self
            .decisions
            .binary_search_by(|met| compare_conflicts(&met.conflict, conflict));
        match found {
            Ok(index) => self.decisions[index].choice,
            Err(_) => Choice::Abort,
        }
    }
}

/// Returns each conflict with the choice at its place.
fn decided(alloc: Global, found: Vec<Found>, choices: &[Choice]) -> Result<Vec<Met>, NoMemory>
    requires { length choices.now ≡ length found.items }
    ensures { IfOk result (λ list. map met_of list.items ≡ listed_with (map found_of found.items) choices.now) }
{
    let mut list = Vec::with_capacity(alloc, found.len())?;
    let mut index = 0;
    for item in found {
        let conflict = item.conflict;
        list.push(Met {
            conflict,
            choice: choices[index],
        })?;
        index += 1;
    }
    Ok(list)
}
