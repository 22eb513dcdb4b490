//! Calls that rehearse changesets, or apply them with a choice for each conflict that a rehearsal finds.
ghost use Rattle.std.specs.Prelude.{◌≡◌, ◌↔◌, IfOk, IsTrue, Ok, length, map};
ghost use Rattle.sqlite.specs.Held.{state};
ghost use Rattle.cs_apply_engine.specs.Report.{conflict_of};
ghost use Rattle.cs_apply_rehearsal.specs.Choosing.{IsChoiceFor};
ghost use Rattle.cs_calls_executor.specs.Answered.{IsOpen, Reads};
ghost use Rattle.cs_calls_executor.specs.Applying.{HasSamePlace, found_by};
ghost use Rattle.cs_calls_executor.specs.Calls.{Works};
ghost use Rattle.cs_calls_executor.specs.declared.applying.ApplyCall.TheVariants.{Chosen as ChosenCall, Rehearse as RehearseCall};

use crate::applying::{conflict_key, finish};
use crate::calls::{Carried, bytes_of};
use cs_apply::{Choice, Conflict, Noop, apply_in_transaction};
use cs_apply_rehearsal::{Chosen, Found, rehearse};
use cs_calls_answers::{Answer, FoundConflicts, Refused};
use cs_calls_conversions::name_text;
use cs_calls_parts::{Choices, ChosenConflict, FoundConflict};
use cs_store::Transaction;
use cs_value::{Bytes, NoMemory, Row};
use sqlite::Alter;
use std::alloc::Global;

/// Returns a copy of a row, if there is one.
fn row_copy(alloc: Global, row: &Option<Row>) -> Result<Option<Row>, NoMemory>
    ensures { IfOk result (λ copy. copy ≡ row.now) }
{
    match row {
        Some(row) => Ok(Some(row.copy(alloc)?)),
        None => Ok(None),
    }
}

/// Returns a conflict of a rehearsal as an answer has it.
fn found_conflict<S: Alter>(
    alloc: Global,
    transaction: &mut Transaction<S>,
    found: &Found,
) -> Result<FoundConflict, Refused>
    ensures { Reads (λ tables. Ok (found_by tables found.now))
        (state S.Store transaction.old) (state S.Store transaction.new) result }
{
    let conflict = &found.conflict;
    let key = conflict_key(alloc, transaction, conflict)?;
    let table = name_text(alloc, conflict.table.as_str())?;
    let current = row_copy(alloc, &conflict.current)?;
    Ok(FoundConflict {
        index: found.index as u64,
        kind: conflict.kind,
        table,
        key,
        current,
    })
}

/// Returns the conflicts of a rehearsal as an answer has them. Where there is none, nothing is read.
fn found_conflicts<S: Alter>(
    alloc: Global,
    transaction: &mut Transaction<S>,
    conflicts: &[Found],
) -> Result<FoundConflicts, Refused>
    ensures read { IsOpen (state S.Store transaction.old) → Reads (λ tables. Ok (map (found_by tables) conflicts.now))
        (state S.Store transaction.old) (state S.Store transaction.new) result }
    ensures counted { IfOk result (λ list. length list ≡ length conflicts.now) }
{
    let mut list = Vec::new(alloc);
    for found in conflicts {
        list.push(found_conflict(alloc, transaction, found)?)?;
    }
    Ok(FoundConflicts::new(list))
}

/// Returns whether two conflicts have the same row, or both have none.
fn has_same_row(one: &Option<Row>, other: &Option<Row>) -> bool
    ensures { IsTrue result ↔ (one.now ≡ other.now) }
{
    match (one, other) {
        (Some(one), Some(other)) => one == other,
        (None, None) => true,
        _ => false,
    }
}

/// Returns whether two conflicts are of the same entry, and of one kind.
fn has_same_entry(one: &FoundConflict, other: &FoundConflict) -> bool
    ensures { IsTrue result ↔ (one.now.index ≡ other.now.index) × (one.now.kind ≡ other.now.kind) }
{
    one.index == other.index && one.kind == other.kind
}

/// Returns whether two conflicts have the same key of the same table.
fn has_same_key(one: &FoundConflict, other: &FoundConflict) -> bool
    ensures { IsTrue result ↔ (one.now.table ≡ other.now.table) × (one.now.key ≡ other.now.key) }
{
    one.table == other.table && one.key == other.key
}

/// Returns whether two conflicts are of the same entry, of one kind, and have the same key.
fn has_same_place(one: &FoundConflict, other: &FoundConflict) -> bool
    ensures { IsTrue result ↔ HasSamePlace one.now other.now }
{
    has_same_entry(one, other) && has_same_key(one, other)
}

/// Returns whether two conflicts are the same.
fn is_same(one: &FoundConflict, other: &FoundConflict) -> bool
    ensures { IsTrue result ↔ (one.now ≡ other.now) }
{
    has_same_place(one, other) && has_same_row(&one.current, &other.current)
}

/// Returns whether these are the conflicts that the choices are for.
fn are_repeated(conflicts: &[FoundConflict], choices: &[ChosenConflict]) -> bool
    ensures { IsTrue result ↔ (conflicts.now ≡ map (λ c. c.conflict) choices.now) }
{
    if conflicts.len() != choices.len() {
        return false;
    }
    for index in 0..conflicts.len() {
        if !is_same(&conflicts[index], &choices[index].conflict) {
            return false;
        }
    }
    true
}

/// Returns the choices without their conflicts.
fn without_conflicts(alloc: Global, choices: &[ChosenConflict]) -> Result<Vec<Choice>, NoMemory>
    ensures { IfOk result (λ list. list.items ≡ map (λ c. c.choice) choices.now) }
{
    let mut list = Vec::with_capacity(alloc, choices.len())?;
    for chosen in choices {
        list.push(chosen.choice)?;
    }
    Ok(list)
}

/// Lists the conflicts that an apply of a file would have.
pub(crate) fn rehearse_file<S: Alter + Drop>(
    alloc: Global,
    transaction: &mut Transaction<S>,
    file: &Bytes,
    noop: Noop,
) -> Result<Carried, Refused>
    ensures { Works (RehearseCall file.now noop) (state S.Store transaction.old) (state S.Store transaction.new) result }
{
    match rehearse(alloc, transaction, file.as_slice(), noop) {
        Ok(found) => {
            let conflicts = found_conflicts(alloc, transaction, &found)?;
            let bytes = bytes_of(alloc, &Answer::Conflicts(conflicts))?;
            let written = Vec::new(alloc);
            Ok(Carried { bytes, written })
        }
        Err(fault) => finish(alloc, transaction, Err(fault)),
    }
}

/// Applies a file with a choice for each conflict that a rehearsal finds. If these are not the conflicts that the
/// choices are for, it is refused with 99 ConflictsDiffer.
pub(crate) fn apply_chosen<S: Alter + Drop>(
    alloc: Global,
    transaction: &mut Transaction<S>,
    file: &Bytes,
    noop: Noop,
    choices: &Choices,
) -> Result<Carried, Refused>
    ensures { Works (ChosenCall file.now noop choices.now)
        (state S.Store transaction.old) (state S.Store transaction.new) result }
{
    let found = match rehearse(alloc, transaction, file.as_slice(), noop) {
        Ok(found) => found,
        Err(fault) => return finish(alloc, transaction, Err(fault)),
    };
    let conflicts = found_conflicts(alloc, transaction, &found)?;
    if !are_repeated(conflicts.as_slice(), choices.as_slice()) {
        return Err(Refused::plain(99));
    }
    let list = without_conflicts(alloc, choices.as_slice())?;
    let chosen = Chosen::new(alloc, found, &list)?;
    let handler = |conflict: &Conflict| -> Choice
        ensures { IsChoiceFor chosen (conflict_of conflict.now) result }
    { chosen.choose(conflict) };
    let outcome = apply_in_transaction(alloc, transaction, file.as_slice(), noop, &handler);
    finish(alloc, transaction, outcome)
}
