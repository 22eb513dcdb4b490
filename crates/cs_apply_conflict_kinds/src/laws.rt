//! Laws of all states and changesets. These functions do nothing. Each has a law as its contract, and a proof uses the
//! law by calling the function.
ghost use Rattle.cs_apply_conflict_kinds.specs.Laws.{AppliedOnce, AppliedReverts, WrittenTells};
ghost use Rattle.cs_apply_conflict_kinds.specs.Laws.{IdleCases, IgnoredStand};
ghost use Rattle.cs_apply_conflict_kinds.specs.JoinLaw.{JoinApplies, JoinNets};
ghost use Rattle.cs_apply_conflict_kinds.specs.NumberingLaw.{NumberingDoes};

/// A changeset has one result on a state, with the same choices for its conflicts.
pub fn applied_once_law()
    ensures { AppliedOnce }
{}

/// If a changeset has no conflict on a state, whose rows have NULL only where that is allowed, its inverse has none on
/// the result, and restores the state.
pub fn applied_reverts_law()
    ensures { AppliedReverts }
{}

/// The written keys and their previous rows determine each previous row.
pub fn written_tells_law()
    ensures { WrittenTells }
{}

/// The no-ops are: a delete without a row, an insert whose row exists, and an update of another row that has the new
/// values.
pub fn idle_law()
    ensures { IdleCases }
{}

/// An ignored entry leaves the current row unchanged.
pub fn ignored_law()
    ensures { IgnoredStand }
{}

/// If two changesets apply in turn, each without a conflict, their concatenation does so too, with the same result.
pub fn join_applies_law()
    ensures { JoinApplies }
{}

/// If two changesets have the net changes of two steps, their concatenation has those of both steps.
pub fn join_nets_law()
    ensures { JoinNets }
{}

/// A changeset does to every state what it does with its key columns numbered.
pub fn numbering_does_law()
    ensures { NumberingDoes }
{}
