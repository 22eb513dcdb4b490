//! What holds of each apply with choices for the conflicts of its rehearsal. A law is a function without effect: its
//! contract states the law, and a caller that needs it calls it.
ghost use Rattle.cs_apply_rehearsal.specs.Laws.{RehearsalEnds, RehearsalTells};

use cs_wire::changeset_files_law;

/// Has no effect. Its contract says which conflicts an apply has with choices for those of its rehearsal.
///
/// `tells`: exactly the conflicts of the rehearsal, with their choices, in order, less each CONSTRAINT after a conflict
/// of the same entry that was not replaced. `ends`: if a choice ends the apply, it is that for a conflict of the
/// rehearsal.
pub fn rehearsal_law()
    ensures tells { RehearsalTells }
    ensures ends { RehearsalEnds }
{
    changeset_files_law();
}
