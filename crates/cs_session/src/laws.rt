//! What holds of all runs of a session, and of merged notes. A law is a function without effect: its
//! contract states the law, and a caller that needs it calls it.
ghost use Rattle.cs_session_notes.specs.Merging.{MergeNotes, MergeRestores};
ghost use Rattle.cs_session.specs.Runs.{RowsFromBefore};

/// Has no effect. Its contract says that the rows from before of each attached table stay what they were as it was
/// attached, whatever is done with a session and its store. So that is what an undo restores.
pub fn runs_law()
    ensures { RowsFromBefore }
{}

/// Has no effect. Its contract says what a session restores and notes after it has merged the notes of another one
/// ([`Session::merge`](crate::Session::merge)).
///
/// `restores`: if the other session has each table of this one, and restores the rows from before a transaction, this
/// one restores now what it restored then. That holds if it was [`unwritten`](crate::Session::unwritten) of this one as
/// the transaction began, and noted all that was written. `notes`: such a session leaves here the notes of the writes
/// themselves.
pub fn merge_law()
    ensures restores { MergeRestores }
    ensures notes { MergeNotes }
{}
