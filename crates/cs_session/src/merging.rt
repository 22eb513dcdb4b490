//! Notes that a session merges: what another session noted of a transaction that is to be committed.
ghost use Rattle.std.specs.Prelude.{◌≡◌, ◌⊎◌, map, IfOk, IfErr, OnOk};
ghost use Rattle.cs_rows.specs.Editing.{written_of};
ghost use Rattle.cs_session_notes.specs.declared.fault.SessionFault.TheVariants.{NoMemory as OutOfMemory};
ghost use Rattle.cs_session_notes.specs.FirstImages.{recorded};
ghost use Rattle.cs_session_notes.specs.Merging.{all_noted, unwritten};
ghost use Rattle.cs_session_notes.specs.Noting.{AreFormers, IsDamage};

use crate::session::Session;
use cs_session_notes::{AttachedTables, SessionFault};
use cs_store::Written;
use cs_value::NoMemory;
use std::alloc::Global;
use std::marker::Model;

/// A session that has merged the notes of another one, before it is known whether those writes last.
///
/// [`keep`](MergedSession::keep) is for a transaction that was committed, and [`forget`](MergedSession::forget)
/// for one that was not. Dropping it drops the session. Contracts see the notes that each of them returns.
#[derive(Debug, Drop)]
pub struct MergedSession {
    tables: AttachedTables,
}

impl Model for MergedSession {
    ghost use Rattle.std.specs.Prelude.{map};
    ghost use Rattle.cs_session_notes.specs.FirstImages.{IsNotes};
    ghost use Rattle.cs_session_notes.specs.Views.{attached_of, kept_of};
    ghost use Rattle.cs_session.specs.Merged.{MergedNotes};

    ghost Value = { MergedNotes };

    ghost view = { λ s. record { kept = map kept_of s.tables; all = map attached_of s.tables } };

    ghost invariant = { λ s. IsNotes (map kept_of s.tables) × IsNotes (map attached_of s.tables) };
}

impl Session {
    /// Returns a session with the same attached tables, to which nothing was written.
    ///
    /// If it notes all that a transaction writes, from its beginning, its net changeset is the transaction's.
    ///
    /// # Errors
    ///
    /// `NoMemory` if out of memory.
    pub fn unwritten(&self, alloc: Global) -> Result<Session, NoMemory>
        ensures { IfOk result (λ s. s ≡ map unwritten self.now) }
    {
        let tables = AttachedTables::unwritten(alloc, self.tables.as_slice())?;
        Ok(Session { tables })
    }

    /// Notes keys that were written, each with the row from before, where their table is attached and they are not
    /// noted yet.
    ///
    /// Call it in place of [`merge`](Session::merge) for the writes themselves, as
    /// [`Transaction::edit`](cs_store::Transaction::edit) and a report return them.
    ///
    /// # Errors
    ///
    /// They come with the session as it was. `NoMemory` if out of memory, and
    /// [`DamagedStore`](cs_store::StoreError::DamagedStore) if a row from before cannot be of the table that is
    /// attached under the name.
    pub fn note(
        self,
        alloc: Global,
        written: &[Written],
    ) -> Result<MergedSession, (SessionFault, Session)>
        ensures noted { IfOk result (λ s. s
            ≡ record { kept = self; all = recorded self (map written_of written.now) }) }
        ensures formers { OnOk result (AreFormers self (map written_of written.now)) }
        ensures refused { IfErr result (λ e. (e.0 ≡ OutOfMemory)
            ⊎ (IsDamage e.0 × ¬ AreFormers self (map written_of written.now))) }
        ensures same { IfErr result (λ e. e.1 ≡ self) }
    {
        let Session { mut tables } = self;
        match tables.note_all(alloc, written) {
            Ok(()) => Ok(MergedSession { tables }),
            Err(fault) => {
                tables.settle(false);
                Err((fault, Session { tables }))
            }
        }
    }

    /// Merges the notes of another session: for each table that is attached here too, each key that is not noted here
    /// yet, with the other session's first row.
    ///
    /// Call it after the last write of a transaction and before its commit: it can run out of memory, and `keep` and
    /// `forget` cannot fail. If the other session was [`unwritten`](Session::unwritten) of this one as the transaction
    /// began, and noted all that was written in it, this one then restores what it restored before
    /// ([`merge_law`](crate::merge_law)).
    ///
    /// # Errors
    ///
    /// They come with the session as it was. `NoMemory` if out of memory, and
    /// [`DamagedStore`](cs_store::StoreError::DamagedStore) if a row that the other session noted cannot be of the
    /// table that is attached here under the same name.
    pub fn merge(
        self,
        alloc: Global,
        other: &Session,
    ) -> Result<MergedSession, (SessionFault, Session)>
        ensures merged { IfOk result (λ s. s ≡ record { kept = self; all = recorded self (all_noted other.now) }) }
        ensures formers { OnOk result (AreFormers self (all_noted other.now)) }
        ensures refused { IfErr result (λ e. (e.0 ≡ OutOfMemory)
            ⊎ (IsDamage e.0 × ¬ AreFormers self (all_noted other.now))) }
        ensures same { IfErr result (λ e. e.1 ≡ self) }
    {
        let Session { mut tables } = self;
        match tables.note_tables(alloc, other.tables.as_slice()) {
            Ok(()) => Ok(MergedSession { tables }),
            Err(fault) => {
                tables.settle(false);
                Err((fault, Session { tables }))
            }
        }
    }
}

impl MergedSession {
    /// Returns the session with the notes of both. It takes no memory.
    pub fn keep(self) -> Session
        ensures { result ≡ self.all }
    {
        let MergedSession { mut tables } = self;
        tables.settle(true);
        Session { tables }
    }

    /// Returns the session as it was before the merge. It takes no memory.
    pub fn forget(self) -> Session
        ensures { result ≡ self.kept }
    {
        let MergedSession { mut tables } = self;
        tables.settle(false);
        Session { tables }
    }
}
