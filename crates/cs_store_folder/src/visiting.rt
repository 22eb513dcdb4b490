//! What a visit of a store in a file is.
ghost use Rattle.std.specs.Prelude.{◌≡◌, IfOk, IfErr, OnOk, OnErr};
ghost use Rattle.cs_store_folder.specs.Visits.{RefusesVisit, Visits};

use cs_folder::Folder;
use cs_store::{Store, StoreError};
use sqlite::Alter;
use std::alloc::Global;

/// What is done with a store.
pub trait Visitor {
    ghost use Rattle.cs_value.specs.State.{State};
    ghost use Rattle.sqlite.specs.Held.{state};
    ghost use Rattle.cs_store.specs.Turns.{Turns};

    // What it is before and after, and which tables it makes from which.
    ghost visits: { Self → Self → State → State → Type 0 };

    // What it is before and after, whatever the disk does.
    ghost does: { Self → Self → Type 0 };

    /// Works on a store in which no batch is open. While the store is open, and its disk returns what was written, it
    /// leaves none open, and keeps all of the database but the records.
    fn visit<S: Alter>(&mut self, alloc: Global, store: &mut Store<S>)
        ensures visited { Turns (state S.Store store.old) (state S.Store store.new) (visits self.old self.new) }
        ensures done { does self.old self.new };
}

/// A folder whose files can be stores.
pub trait StoreFolder: Folder {
    /// Opens the store in a file, has it visited, and closes it. A file that does not exist is created. Other tables of
    /// the database are kept. Returns why it was not closed: then a file in memory is as it was. One of the machine has
    /// what the visitor committed.
    ///
    /// # Errors
    ///
    /// `DamagedStore` if the file is a database that is no store; for files in memory it comes only then. `StoreFault`
    /// if it is no database or cannot be opened, and `NoMemory` if memory runs out. Then the visitor is not called.
    fn visit_store<V: Visitor>(
        &mut self,
        alloc: Global,
        name: &str,
        visitor: &mut V,
    ) -> Result<Result<(), StoreError>, StoreError>
        ensures visited { IfOk result (Visits (V.visits visitor.old visitor.new) (Self.Folder.files self.old) name.now
            (Self.Folder.files self.new)) }
        ensures done { OnOk result (V.does visitor.old visitor.new) }
        ensures refused { IfErr result (RefusesVisit (Self.Folder.files self.old) name.now) }
        ensures unvisited { OnErr result (visitor.new ≡ visitor.old) }
        ensures kept { OnErr result (Self.Folder.files self.new ≡ Self.Folder.files self.old) };
}
