//! A store in memory that is closed, and how it is closed and opened.
ghost use Rattle.std.specs.Prelude.{◌≡◌, IfErr, IfOk};
ghost use Rattle.cs_value.specs.State.{State};
ghost use Rattle.cs_rows.specs.Faults.{IsResource};
ghost use Rattle.cs_store_memory.specs.Memory.{HasTables};
ghost use Rattle.cs_calls_memory.specs.Hosting.{Closes, HasInside, HoldsIn, Opens, image_of};

use crate::files::{copied, files_of, open_copy, without_log};
use cs_calls::Service;
use cs_session::Session;
use cs_store::StoreError;
use cs_store_memory::MemoryFile;
use sqlite::{FileStore, Files};
use std::alloc::Global;

/// A store that is closed: its files, and the session of its host, if one is open.
#[derive(Drop)]
pub struct ClosedStore {
    pub(crate) files: Files<MemoryFile>,
    pub(crate) session: Option<Session>,
}

impl ClosedStore {
    /// Returns a store without tables, and no session.
    pub(crate) fn new(alloc: Global) -> ClosedStore {
        let files = Files {
            log: MemoryFile::new(alloc),
            db: MemoryFile::new(alloc),
        };
        ClosedStore {
            files,
            session: None,
        }
    }

    /// Closes the store of a service, or returns the service if a transaction is open.
    pub(crate) fn of(
        service: Service<FileStore<MemoryFile>>,
    ) -> Result<ClosedStore, Service<FileStore<MemoryFile>>>
        ensures closed { IfOk result (Closes service) }
        ensures inside { IfErr result (λ same. (same ≡ service) × HasInside service) }
    {
        match service {
            Service::AtRest { store, session } => Ok(ClosedStore {
                files: files_of(store),
                session,
            }),
            service => Err(service),
        }
    }

    /// Returns a service of the store. After an error the store is as it was.
    ///
    /// # Errors
    ///
    /// `StoreFault` if the database refuses, also if memory runs out as a file grows, and `NoMemory` if memory runs out
    /// elsewhere.
    pub(crate) fn open(
        self,
        alloc: Global,
    ) -> Result<Service<FileStore<MemoryFile>>, (StoreError, ClosedStore)>
        ensures opened { IfOk result (Opens self) }
        ensures refused { (held : State) → HoldsIn held (image_of self.files) → IfErr result (λ e. IsResource e.0) }
        ensures same { IfErr result (λ e. e.1 ≡ self) }
    {
        match open_copy(alloc, &self.files) {
            Ok(store) => Ok(Service::AtRest {
                store,
                session: self.session,
            }),
            Err(error) => Err((error, self)),
        }
    }

    /// Returns the bytes of the store's database file, which has no log. The store stays closed.
    ///
    /// # Errors
    ///
    /// Those of [`open`](ClosedStore::open).
    pub(crate) fn save(self, alloc: Global) -> (ClosedStore, Result<Vec<u8>, StoreError>)
        ensures made { (held : State) → HoldsIn held (image_of self.files)
            → IfOk result.1 (λ bytes. HasTables held bytes.items) }
        ensures kept { (held : State) → HoldsIn held (image_of self.files)
            → HoldsIn held (image_of result.0.files) }
        ensures session { result.0.session ≡ self.session }
        ensures refused { (held : State) → HoldsIn held (image_of self.files) → IfErr result.1 IsResource }
    {
        let ClosedStore { files, session } = self;
        let (files, outcome) = without_log(alloc, files);
        if let Err(error) = outcome {
            return (ClosedStore { files, session }, Err(error));
        }
        let bytes = copied(alloc, files.db.as_slice());
        (ClosedStore { files, session }, bytes)
    }
}
