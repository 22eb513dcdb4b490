//! A store in memory that answers calls.
ghost use Rattle.std.specs.Prelude.{◌≡◌, ◌⊎◌, Err, IfErr, IfOk, OnErr};
ghost use Rattle.cs_value.specs.State.{State};
ghost use Rattle.cs_rows.specs.Faults.{IsResource};
ghost use Rattle.cs_calls_answers.specs.declared.answer.Answer.TheVariants.{Refused as RefusedAnswer};
ghost use Rattle.cs_calls_answers.specs.Spelling.{answer_bytes};
ghost use Rattle.cs_calls_conversions.specs.Refusals.{of_error};
ghost use Rattle.cs_store_memory.specs.Memory.{FindsTables, HasTables, RefusesBytes};
ghost use Rattle.cs_calls_server.specs.Serving.{no_memory};
ghost use Rattle.cs_calls_memory.specs.declared.host.MemoryHost.TheVariants as kind;
ghost use Rattle.cs_calls_memory.specs.Hosting.{Answers, HasTransaction, IsOpenedFrom, Lasts, RefusesSaving, Settles, Shuts, Wakes, code_of, session_of};
ghost use Rattle.cs_calls_memory.specs.declared.host.SaveFault.TheVariants.{TransactionOpen as InTransaction};

use crate::closed::ClosedStore;
use crate::files::copy_of;
use cs_calls::{Answering, Host, Service, answer_call};
use cs_store::StoreError;
use cs_store_memory::{MemoryFile, open_file};
use cs_value::{Fault, NoMemory};
use sqlite::FileStore;
use std::alloc::Global;
use std::mem::replace;
use thiserror::Error;

/// A store in memory that answers calls, and the session of its host.
pub enum MemoryHost {
    /// The store is open.
    Open(Service<FileStore<MemoryFile>>),
    /// No transaction is open, and the next call opens the store.
    Closed(ClosedStore),
}

// It is written out, so that a caller does not prove again how each part is dropped.
impl Drop for MemoryHost {
    fn drop(self) {
        match self {
            MemoryHost::Open(_service) => {}
            MemoryHost::Closed(_closed) => {}
        }
    }
}

/// Why a store is not saved.
#[derive(Debug, Drop, Error)]
pub enum SaveFault {
    #[error("a transaction is open")]
    TransactionOpen,
    #[error("{0}")]
    Store(StoreError),
}

impl SaveFault {
    /// Returns its number: 95 while a transaction is open, or that of the store's error.
    pub fn code(&self) -> u8
        ensures { result ≡ code_of self.now }
    {
        match self {
            SaveFault::TransactionOpen => 95,
            SaveFault::Store(error) => error.code(),
        }
    }
}

/// The number of an answer that refuses a call.
const REFUSED: u8 = 11;

/// The code of a refusal by the database.
const STORE_FAULT: u8 = 38;

/// The code of a refusal since memory ran out.
const NO_MEMORY: u8 = 60;

/// Returns whether an answer says that the database refused or memory ran out, so that the store may be shut.
fn is_doubtful(answer: &Result<Vec<u8>, NoMemory>) -> bool {
    match answer {
        Ok(bytes) => {
            let bytes = bytes.as_slice();
            bytes.len() > 8
                && bytes[0] == REFUSED
                && (bytes[8] == STORE_FAULT || bytes[8] == NO_MEMORY)
        }
        Err(_) => true,
    }
}

/// Returns what is kept of a service after a call. A store that may be shut is closed, so that the next call opens it.
fn settle(service: Service<FileStore<MemoryFile>>, is_doubtful: bool) -> MemoryHost
    ensures { Settles service result }
{
    if !is_doubtful {
        return MemoryHost::Open(service);
    }
    match ClosedStore::of(service) {
        Ok(closed) => MemoryHost::Closed(closed),
        Err(service) => MemoryHost::Open(service),
    }
}

/// Returns the bytes of the answer of a store that is not open.
fn refuse(alloc: Global, error: StoreError, call: &[u8]) -> Result<Vec<u8>, NoMemory>
    ensures { IfOk result (λ sent. (sent.items ≡ answer_bytes (RefusedAnswer (of_error error)))
        ⊎ (sent.items ≡ no_memory)) }
{
    let mut closed: Host<FileStore<MemoryFile>> = Host::Closed(error);
    closed.answer(alloc, call)
}

impl MemoryHost {
    /// Opens the store in the bytes of a database file that has no log, or a new store if there are none.
    ///
    /// # Errors
    ///
    /// 37 DamagedStore only if the file is a database that is no store. 38 StoreFault if it is no database, or the
    /// database refuses, also if memory runs out as a file grows, and 60 NoMemory if memory runs out elsewhere.
    pub fn open(alloc: Global, file: &[u8]) -> Result<MemoryHost, StoreError>
        ensures opened { IfOk result (IsOpenedFrom file.now) }
        ensures found { (held : State) → FindsTables held file.now → IfOk result (λ host. Lasts host held) }
        ensures refused { IfErr result (RefusesBytes file.now) }
        ensures undamaged { (held : State) → FindsTables held file.now → IfErr result IsResource }
    {
        let db = match copy_of(alloc, file) {
            Ok(db) => db,
            Err(error) => return Err(error),
        };
        match open_file(alloc, db) {
            Ok(store) => {
                store.crash_law();
                Ok(MemoryHost::Open(Service::new(store)))
            }
            Err(error) => Err(error),
        }
    }

    /// Carries out the call that the bytes are, and returns the bytes of its answer, as [`answer_call`] does. A closed
    /// store is opened first. If that fails, the answer is a refusal with 38 StoreFault or 60 NoMemory, whatever the
    /// call is, and the store stays closed.
    ///
    /// # Errors
    ///
    /// `NoMemory` if out of memory. Then the answer is the refusal 60 NoMemory, and the call was not carried out, or it
    /// was refused.
    pub fn answer(&mut self, alloc: Global, call: &[u8]) -> Result<Vec<u8>, NoMemory>
        ensures answered { IfOk result (λ sent. Answers self.old call.now sent.items self.new) }
        ensures refused { OnErr result (Answers self.old call.now no_memory self.new) }
    {
        match self.take(alloc).wake(alloc) {
            Ok(service) => {
                let (service, answer) = answer_call(alloc, service, call);
                *self = settle(service, is_doubtful(&answer));
                answer
            }
            Err((error, closed)) => {
                *self = MemoryHost::Closed(closed);
                refuse(alloc, error, call)
            }
        }
    }

    /// Returns the bytes of a database file that has no log, with the tables of the store. The store keeps its tables
    /// and its session, and is closed.
    ///
    /// # Errors
    ///
    /// `TransactionOpen` while a transaction is open. `StoreFault` if the database refuses, also if memory runs out as
    /// a file grows, and `NoMemory` if memory runs out elsewhere. The store keeps its tables and its session.
    pub fn to_bytes(&mut self, alloc: Global) -> Result<Vec<u8>, SaveFault>
        ensures made { (held : State) → Lasts self.old held → IfOk result (λ bytes. HasTables held bytes.items) }
        ensures kept { (held : State) → Lasts self.old held → Lasts self.new held }
        ensures session { session_of self.new ≡ session_of self.old }
        ensures inside { HasTransaction self.old → (result ≡ Err InTransaction) × (self.new ≡ self.old) }
        ensures outside { HasTransaction self.new → HasTransaction self.old }
        ensures busy { result ≡ Err InTransaction → HasTransaction self.old }
        ensures refused { (held : State) → Lasts self.old held → IfErr result (RefusesSaving self.old) }
    {
        match self.take(alloc).close() {
            Ok(closed) => {
                let (closed, saved) = closed.save(alloc);
                *self = MemoryHost::Closed(closed);
                match saved {
                    Ok(bytes) => Ok(bytes),
                    Err(error) => Err(SaveFault::Store(error)),
                }
            }
            Err(service) => {
                *self = MemoryHost::Open(service);
                Err(SaveFault::TransactionOpen)
            }
        }
    }

    /// Takes the store, and leaves one without tables.
    fn take(&mut self, alloc: Global) -> MemoryHost
        ensures { result ≡ self.old }
    {
        replace(self, MemoryHost::Closed(ClosedStore::new(alloc)))
    }

    /// Returns the service, which opens a closed store.
    fn wake(
        self,
        alloc: Global,
    ) -> Result<Service<FileStore<MemoryFile>>, (StoreError, ClosedStore)>
        ensures woken { IfOk result (Wakes self) }
        ensures refused { (held : State) → Lasts self held → IfErr result (λ e. IsResource e.0) }
        ensures same { IfErr result (λ e. kind.Closed e.1 ≡ self) }
    {
        match self {
            MemoryHost::Open(service) => Ok(service),
            MemoryHost::Closed(closed) => closed.open(alloc),
        }
    }

    /// Closes the store, or returns the service if a transaction is open.
    fn close(self) -> Result<ClosedStore, Service<FileStore<MemoryFile>>>
        ensures closed { IfOk result (Shuts self) }
        ensures inside { IfErr result (λ service. (kind.Open service ≡ self) × HasTransaction self) }
    {
        match self {
            MemoryHost::Open(service) => ClosedStore::of(service),
            MemoryHost::Closed(closed) => Ok(closed),
        }
    }
}
