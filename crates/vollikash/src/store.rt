//! A store in memory that C keeps, and its calls.
ghost use Rattle.std.specs.Prelude.{◌≡◌, ◌≢◌, ◌⊎◌, [], IfErr, None, OnErr, OnOk, length, pos};
ghost use Rattle.cs_value.specs.State.{State};
ghost use Rattle.cs_rows.specs.Faults.{IsResource};
ghost use Rattle.cs_store_memory.specs.Memory.{FindsTables, HasTables, RefusesBytes};
ghost use Rattle.cs_calls_server.specs.Serving.{no_memory};
ghost use Rattle.cs_calls_memory.specs.Hosting.{Answers, HasTransaction, Lasts, RefusesSaving, code_of, session_of};
ghost use Rattle.vollikash.specs.Answers.{Gives, IsMadeCode, IsRefusal, Lacks, no_fault};
ghost use Rattle.vollikash.specs.Stores.{AnswersIn, HasTransactionIn, IsCallCode, IsTakeCode, LastsOf, OpensIn, RefusesOpening, RefusesSavingOf, answer_of, session_in_store, store_in};
ghost use Rattle.vollikash.specs.declared.answer.TheConstants.{NO_ROOM, NOT_OPEN, OK};

use crate::answer::{FaultReport, NOT_OPEN, OK, give, report_plain};
use crate::handle::Handle;
use crate::held::{Held, OpenStore};
use cs_calls_memory::MemoryHost;
use cs_changegroup::Changegroup;
use cs_store::StoreError;
use cs_value::Fault;
use std::alloc::Global;

/// Opens the store in the bytes of a database file that has no log, or a new store if there are none. What was open is
/// freed.
///
/// It answers `OK`, or 37 DamagedStore, 38 StoreFault or 60 NoMemory. After an error what was open stays.
#[unsafe(no_mangle)]
pub extern "C" fn vollikash_store_open(
    alloc: Global,
    store: &mut Handle,
    file: &[u8],
    fault: &mut FaultReport,
) -> i32
    ensures opened { result ≡ OK → OpensIn file.now (store_in store.new.value) }
    ensures found { (held : State) → FindsTables held file.now
        → result ≡ OK → LastsOf (store_in store.new.value) held }
    ensures refused { result ≢ OK → RefusesOpening file.now result }
    ensures undamaged { (held : State) → FindsTables held file.now → result ≢ pos 37 }
    ensures same { result ≢ OK → store.new.value ≡ store.old.value }
    ensures reported { fault.new ≡ no_fault result }
{
    match open(alloc, store, file) {
        Ok(()) => {
            *fault = report_plain(OK);
            OK
        }
        Err(error) => {
            *fault = report_plain(i32::from(error.code()));
            fault.code
        }
    }
}

/// Carries out a call, and keeps its answer until the next. `answered` gets its length.
///
/// It answers `OK`, `NOT_OPEN`, or 60 NoMemory. After 60 there is no answer, and the call was not carried out, or it was
/// refused.
#[unsafe(no_mangle)]
pub extern "C" fn vollikash_store_call(
    alloc: Global,
    store: &mut Handle,
    call: &[u8],
    answered: &mut usize,
) -> i32
    ensures answered { result ≡ OK
        → AnswersIn (store_in store.old.value) call.now (answer_of (store_in store.new.value)) (store_in store.new.value) }
    ensures refused { result ≡ pos 60
        → AnswersIn (store_in store.old.value) call.now no_memory (store_in store.new.value) }
    ensures codes { IsCallCode (store_in store.old.value) result }
    ensures closed { store_in store.old.value ≡ None → result ≡ NOT_OPEN }
    ensures same { result ≡ NOT_OPEN → store.new.value ≡ store.old.value }
    ensures cleared { result ≡ pos 60 → answer_of (store_in store.new.value) ≡ [] }
    ensures length { result ≡ OK → answered.new ≡ length (answer_of (store_in store.new.value)) }
    ensures none { result ≢ OK → answered.new ≡ 0 }
{
    *answered = 0;
    if store.is_null() {
        return NOT_OPEN;
    }
    match &mut store.as_mut().store {
        Some(open) => open.call(alloc, call, answered),
        None => NOT_OPEN,
    }
}

/// Puts the answer to the last call into `out`, and its length into `written`. Before the first call, and after 60
/// NoMemory, it is empty.
///
/// It answers `OK`, `NO_ROOM` or `NOT_OPEN`.
#[unsafe(no_mangle)]
pub extern "C" fn vollikash_store_answer(
    store: &mut Handle,
    out: &mut [u8],
    written: &mut usize,
) -> i32
    ensures given { result ≡ OK
        → Gives (λ bytes. bytes ≡ answer_of (store_in store.old.value)) out.old out.new written.new }
    ensures room { result ≡ NO_ROOM
        → Lacks (λ bytes. bytes ≡ answer_of (store_in store.old.value)) out.old written.new }
    ensures codes { IsTakeCode (store_in store.old.value) result }
    ensures closed { store_in store.old.value ≡ None → result ≡ NOT_OPEN }
    ensures none { result ≡ NOT_OPEN → written.new ≡ 0 }
    ensures same { result ≢ OK → out.new ≡ out.old }
    ensures kept { store.new.value ≡ store.old.value }
{
    *written = 0;
    if store.is_null() {
        return NOT_OPEN;
    }
    match &store.as_mut().store {
        Some(open) => give(&open.answer, out, written),
        None => NOT_OPEN,
    }
}

/// Puts the bytes of a database file that has no log, with the tables of the store, into `out`, and their number into
/// `written`. The store stays open.
///
/// It answers `OK`, `NO_ROOM`, `NOT_OPEN`, 95 TransactionOpen while a transaction is open, 38 StoreFault or 60 NoMemory.
#[unsafe(no_mangle)]
pub extern "C" fn vollikash_store_save(
    alloc: Global,
    store: &mut Handle,
    out: &mut [u8],
    written: &mut usize,
) -> i32
    ensures made { (held : State) → LastsOf (store_in store.old.value) held
        → result ≡ OK → Gives (HasTables held) out.old out.new written.new }
    ensures room { (held : State) → LastsOf (store_in store.old.value) held
        → result ≡ NO_ROOM → Lacks (HasTables held) out.old written.new }
    ensures kept { (held : State) → LastsOf (store_in store.old.value) held
        → LastsOf (store_in store.new.value) held }
    ensures session { session_in_store (store_in store.new.value) ≡ session_in_store (store_in store.old.value) }
    ensures answer { answer_of (store_in store.new.value) ≡ answer_of (store_in store.old.value) }
    ensures inside { HasTransactionIn (store_in store.old.value)
        → (result ≡ pos 95) × (store.new.value ≡ store.old.value) }
    ensures refused { (held : State) → LastsOf (store_in store.old.value) held
        → IsRefusal result → RefusesSavingOf (store_in store.old.value) result }
    ensures closed { store_in store.old.value ≡ None → result ≡ NOT_OPEN }
    ensures none { IsRefusal result → written.new ≡ 0 }
    ensures same { result ≢ OK → out.new ≡ out.old }
{
    *written = 0;
    if store.is_null() {
        return NOT_OPEN;
    }
    match &mut store.as_mut().store {
        Some(open) => open.save(alloc, out, written),
        None => NOT_OPEN,
    }
}

/// Frees a store. The handle can be used anew.
#[unsafe(no_mangle)]
pub extern "C" fn vollikash_store_close(alloc: Global, store: &mut Handle)
    ensures { store.new.value ≡ None }
{
    store.free(alloc);
}

/// Opens a store in a handle. After an error, of [`vollikash_store_open`], what was open stays.
fn open(alloc: Global, store: &mut Handle, file: &[u8]) -> Result<(), StoreError>
    ensures opened { OnOk result (OpensIn file.now (store_in store.new.value)) }
    ensures found { (held : State) → FindsTables held file.now
        → OnOk result (LastsOf (store_in store.new.value) held) }
    ensures refused { IfErr result (RefusesBytes file.now) }
    ensures undamaged { (held : State) → FindsTables held file.now → IfErr result IsResource }
    ensures same { OnErr result (store.new.value ≡ store.old.value) }
{
    let host = match MemoryHost::open(alloc, file) {
        Ok(host) => host,
        Err(error) => return Err(error),
    };
    let opened = Some(OpenStore {
        host,
        answer: Vec::new(alloc),
    });
    if !store.is_null() {
        store.as_mut().store = opened;
        return Ok(());
    }
    let held = Held {
        group: Changegroup::new(alloc),
        store: opened,
    };
    match Box::new(alloc, held) {
        Ok(held) => *store = Handle::of(held),
        Err(_) => return Err(StoreError::NoMemory),
    }
    Ok(())
}

impl OpenStore {
    /// Carries out a call, and keeps its answer.
    fn call(&mut self, alloc: Global, call: &[u8], answered: &mut usize) -> i32
        ensures answered { result ≡ OK → Answers self.old.host call.now self.new.answer.items self.new.host }
        ensures refused { result ≢ OK → (result ≡ pos 60) × Answers self.old.host call.now no_memory self.new.host }
        ensures codes { (result ≡ OK) ⊎ (result ≡ pos 60) }
        ensures cleared { result ≢ OK → self.new.answer.items ≡ [] }
        ensures length { answered.new ≡ length self.new.answer.items }
        ensures none { result ≢ OK → answered.new ≡ 0 }
    {
        match self.host.answer(alloc, call) {
            Ok(answer) => {
                *answered = answer.len();
                self.answer = answer;
                OK
            }
            Err(error) => {
                *answered = 0;
                self.answer.clear();
                i32::from(error.code())
            }
        }
    }

    /// Puts the bytes of the store's file into a buffer. The errors are those of [`MemoryHost::to_bytes`].
    fn save(&mut self, alloc: Global, out: &mut [u8], written: &mut usize) -> i32
        ensures made { (held : State) → Lasts self.old.host held
            → result ≡ OK → Gives (HasTables held) out.old out.new written.new }
        ensures room { (held : State) → Lasts self.old.host held
            → result ≡ NO_ROOM → Lacks (HasTables held) out.old written.new }
        ensures kept { (held : State) → Lasts self.old.host held → Lasts self.new.host held }
        ensures refused { (held : State) → Lasts self.old.host held → IsRefusal result
            → (fault : _) × RefusesSaving self.old.host fault × (result ≡ pos (code_of fault)) }
        ensures session { session_of self.new.host ≡ session_of self.old.host }
        ensures answer { self.new.answer ≡ self.old.answer }
        ensures inside { HasTransaction self.old.host → (result ≡ pos 95) × (self.new ≡ self.old) }
        ensures none { IsRefusal result → written.new ≡ 0 }
        ensures same { result ≢ OK → out.new ≡ out.old }
        ensures open { result ≢ NOT_OPEN }
    {
        match self.host.to_bytes(alloc) {
            Ok(bytes) => give(&bytes, out, written),
            Err(fault) => {
                *written = 0;
                i32::from(fault.code())
            }
        }
    }
}
