//! A concatenation that C keeps, and adds files to.
ghost use Rattle.std.specs.Prelude.{◌≡◌, ◌≢◌, ◌+◌, ◌≤◌, IfErr, IfOk, List, None, OnErr, OnOk, length, pos};
ghost use Rattle.cs_value.specs.declared.refusal.OrNoMemory.TheVariants.{NoMemory as OutOfMemory};
ghost use Rattle.cs_value.specs.Refusals.{Refuses, of_refusal};
ghost use Rattle.cs_wire.specs.Changeset.{GroupData, file_bytes};
ghost use Rattle.cs_files.specs.Faults.{code_of};
ghost use Rattle.cs_changegroup.specs.Adding.{AddFails};
ghost use Rattle.vollikash.specs.Answers.{Gives, Lacks, ReportsFileFault, IsMadeCode, IsRefusal, file_among, no_fault, place_of};
ghost use Rattle.vollikash.specs.Groups.{AddFailsAt, AddsTo, GroupHas, limit_of};
ghost use Rattle.vollikash.specs.declared.answer.TheConstants.{NO_ROOM};

use crate::answer::{FaultReport, OK, hand_out, report, report_plain};
use crate::handle::Handle;
use crate::held::Held;
use cs_changegroup::Changegroup;
use cs_files::ToolFault;
use std::alloc::Global;

/// Adds a file to a group: the group does what it did, and then what the file does.
///
/// It answers `OK`, or the number of what is wrong with the file or that a table differs, or that memory was refused;
/// then the group has what it had. `fault` has file 1 for a fault of the file.
#[unsafe(no_mangle)]
pub extern "C" fn vollikash_group_add(
    alloc: Global,
    group: &mut Handle,
    file: &[u8],
    fault: &mut FaultReport,
) -> i32
    ensures added { (groups : List GroupData) → GroupHas group.old.value groups
        → result ≡ OK → AddsTo groups file.now group.new.value }
    ensures refused { (groups : List GroupData) → GroupHas group.old.value groups
        → result ≢ OK → ReportsFileFault (AddFailsAt groups file.now) fault.new 0 }
    ensures same { (groups : List GroupData) → GroupHas group.old.value groups
        → result ≢ OK → GroupHas group.new.value groups }
    ensures limit { result ≡ OK → limit_of group.new.value ≡ limit_of group.old.value + length file.now }
    ensures same_limit { result ≢ OK → limit_of group.new.value ≡ limit_of group.old.value }
    ensures code { fault.new.code ≡ result }
    ensures plain { result ≡ OK → fault.new ≡ no_fault OK }
{
    *fault = match add(alloc, group, file) {
        Ok(()) => report_plain(OK),
        Err(error) => report_of_file(&error),
    };
    fault.code
}

/// Returns how many bytes are enough for the file of a group: those of the files that were added.
#[unsafe(no_mangle)]
pub extern "C" fn vollikash_group_limit(group: &mut Handle) -> usize
    ensures limit { result ≡ limit_of group.old.value }
    ensures same { group.new ≡ group.old }
{
    if group.is_null() {
        return 0;
    }
    group.as_mut().group.limit()
}

/// Puts the file of the concatenation of the files that were added into `out`, and its length, which is at most
/// that of all of them, into `written`. The group stays, and more files can be added.
///
/// It answers `OK`, `NO_ROOM`, or that memory was refused.
#[unsafe(no_mangle)]
pub extern "C" fn vollikash_group_output(
    alloc: Global,
    group: &mut Handle,
    out: &mut [u8],
    written: &mut usize,
    fault: &mut FaultReport,
) -> i32
    ensures made { (groups : List GroupData) → GroupHas group.old.value groups
        → result ≡ OK → Gives (λ bytes. bytes ≡ file_bytes groups) out.old out.new written.new }
    ensures room { (groups : List GroupData) → GroupHas group.old.value groups
        → result ≡ NO_ROOM → Lacks (λ bytes. bytes ≡ file_bytes groups) out.old written.new }
    ensures enough { (groups : List GroupData) → GroupHas group.old.value groups
        → limit_of group.old.value ≤ length out.old → result ≢ NO_ROOM }
    ensures refused { IsRefusal result → (fault.new ≡ no_fault (pos 60)) × (written.new ≡ 0) }
    ensures kept { (groups : List GroupData) → GroupHas group.old.value groups → GroupHas group.new.value groups }
    ensures limit { limit_of group.new.value ≡ limit_of group.old.value }
    ensures same { result ≢ OK → out.new ≡ out.old }
    ensures code { fault.new.code ≡ result }
    ensures plain { IsMadeCode result → fault.new ≡ no_fault result }
{
    hand_out(bytes_of(alloc, group), out, written, fault)
}

/// Frees a group, which then has no files, and can be used anew.
#[unsafe(no_mangle)]
pub extern "C" fn vollikash_group_close(alloc: Global, group: &mut Handle)
    ensures { group.new.value ≡ None }
{
    group.free(alloc);
}

/// Adds a file to a group. A refusal leaves what the group has.
fn add(alloc: Global, group: &mut Handle, file: &[u8]) -> Result<(), ToolFault>
    ensures added { (groups : List GroupData) → GroupHas group.old.value groups
        → OnOk result (AddsTo groups file.now group.new.value) }
    ensures refused { (groups : List GroupData) → GroupHas group.old.value groups
        → IfErr result (Refuses (AddFails groups file.now)) }
    ensures same { (groups : List GroupData) → GroupHas group.old.value groups
        → OnErr result (GroupHas group.new.value groups) }
    ensures limit { OnOk result (limit_of group.new.value ≡ limit_of group.old.value + length file.now) }
    ensures same_limit { OnErr result (limit_of group.new.value ≡ limit_of group.old.value) }
{
    if group.is_null() {
        let held = Held {
            group: Changegroup::new(alloc),
            store: None,
        };
        match Box::new(alloc, held) {
            Ok(held) => *group = Handle::of(held),
            Err(_) => return Err(ToolFault::NoMemory),
        }
    }
    group.as_mut().group.add(alloc, file)
}

/// Returns the file of the concatenation of the files that were added to a group.
fn bytes_of(alloc: Global, group: &mut Handle) -> Result<Vec<u8>, ToolFault>
    ensures file { (groups : List GroupData) → GroupHas group.old.value groups
        → IfOk result (λ out. out.items ≡ file_bytes groups) }
    ensures length { (groups : List GroupData) → GroupHas group.old.value groups
        → IfOk result (λ out. length out.items ≤ limit_of group.old.value) }
    ensures memory { IfErr result (λ error. error ≡ OutOfMemory) }
    ensures kept { (groups : List GroupData) → GroupHas group.old.value groups → GroupHas group.new.value groups }
    ensures limit { limit_of group.new.value ≡ limit_of group.old.value }
{
    if group.is_null() {
        return Ok(Vec::new(alloc));
    }
    match group.as_mut().group.to_bytes(alloc) {
        Ok(bytes) => Ok(bytes),
        Err(_) => Err(ToolFault::NoMemory),
    }
}

/// The report of a file that is not added.
fn report_of_file(error: &ToolFault) -> FaultReport
    ensures { result ≡ record {
      code = pos (of_refusal code_of 60 error.now);
      file = file_among 0 error.now;
      place = place_of error.now;
    } }
{
    let file = match error {
        ToolFault::Fault(_) => 1,
        ToolFault::NoMemory => 0,
    };
    FaultReport {
        file,
        ..report(error)
    }
}
