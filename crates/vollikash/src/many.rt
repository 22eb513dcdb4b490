//! The tables of a file that are named, and many files.
ghost use Rattle.std.specs.Prelude.{◌≡◌, ◌≢◌, ◌≤◌, length};
ghost use Rattle.cs_files.specs.Files.{FirstFails};
ghost use Rattle.cs_changegroup.specs.Chaining.{AreLengths, ChainFails, Chains, files_in};
ghost use Rattle.cs_files.specs.Selecting.{Selects};
ghost use Rattle.vollikash.specs.declared.answer.TheConstants.{OK, NO_ROOM};
ghost use Rattle.vollikash.specs.Answers.{Gives, Lacks, ReportsFault, ReportsFileFault, IsMadeCode, IsRefusal, file_number, no_fault};

use crate::answer::{FaultReport, RANGE, hand_out, report, report_plain};
use cs_changegroup::{ChainError, concat_all_bytes};
use cs_files::{ToolFault, first_fault, select_bytes};
use std::alloc::Global;

/// Puts the file of the tables that are named into `out`, and its length, which is at most that of the file, into
/// `written`. A zero byte is between two names, and may be after the last.
///
/// It answers `OK`, `NO_ROOM`, or the number of what is wrong with the file, or that memory was refused.
#[unsafe(no_mangle)]
pub extern "C" fn vollikash_select(
    alloc: Global,
    file: &[u8],
    names: &[u8],
    out: &mut [u8],
    written: &mut usize,
    fault: &mut FaultReport,
) -> i32
    ensures selected { result ≡ OK → Gives (Selects names.now file.now) out.old out.new written.new }
    ensures room { result ≡ NO_ROOM → Lacks (Selects names.now file.now) out.old written.new }
    ensures enough { length file.now ≤ length out.old → result ≢ NO_ROOM }
    ensures refused { IsRefusal result → ReportsFault (FirstFails file.now) fault.new written.new }
    ensures same { result ≢ OK → out.new ≡ out.old }
    ensures code { fault.new.code ≡ result }
    ensures plain { IsMadeCode result → fault.new ≡ no_fault result }
{
    let selected = select_bytes(alloc, file, names).map_err(|error| first_fault(error));
    hand_out(selected, out, written, fault)
}

/// Puts the file of the concatenation of many files into `out`, and its length, which is at most that of all, into
/// `written`. The files are in a buffer, one after the other, and have these lengths.
///
/// It answers `OK`, `NO_ROOM`, `RANGE` if the lengths do not add up to the bytes, or the number of what is wrong with a
/// file or that a table differs, or that memory was refused. `fault` has the file, counted from 1.
#[unsafe(no_mangle)]
pub extern "C" fn vollikash_concat_many(
    alloc: Global,
    files: &[u8],
    lengths: &[usize],
    out: &mut [u8],
    written: &mut usize,
    fault: &mut FaultReport,
) -> i32
    ensures joined { result ≡ OK → Gives (Chains (files_in files.now lengths.now)) out.old out.new written.new }
    ensures room { result ≡ NO_ROOM → Lacks (Chains (files_in files.now lengths.now)) out.old written.new }
    ensures enough { length files.now ≤ length out.old → result ≢ NO_ROOM }
    ensures whole { IsMadeCode result → AreLengths files.now lengths.now }
    ensures lengths { result ≡ RANGE → AreLengths files.now lengths.now → ⊥ }
    ensures range { result ≡ RANGE → (fault.new ≡ no_fault RANGE) × (written.new ≡ 0) }
    ensures refused { IsRefusal result → result ≢ RANGE
        → ReportsFileFault (ChainFails (files_in files.now lengths.now)) fault.new written.new }
    ensures same { result ≢ OK → out.new ≡ out.old }
    ensures code { fault.new.code ≡ result }
    ensures plain { IsMadeCode result → fault.new ≡ no_fault result }
{
    match concat_all_bytes(alloc, files, lengths) {
        Ok(joined) => hand_out(Ok(joined), out, written, fault),
        Err(ChainError::Lengths) => {
            *written = 0;
            *fault = report_plain(RANGE);
            RANGE
        }
        Err(ChainError::File { index, error }) => {
            *written = 0;
            let file = match error {
                ToolFault::Fault(_) => file_number_of(index),
                ToolFault::NoMemory => 0,
            };
            *fault = FaultReport {
                file,
                ..report(&error)
            };
            fault.code
        }
    }
}

/// The number of a file, counted from 1, as far as C's int goes.
fn file_number_of(index: usize) -> i32
    ensures { result ≡ file_number index }
{
    if index < 2_147_483_647 {
        index as i32 + 1
    } else {
        2_147_483_647
    }
}
