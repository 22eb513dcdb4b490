//! Vollikash for C, and for every language that calls C: the calls that take and make bytes.
//!
//! `bindings/c/vollikash.h` declares each export and says what C has to keep to. A slice crosses as a
//! pointer and a length, and the allocator, which has no bytes, is no parameter in C. Only a `Handle`
//! keeps anything, until it is closed. What another call makes goes into the caller's buffer, and
//! what it took is freed when it returns.
//!
//! Where the buffer is too small nothing is written to it, and `written` has the length that is
//! needed. `answer` has what is answered and reported.
#![tactic(auto)]

ghost use Rattle.std.specs.Prelude.{◌≡◌, ◌≢◌, ◌+◌, ◌≤◌, length, pos};
ghost use Rattle.cs_wire.specs.Changeset.{IsAccepted};
ghost use Rattle.cs_files.specs.Files.{Inverts, Joins, Numbers, Prints, JoinFails, FirstFails};
ghost use Rattle.cs_files.specs.Texts.{dump_of, sql_of};
ghost use Rattle.vollikash.specs.Answers.{Gives, Lacks, ReportsFault, IsMadeCode, IsRefusal, no_fault};

mod answer;
mod group;
mod handle;
mod held;
mod iterator;
mod many;
mod message;
mod store;

pub use answer::{DONE, FaultReport, NO_ROOM, NOT_OPEN, OK, RANGE};
use answer::{hand_out, report, report_plain};
use cs_file_scan::Tables;
use cs_files::{concat_bytes, dump_file, first_fault, invert_bytes, number_keys_bytes, sql_file};
pub use group::{
    vollikash_group_add, vollikash_group_close, vollikash_group_limit, vollikash_group_output,
};
pub use handle::Handle;
pub use iterator::{vollikash_next, vollikash_value, vollikash_values};
pub use many::{vollikash_concat_many, vollikash_select};
pub use message::vollikash_message;
use std::alloc::Global;
pub use store::{
    vollikash_store_answer, vollikash_store_call, vollikash_store_close, vollikash_store_open,
    vollikash_store_save,
};

/// The version of the library, as one number: a million times the major one, a thousand times the minor one,
/// and the patch.
#[unsafe(no_mangle)]
pub extern "C" fn vollikash_version() -> i32
    ensures { result ≡ pos 1000000 }
{
    1_000_000
}

/// Whether the bytes are a changeset's file.
///
/// It answers `OK`, or the number of what is wrong with the file, or that memory was refused. `fault` has
/// the number, the file and the place.
#[unsafe(no_mangle)]
pub extern "C" fn vollikash_check(alloc: Global, file: &[u8], fault: &mut FaultReport) -> i32
    ensures accepted { result ≡ OK → IsAccepted file.now }
    ensures refused { result ≢ OK → ReportsFault (FirstFails file.now) fault.new 0 }
    ensures code { fault.new.code ≡ result }
    ensures plain { IsMadeCode result → fault.new ≡ no_fault result }
{
    *fault = match Tables::read(alloc, file) {
        Ok(_) => report_plain(OK),
        Err(error) => report(&first_fault(error)),
    };
    fault.code
}

/// Puts the file of the changeset that undoes the one of this file into `out`, and its length, which
/// is that of the file, into `written`.
///
/// It answers `OK`, `NO_ROOM`, or the number of what is wrong with the file, or that memory was refused.
#[unsafe(no_mangle)]
pub extern "C" fn vollikash_invert(
    alloc: Global,
    file: &[u8],
    out: &mut [u8],
    written: &mut usize,
    fault: &mut FaultReport,
) -> i32
    ensures inverted { result ≡ OK → Gives (Inverts file.now) out.old out.new written.new }
    ensures room { result ≡ NO_ROOM → Lacks (Inverts file.now) out.old written.new }
    ensures enough { length file.now ≤ length out.old → result ≢ NO_ROOM }
    ensures refused { IsRefusal result → ReportsFault (FirstFails file.now) fault.new written.new }
    ensures same { result ≢ OK → out.new ≡ out.old }
    ensures code { fault.new.code ≡ result }
    ensures plain { IsMadeCode result → fault.new ≡ no_fault result }
{
    let inverse = invert_bytes(alloc, file).map_err(|error| first_fault(error));
    hand_out(inverse, out, written, fault)
}

/// Puts the file of the changeset that does what the one of the first file does and then what that of
/// the second does into `out`, and its length, which is at most that of both, into `written`.
///
/// It answers `OK`, `NO_ROOM`, or the number of what is wrong with a file or that a table differs, or
/// that memory was refused.
#[unsafe(no_mangle)]
pub extern "C" fn vollikash_concat(
    alloc: Global,
    first: &[u8],
    second: &[u8],
    out: &mut [u8],
    written: &mut usize,
    fault: &mut FaultReport,
) -> i32
    ensures joined { result ≡ OK → Gives (Joins first.now second.now) out.old out.new written.new }
    ensures room { result ≡ NO_ROOM → Lacks (Joins first.now second.now) out.old written.new }
    ensures enough { length first.now + length second.now ≤ length out.old → result ≢ NO_ROOM }
    ensures refused { IsRefusal result → ReportsFault (JoinFails first.now second.now) fault.new written.new }
    ensures same { result ≢ OK → out.new ≡ out.old }
    ensures code { fault.new.code ≡ result }
    ensures plain { IsMadeCode result → fault.new ≡ no_fault result }
{
    hand_out(concat_bytes(alloc, first, second), out, written, fault)
}

/// Puts the file of the changeset of this file with the columns of each key numbered, as SQLite numbers them, into
/// `out`, and its length, which is that of the file, into `written`.
///
/// It answers `OK`, `NO_ROOM`, or the number of what is wrong with the file, or that memory was refused.
#[unsafe(no_mangle)]
pub extern "C" fn vollikash_number_keys(
    alloc: Global,
    file: &[u8],
    out: &mut [u8],
    written: &mut usize,
    fault: &mut FaultReport,
) -> i32
    ensures numbered { result ≡ OK → Gives (Numbers file.now) out.old out.new written.new }
    ensures room { result ≡ NO_ROOM → Lacks (Numbers file.now) out.old written.new }
    ensures enough { length file.now ≤ length out.old → result ≢ NO_ROOM }
    ensures refused { IsRefusal result → ReportsFault (FirstFails file.now) fault.new written.new }
    ensures same { result ≢ OK → out.new ≡ out.old }
    ensures code { fault.new.code ≡ result }
    ensures plain { IsMadeCode result → fault.new ≡ no_fault result }
{
    let numbered = number_keys_bytes(alloc, file).map_err(|error| first_fault(error));
    hand_out(numbered, out, written, fault)
}

/// Puts what the changeset of this file holds into `out`, for a reader, a line for each table and for each
/// entry, and the length of that text into `written`.
///
/// It answers `OK`, `NO_ROOM`, or the number of what is wrong with the file, or that memory was refused.
#[unsafe(no_mangle)]
pub extern "C" fn vollikash_dump(
    alloc: Global,
    file: &[u8],
    out: &mut [u8],
    written: &mut usize,
    fault: &mut FaultReport,
) -> i32
    ensures printed { result ≡ OK → Gives (Prints dump_of file.now) out.old out.new written.new }
    ensures room { result ≡ NO_ROOM → Lacks (Prints dump_of file.now) out.old written.new }
    ensures refused { IsRefusal result → ReportsFault (FirstFails file.now) fault.new written.new }
    ensures same { result ≢ OK → out.new ≡ out.old }
    ensures code { fault.new.code ≡ result }
    ensures plain { IsMadeCode result → fault.new ≡ no_fault result }
{
    hand_out(dump_file(alloc, file), out, written, fault)
}

/// Puts what the changeset of this file does into `out` as SQL, for a reader, a statement for each entry,
/// and the length of that text into `written`.
///
/// It answers `OK`, `NO_ROOM`, or the number of what is wrong with the file, or that memory was refused.
#[unsafe(no_mangle)]
pub extern "C" fn vollikash_sql(
    alloc: Global,
    file: &[u8],
    out: &mut [u8],
    written: &mut usize,
    fault: &mut FaultReport,
) -> i32
    ensures printed { result ≡ OK → Gives (Prints sql_of file.now) out.old out.new written.new }
    ensures room { result ≡ NO_ROOM → Lacks (Prints sql_of file.now) out.old written.new }
    ensures refused { IsRefusal result → ReportsFault (FirstFails file.now) fault.new written.new }
    ensures same { result ≢ OK → out.new ≡ out.old }
    ensures code { fault.new.code ≡ result }
    ensures plain { IsMadeCode result → fault.new ≡ no_fault result }
{
    hand_out(sql_file(alloc, file), out, written, fault)
}
