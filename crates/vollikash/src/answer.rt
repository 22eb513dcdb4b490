//! What a call answers to C.
ghost use Rattle.std.specs.Prelude.{◌≡◌, ◌≢◌, IfOk};
ghost use Rattle.vollikash.specs.Answers.{IsMade, IsWhy, Gives, Lacks, ReportsFault, IsMadeCode, IsRefusal};
ghost use Rattle.vollikash.specs.Answers.{no_fault, report_of};

use cs_files::{FileFault, ToolFault};
use cs_value::Fault;

/// The call did what it was asked for.
pub const OK: i32 = 0;

/// The caller's buffer is too small.
pub const NO_ROOM: i32 = 80;

/// The iterator is after the last change.
pub const DONE: i32 = 81;

/// An argument is out of range.
pub const RANGE: i32 = 82;

/// The store is not open.
pub const NOT_OPEN: i32 = 83;

/// What a call reports of itself.
#[repr(C)]
#[derive(Clone, Copy, Debug, PartialEq, Eq)]
pub struct FaultReport {
    /// What the call answers.
    pub code: i32,
    /// The file that has the fault, counted from 1, or 0 if none has it.
    pub file: i32,
    /// Where the fault is: a count of bytes from the start of the file, or of groups where a table
    /// differs.
    pub place: usize,
}

/// The report of a call that no file refuses.
pub(crate) fn report_plain(code: i32) -> FaultReport
    ensures { result ≡ no_fault code }
{
    FaultReport {
        code,
        file: 0,
        place: 0,
    }
}

/// The report of a refusal.
pub(crate) fn report(refusal: &ToolFault) -> FaultReport
    ensures { result ≡ report_of refusal.now }
{
    let (file, place) = match refusal {
        ToolFault::Fault(FileFault::First(fault)) => (1, fault.place),
        ToolFault::Fault(FileFault::Second(fault)) => (2, fault.place),
        ToolFault::Fault(FileFault::Schema(fault)) => (2, fault.place),
        ToolFault::NoMemory => (0, 0),
    };
    FaultReport {
        code: i32::from(refusal.code()),
        file,
        place,
    }
}

/// Puts bytes into the caller's buffer if there is room for them, and their number into `written`.
pub(crate) fn give(bytes: &[u8], out: &mut [u8], written: &mut usize) -> i32
    ensures given { result ≡ OK → Gives (λ made. made ≡ bytes.now) out.old out.new written.new }
    ensures room { result ≡ NO_ROOM → Lacks (λ made. made ≡ bytes.now) out.old written.new }
    ensures same { result ≢ OK → out.new ≡ out.old }
    ensures code { IsMadeCode result }
{
    *written = bytes.len();
    if bytes.len() > out.len() {
        return NO_ROOM;
    }
    out[..bytes.len()].copy_from_slice(bytes);
    OK
}

/// Puts bytes into the caller's buffer where there is room for them, and says why there are none.
pub(crate) fn hand_out(
    made: Result<Vec<u8>, ToolFault>,
    out: &mut [u8],
    written: &mut usize,
    fault: &mut FaultReport,
) -> i32
    ensures made { IfOk made (λ _. IsMadeCode result) }
    ensures given { result ≡ OK → Gives (IsMade made) out.old out.new written.new }
    ensures room { result ≡ NO_ROOM → Lacks (IsMade made) out.old written.new }
    ensures refused { IsRefusal result → ReportsFault (IsWhy made) fault.new written.new }
    ensures same { result ≢ OK → out.new ≡ out.old }
    ensures code { fault.new.code ≡ result }
    ensures plain { IsMadeCode result → fault.new ≡ no_fault result }
{
    *fault = match made {
        Ok(bytes) => report_plain(give(&bytes, out, written)),
        Err(refusal) => {
            *written = 0;
            report(&refusal)
        }
    };
    fault.code
}
