//! Writing the parts of entries.
ghost use Rattle.std.specs.Prelude.{◌≡◌, ◌<◌, ◌++◌, ◌∷◌, [], if◌then◌else◌, OnErr, OnOk, drop, length, take};

use cs_value::NoMemory;

/// Appends the operation and the indirect flag of an entry.
pub(crate) fn write_operation(
    out: &mut Vec<u8>,
    operation: u8,
    indirect: bool,
) -> Result<(), NoMemory>
    ensures ok { OnOk result (out.new.items ≡ out.old.items ++ operation ∷ (if indirect then 1 else 0) ∷ []) }
    ensures err { OnErr result (take (length out.old.items) out.new.items ≡ out.old.items) }
{
    Ok(out.extend_from_slice(&[operation, u8::from(indirect)])?)
}

/// Appends the bytes of an entry, with this operation in place of its own.
pub(crate) fn write_with_operation(
    out: &mut Vec<u8>,
    entry: &[u8],
    operation: u8,
) -> Result<(), NoMemory>
    requires { 0 < length entry.now }
    ensures ok { OnOk result (out.new.items ≡ out.old.items ++ operation ∷ drop 1 entry.now) }
    ensures err { OnErr result (out.new.items ≡ out.old.items) }
{
    let start = out.len();
    out.extend_from_slice(entry)?;
    out[start] = operation;
    Ok(())
}

/// Cuts off what a failed write has left: the bytes from this offset on.
pub fn undo_refused(
    out: &mut Vec<u8>,
    start: usize,
    written: Result<(), NoMemory>,
) -> Result<(), NoMemory>
    ensures same { result ≡ written }
    ensures ok { OnOk result (out.new.items ≡ out.old.items) }
    ensures err { OnErr result (out.new.items ≡ take start out.old.items) }
{
    if written.is_err() {
        out.truncate(start);
    }
    written
}
