//! Calls, written as their bytes.
ghost use Rattle.std.specs.Prelude.{◌≡◌, ◌≤◌, ◌++◌, length, OnOk, OnErr, take};
ghost use Rattle.cs_value.specs.declared.TheConstants.{MAX_CONTENT_LEN};
ghost use Rattle.cs_value.specs.Spelling.{counted};
ghost use Rattle.cs_calls_parts.specs.Spelling.{row_bytes, noop_bytes};
ghost use Rattle.cs_calls_requests.specs.Spelling.{HasCounts, call_bytes, parts_of};

use crate::call::Call;
use crate::kind::number;
use cs_apply_engine::Noop;
use cs_calls_parts::{
    write_file, write_list, write_noop, write_option, write_policy, write_row, write_text,
};
use cs_value::{Bytes, NoMemory, Row, Text, varint_write};

/// Appends the bytes of a call. Its rows and lists have at most 2147483647 parts, and a limit is at most that.
/// [`NoMemory`] leaves `out` unchanged.
pub fn call_write(out: &mut Vec<u8>, call: &Call) -> Result<(), NoMemory>
    requires { HasCounts call.now }
    ensures ok { OnOk result (out.new.items ≡ out.old.items ++ call_bytes call.now) }
    ensures err { OnErr result (out.new.items ≡ out.old.items) }
{
    let start = out.len();
    let written = append_call(out, call);
    if written.is_err() {
        out.truncate(start);
    }
    written
}

/// Appends the bytes of a call. [`NoMemory`] can leave some of them after the previous bytes.
fn append_call(out: &mut Vec<u8>, call: &Call) -> Result<(), NoMemory>
    requires { HasCounts call.now }
    ensures ok { OnOk result (out.new.items ≡ out.old.items ++ call_bytes call.now) }
    ensures err { OnErr result (take (length out.old.items) out.new.items ≡ out.old.items) }
{
    out.push(number(call))?;
    append_parts(out, call)
}

/// Appends the name of a table and a row or a key.
fn append_row(out: &mut Vec<u8>, table: &Text, row: &Row) -> Result<(), NoMemory>
    requires { length row.now ≤ MAX_CONTENT_LEN }
    ensures ok { OnOk result (out.new.items ≡ out.old.items ++ (counted table.now ++ row_bytes row.now)) }
    ensures err { OnErr result (take (length out.old.items) out.new.items ≡ out.old.items) }
{
    write_text(out, table)?;
    write_row(out, row)
}

/// Appends a file, and what is done about its entries that change nothing.
fn append_file(out: &mut Vec<u8>, file: &Bytes, noop: Noop) -> Result<(), NoMemory>
    ensures ok { OnOk result (out.new.items ≡ out.old.items ++ (counted file.now ++ noop_bytes noop)) }
    ensures err { OnErr result (take (length out.old.items) out.new.items ≡ out.old.items) }
{
    write_file(out, file)?;
    write_noop(out, noop)
}

/// Appends the parts of a call. [`NoMemory`] can leave some of their bytes after the previous ones.
#[tactic(auto, unfolding(crate::specs::Spelling::parts_of, crate::specs::Spelling::HasCounts))]
fn append_parts(out: &mut Vec<u8>, call: &Call) -> Result<(), NoMemory>
    requires { HasCounts call.now }
    ensures ok { OnOk result (out.new.items ≡ out.old.items ++ parts_of call.now) }
    ensures err { OnErr result (take (length out.old.items) out.new.items ≡ out.old.items) }
{
    match call {
        Call::Schema { table } | Call::Count { table } | Call::Attach { table } => {
            write_text(out, table)
        }
        Call::Get { table, key: row }
        | Call::Insert { table, row }
        | Call::Delete { table, key: row }
        | Call::Put { table, row } => append_row(out, table, row),
        Call::Declare { table, columns } => {
            write_text(out, table)?;
            write_list(out, columns.as_slice())
        }
        Call::Rows {
            table,
            after,
            limit,
        } => {
            write_text(out, table)?;
            write_option(out, after)?;
            varint_write(out, *limit)
        }
        Call::Update { table, key, row } => {
            append_row(out, table, key)?;
            write_row(out, row)
        }
        Call::Apply { file, noop, policy } => {
            append_file(out, file, *noop)?;
            write_policy(out, policy)
        }
        Call::ApplyChosen {
            file,
            noop,
            choices,
        } => {
            append_file(out, file, *noop)?;
            write_list(out, choices.as_slice())
        }
        Call::Rehearse { file, noop } => append_file(out, file, *noop),
        Call::Revert { file } => write_file(out, file),
        Call::Tables
        | Call::Begin
        | Call::Commit
        | Call::RollBack
        | Call::OpenSession
        | Call::Changeset
        | Call::IsEmpty
        | Call::Undo
        | Call::CloseSession
        | Call::Limits => Ok(()),
    }
}
