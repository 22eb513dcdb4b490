//! The parts of calls, written one after another. If memory runs out, some bytes of a part can be left after the
//! previous ones. A caller that wants none truncates the vector to its length before.
ghost use Rattle.std.specs.Prelude.{◌≡◌, ◌≤◌, ◌++◌, length, OnOk, OnErr, IfSome, All, take};
ghost use Rattle.std.specs.List.{flat_map};
ghost use Rattle.cs_value.specs.declared.TheConstants.{MAX_CONTENT_LEN};
ghost use Rattle.cs_value.specs.Spelling.{counted, value_bytes};
ghost use Rattle.cs_calls_parts.specs.Spelling.{row_bytes, option_bytes, column_bytes, list_bytes, choice_bytes, wide_bytes, flag_bytes, kind_bytes};
ghost use Rattle.cs_calls_parts.specs.Spelling.{noop_bytes, policy_bytes, mark_of};

use crate::lists::Column;
use crate::part::Part;
use cs_apply_conflict_kinds::Kind;
use cs_apply_engine::{Choice, Noop, Policy};
use cs_value::{Bytes, Field, NoMemory, OwnedValue, Row, Text, field_write, varint_write};

/// Appends a count, and the bytes that it is of.
#[tactic(auto, unfolding(cs_value::specs::Spelling::counted))]
fn write_counted(out: &mut Vec<u8>, content: &[u8]) -> Result<(), NoMemory>
    requires { length content.now ≤ MAX_CONTENT_LEN }
    ensures ok { OnOk result (out.new.items ≡ out.old.items ++ counted content.now) }
    ensures err { OnErr result (take (length out.old.items) out.new.items ≡ out.old.items) }
{
    varint_write(out, content.len() as u32)?;
    out.extend_from_slice(content)?;
    Ok(())
}

/// Appends a text.
pub fn write_text(out: &mut Vec<u8>, text: &Text) -> Result<(), NoMemory>
    ensures ok { OnOk result (out.new.items ≡ out.old.items ++ counted text.now) }
    ensures err { OnErr result (take (length out.old.items) out.new.items ≡ out.old.items) }
{
    write_counted(out, text.as_str().as_bytes())
}

/// Appends a file.
pub fn write_file(out: &mut Vec<u8>, file: &Bytes) -> Result<(), NoMemory>
    ensures ok { OnOk result (out.new.items ≡ out.old.items ++ counted file.now) }
    ensures err { OnErr result (take (length out.old.items) out.new.items ≡ out.old.items) }
{
    write_counted(out, file.as_slice())
}

/// Appends a value.
#[tactic(auto, unfolding(cs_value::specs::Spelling::field_bytes))]
pub(crate) fn write_value(out: &mut Vec<u8>, value: &OwnedValue) -> Result<(), NoMemory>
    ensures ok { OnOk result (out.new.items ≡ out.old.items ++ value_bytes value.now) }
    ensures err { OnErr result (take (length out.old.items) out.new.items ≡ out.old.items) }
{
    field_write(out, &Field::Defined(value.as_value()))
}

/// Appends parts, one after another.
fn write_parts<T: Part>(out: &mut Vec<u8>, parts: &[T]) -> Result<(), NoMemory>
    requires { All T.IsCounted parts.now }
    ensures ok { OnOk result (out.new.items ≡ out.old.items ++ flat_map T.part_bytes parts.now) }
    ensures err { OnErr result (take (length out.old.items) out.new.items ≡ out.old.items) }
{
    for part in parts {
        part.write(out)?;
    }
    Ok(())
}

/// Appends parts after their count. There are at most 2147483647.
#[tactic(auto, unfolding(crate::specs::Spelling::list_bytes))]
pub fn write_list<T: Part>(out: &mut Vec<u8>, parts: &[T]) -> Result<(), NoMemory>
    requires few { length parts.now ≤ MAX_CONTENT_LEN }
    requires counted { All T.IsCounted parts.now }
    ensures ok { OnOk result (out.new.items ≡ out.old.items ++ list_bytes T.part_bytes parts.now) }
    ensures err { OnErr result (take (length out.old.items) out.new.items ≡ out.old.items) }
{
    varint_write(out, parts.len() as u32)?;
    write_parts(out, parts)
}

/// Appends the values of a row or a key, at most 2147483647.
pub fn write_row(out: &mut Vec<u8>, row: &Row) -> Result<(), NoMemory>
    requires { length row.now ≤ MAX_CONTENT_LEN }
    ensures ok { OnOk result (out.new.items ≡ out.old.items ++ row_bytes row.now) }
    ensures err { OnErr result (take (length out.old.items) out.new.items ≡ out.old.items) }
{
    write_list(out, row.values())
}

/// Appends a part, or that there is none.
#[tactic(auto, unfolding(crate::specs::Spelling::option_bytes))]
pub fn write_option<T: Part>(out: &mut Vec<u8>, part: &Option<T>) -> Result<(), NoMemory>
    requires { IfSome part.now T.IsCounted }
    ensures ok { OnOk result (out.new.items ≡ out.old.items ++ option_bytes T.part_bytes part.now) }
    ensures err { OnErr result (take (length out.old.items) out.new.items ≡ out.old.items) }
{
    match part {
        Some(part) => {
            out.push(1)?;
            part.write(out)
        }
        None => Ok(out.push(0)?),
    }
}

/// Appends a number as eight bytes.
pub fn write_number(out: &mut Vec<u8>, number: u64) -> Result<(), NoMemory>
    ensures ok { OnOk result (out.new.items ≡ out.old.items ++ wide_bytes number) }
    ensures err { OnErr result (take (length out.old.items) out.new.items ≡ out.old.items) }
{
    out.extend_from_slice(&number.to_be_bytes())?;
    Ok(())
}

/// Appends yes or no.
#[tactic(auto, unfolding(crate::specs::Spelling::flag_bytes))]
pub fn write_flag(out: &mut Vec<u8>, flag: bool) -> Result<(), NoMemory>
    ensures ok { OnOk result (out.new.items ≡ out.old.items ++ flag_bytes flag) }
    ensures err { OnErr result (take (length out.old.items) out.new.items ≡ out.old.items) }
{
    out.push(if flag { 1 } else { 0 })?;
    Ok(())
}

/// Appends the kind of a conflict.
#[tactic(auto, unfolding(crate::specs::Spelling::kind_bytes))]
pub fn write_kind(out: &mut Vec<u8>, kind: Kind) -> Result<(), NoMemory>
    ensures ok { OnOk result (out.new.items ≡ out.old.items ++ kind_bytes kind) }
    ensures err { OnErr result (take (length out.old.items) out.new.items ≡ out.old.items) }
{
    out.push(kind.number())?;
    Ok(())
}

/// Returns the mark of a column.
#[tactic(auto, unfolding(crate::specs::Spelling::mark_of))]
fn mark(column: &Column) -> u8
    ensures { result ≡ mark_of column.now.is_key column.now.refuses_null }
{
    match (column.is_key, column.refuses_null) {
        (false, false) => 0,
        (true, false) => 1,
        (false, true) => 2,
        (true, true) => 3,
    }
}

/// Appends a column.
#[tactic(auto, unfolding(crate::specs::Spelling::column_bytes))]
pub(crate) fn write_column(out: &mut Vec<u8>, column: &Column) -> Result<(), NoMemory>
    ensures ok { OnOk result (out.new.items ≡ out.old.items ++ column_bytes column.now) }
    ensures err { OnErr result (take (length out.old.items) out.new.items ≡ out.old.items) }
{
    write_text(out, &column.name)?;
    out.push(mark(column))?;
    Ok(())
}

/// Appends a choice.
#[tactic(auto, unfolding(crate::specs::Spelling::choice_bytes))]
pub fn write_choice(out: &mut Vec<u8>, choice: Choice) -> Result<(), NoMemory>
    ensures ok { OnOk result (out.new.items ≡ out.old.items ++ choice_bytes choice) }
    ensures err { OnErr result (take (length out.old.items) out.new.items ≡ out.old.items) }
{
    out.push(choice.number())?;
    Ok(())
}

/// Appends whether no-ops are reported or ignored.
#[tactic(auto, unfolding(crate::specs::Spelling::noop_bytes))]
pub fn write_noop(out: &mut Vec<u8>, noop: Noop) -> Result<(), NoMemory>
    ensures ok { OnOk result (out.new.items ≡ out.old.items ++ noop_bytes noop) }
    ensures err { OnErr result (take (length out.old.items) out.new.items ≡ out.old.items) }
{
    match noop {
        Noop::Report => out.push(0)?,
        Noop::Ignore => out.push(1)?,
    }
    Ok(())
}

/// Appends a choice for each kind of conflict.
#[tactic(auto, unfolding(crate::specs::Spelling::policy_bytes))]
pub fn write_policy(out: &mut Vec<u8>, policy: &Policy) -> Result<(), NoMemory>
    ensures ok { OnOk result (out.new.items ≡ out.old.items ++ policy_bytes policy.now) }
    ensures err { OnErr result (take (length out.old.items) out.new.items ≡ out.old.items) }
{
    write_choice(out, policy.on_data)?;
    write_choice(out, policy.on_notfound)?;
    write_choice(out, policy.on_conflict)?;
    write_choice(out, policy.on_constraint)
}
