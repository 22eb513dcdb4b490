//! The parts of calls, read from the left. Each reader returns the part at the front of the bytes, and the bytes after
//! it. It allocates only for what it has read, whatever a count says.
ghost use Rattle.std.specs.Prelude.{◌≡◌, ◌≤◌, ◌+◌, ◌<◌, ℕ, List, length, map, Result, IfOk, Err};
ghost use Rattle.cs_value.specs.declared.TheConstants.{MAX_CONTENT_LEN};
ghost use Rattle.cs_value.specs.declared.refusal.OrNoMemory.TheVariants.{Fault as OfFault};
ghost use Rattle.cs_calls_parts.specs.declared.fault.Misread.{Misread as MisreadData};
ghost use Rattle.cs_calls_parts.specs.Reading.{Gives, misread, field_misread, number_of, counted_of, text_of, value_of};
ghost use Rattle.cs_calls_parts.specs.Reading.{parts_at, list_of, row_of, byte_of, option_after, option_of, column_of};
ghost use Rattle.cs_calls_parts.specs.Reading.{choice_of, noop_of, policy_of, wide_of, flag_of, kind_of};

use crate::fault::{CallFaultKind, Misread, Unread};
use crate::lists::Column;
use crate::part::Part;
use cs_apply_conflict_kinds::Kind;
use cs_apply_engine::{Choice, Noop, Policy};
use cs_value::{
    Bytes, Field, FieldFault, FieldFaultKind, OrNoMemory, OwnedValue, Row, Text, field_read,
    varint_read,
};
use std::alloc::Global;
use std::str;

/// Returns the refusal of a part, from whose place there are `left` bytes to the end of the call.
pub fn refuse<T: Drop>(kind: CallFaultKind, left: usize) -> Result<T, Unread>
    ensures { result ≡ Err (OfFault (misread kind left)) }
{
    Err(OrNoMemory::Fault(Misread { kind, left }))
}

/// Returns that no field, or no count, is at the front of the bytes.
fn field_fault<T: Drop>(bytes: &[u8], fault: FieldFault) -> Result<T, Unread>
    ensures { result ≡ Err (OfFault (field_misread bytes.now fault)) }
{
    Err(OrNoMemory::Fault(Misread {
        kind: CallFaultKind::Field(fault.kind),
        left: bytes.len().saturating_sub(fault.place),
    }))
}

/// Returns the count at the front, at most 2147483647, and the bytes after it.
///
/// # Errors
///
/// `Truncated` and `BadVarint`, as [`varint_read`](cs_value::varint_read).
pub fn read_count(bytes: &[u8]) -> Result<(u32, &[u8]), Unread>
    ensures exact { Gives (λ r. (r.0, r.1.now)) result (number_of bytes.now) }
    ensures small { IfOk result (λ r. r.0 ≤ MAX_CONTENT_LEN) }
    ensures within { IfOk result (λ r. length r.1.now ≤ length bytes.now) }
{
    match varint_read(bytes) {
        Ok((number, used)) => {
            let (_, rest) = bytes.split_at(used);
            Ok((number, rest))
        }
        Err(fault) => field_fault(bytes, fault),
    }
}

/// Returns the counted bytes at the front, and those after them.
#[tactic(auto, unfolding(crate::specs::Reading::counted_of))]
fn read_counted(bytes: &[u8]) -> Result<(&[u8], &[u8]), Unread>
    ensures exact { Gives (λ r. (r.0.now, r.1.now)) result (counted_of bytes.now) }
    ensures small { IfOk result (λ r. length r.0.now ≤ MAX_CONTENT_LEN) }
    ensures within { IfOk result (λ r. length r.0.now + length r.1.now ≤ length bytes.now) }
{
    let (count, rest) = read_count(bytes)?;
    let count = count as usize;
    if rest.len() < count {
        return refuse(CallFaultKind::Field(FieldFaultKind::Truncated), 0);
    }
    Ok(rest.split_at(count))
}

/// Returns the bytes of a file at the front, after their count.
///
/// # Errors
///
/// Those of [`read_count`], `Truncated` if there are fewer bytes, and `NoMemory`.
pub fn read_file(alloc: Global, bytes: &[u8]) -> Result<(Bytes, &[u8]), Unread>
    ensures { Gives (λ r. (r.0, r.1.now)) result (counted_of bytes.now) }
{
    let (content, rest) = read_counted(bytes)?;
    Ok((Bytes::new(Vec::from_slice(alloc, content)?), rest))
}

/// Returns the text at the front, after its count.
///
/// # Errors
///
/// Those of [`read_file`], and `BadText` if the bytes are not UTF-8, at the first byte after the count.
#[tactic(auto, unfolding(crate::specs::Reading::text_of))]
pub fn read_text(alloc: Global, bytes: &[u8]) -> Result<(Text, &[u8]), Unread>
    ensures { Gives (λ r. (r.0, r.1.now)) result (text_of bytes.now) }
{
    let (content, rest) = read_counted(bytes)?;
    match str::from_utf8(content) {
        Ok(text) => Ok((Text::new(String::from_str(alloc, text)?), rest)),
        Err(_) => refuse(
            CallFaultKind::Field(FieldFaultKind::BadText),
            content.len() + rest.len(),
        ),
    }
}

/// Returns the value at the front.
pub(crate) fn read_value(alloc: Global, bytes: &[u8]) -> Result<(OwnedValue, &[u8]), Unread>
    ensures { Gives (λ r. (r.0, r.1.now)) result (value_of bytes.now) }
{
    match field_read(bytes) {
        Ok((Field::Defined(value), used)) => {
            let (_, rest) = bytes.split_at(used);
            Ok((value.to_owned(alloc)?, rest))
        }
        Ok((Field::Undefined, _)) => refuse(CallFaultKind::UndefinedField, bytes.len()),
        Err(fault) => field_fault(bytes, fault),
    }
}

/// Returns so many parts.
fn read_parts<T: Part>(alloc: Global, count: u32, bytes: &[u8]) -> Result<(Vec<T>, &[u8]), Unread>
    ensures { Gives (λ r. (r.0.items, r.1.now)) result (parts_at T.part_of count bytes.now) }
{
    let mut parts = Vec::new(alloc);
    let mut rest = bytes;
    for _ in 0..count {
        let (part, after) = T::read(alloc, rest)?;
        parts.push(part)?;
        rest = after;
    }
    Ok((parts, rest))
}

/// Returns the parts at the front, after their count.
///
/// # Errors
///
/// Those of [`read_count`], those of the first part that cannot be read, and `NoMemory`.
#[tactic(auto, unfolding(crate::specs::Reading::list_of))]
pub fn read_list<T: Part>(alloc: Global, bytes: &[u8]) -> Result<(Vec<T>, &[u8]), Unread>
    ensures { Gives (λ r. (r.0.items, r.1.now)) result (list_of T.part_of bytes.now) }
{
    let (count, rest) = read_count(bytes)?;
    read_parts(alloc, count, rest)
}

/// Returns the values at the front, after their count.
///
/// # Errors
///
/// As [`read_list`], with the faults of [`field_read`](cs_value::field_read), and `UndefinedField` for a value that is
/// undefined.
pub fn read_row(alloc: Global, bytes: &[u8]) -> Result<(Row, &[u8]), Unread>
    ensures { Gives (λ r. (r.0, r.1.now)) result (row_of bytes.now) }
{
    let (values, rest) = read_list(alloc, bytes)?;
    Ok((Row::new(values), rest))
}

/// Returns the byte at the front, which has to be below a limit.
#[tactic(auto, unfolding(crate::specs::Reading::byte_of))]
fn read_byte(limit: u8, bytes: &[u8]) -> Result<(u8, &[u8]), Unread>
    ensures exact { Gives (λ r. (r.0, r.1.now)) result (byte_of limit bytes.now) }
    ensures small { IfOk result (λ r. r.0 < limit) }
{
    match bytes {
        [] => refuse(CallFaultKind::Field(FieldFaultKind::Truncated), 0),
        [byte, rest @ ..] if *byte < limit => Ok((*byte, rest)),
        _ => refuse(CallFaultKind::BadByte, bytes.len()),
    }
}

/// Returns the part at the front, after the byte 1, or none after the byte 0.
///
/// # Errors
///
/// `Truncated` at the end, `BadByte` for another byte, and those of the part.
#[tactic(auto, unfolding(crate::specs::Reading::option_of, crate::specs::Reading::option_after))]
pub fn read_option<T: Part>(alloc: Global, bytes: &[u8]) -> Result<(Option<T>, &[u8]), Unread>
    ensures { Gives (λ r. (r.0, r.1.now)) result (option_of T.part_of bytes.now) }
{
    let (mark, rest) = read_byte(2, bytes)?;
    if mark == 0 {
        return Ok((None, rest));
    }
    let (part, rest) = T::read(alloc, rest)?;
    Ok((Some(part), rest))
}

/// Returns the number at the front, of eight bytes.
///
/// # Errors
///
/// `Truncated` if there are fewer bytes.
#[tactic(auto, unfolding(crate::specs::Reading::wide_of))]
pub fn read_number(bytes: &[u8]) -> Result<(u64, &[u8]), Unread>
    ensures { Gives (λ r. (r.0, r.1.now)) result (wide_of bytes.now) }
{
    if bytes.len() < 8 {
        return refuse(CallFaultKind::Field(FieldFaultKind::Truncated), 0);
    }
    let (front, rest) = bytes.split_at(8);
    let number = u64::from_be_bytes([
        front[0], front[1], front[2], front[3], front[4], front[5], front[6], front[7],
    ]);
    Ok((number, rest))
}

/// Returns whether the byte at the front says yes.
///
/// # Errors
///
/// `Truncated` at the end, and `BadByte` for a byte above 1.
#[tactic(auto, unfolding(crate::specs::Reading::flag_of))]
pub fn read_flag(bytes: &[u8]) -> Result<(bool, &[u8]), Unread>
    ensures { Gives (λ r. (r.0, r.1.now)) result (flag_of bytes.now) }
{
    let (flag, rest) = read_byte(2, bytes)?;
    Ok((flag == 1, rest))
}

/// Returns the kind of a conflict at the front.
///
/// # Errors
///
/// `Truncated` at the end, and `BadByte` for a byte that is not 1 to 4.
#[tactic(auto, unfolding(crate::specs::Reading::kind_of, crate::specs::Reading::kind_from))]
pub fn read_kind(bytes: &[u8]) -> Result<(Kind, &[u8]), Unread>
    ensures { Gives (λ r. (r.0, r.1.now)) result (kind_of bytes.now) }
{
    match bytes {
        [] => refuse(CallFaultKind::Field(FieldFaultKind::Truncated), 0),
        [1, rest @ ..] => Ok((Kind::Data, rest)),
        [2, rest @ ..] => Ok((Kind::NotFound, rest)),
        [3, rest @ ..] => Ok((Kind::Conflict, rest)),
        [4, rest @ ..] => Ok((Kind::Constraint, rest)),
        _ => refuse(CallFaultKind::BadByte, bytes.len()),
    }
}

/// Returns the column at the front.
#[tactic(auto, unfolding(crate::specs::Reading::column_of))]
pub(crate) fn read_column(alloc: Global, bytes: &[u8]) -> Result<(Column, &[u8]), Unread>
    ensures { Gives (λ r. (r.0, r.1.now)) result (column_of bytes.now) }
{
    let (name, rest) = read_text(alloc, bytes)?;
    let (mark, rest) = read_byte(4, rest)?;
    let column = Column {
        name,
        is_key: mark % 2 == 1,
        refuses_null: 1 < mark,
    };
    Ok((column, rest))
}

/// Returns the choice at the front.
#[tactic(auto, unfolding(crate::specs::Reading::choice_of))]
pub fn read_choice(bytes: &[u8]) -> Result<(Choice, &[u8]), Unread>
    ensures { Gives (λ r. (r.0, r.1.now)) result (choice_of bytes.now) }
{
    let (number, rest) = read_byte(3, bytes)?;
    let choice = match number {
        0 => Choice::Omit,
        1 => Choice::Replace,
        _ => Choice::Abort,
    };
    Ok((choice, rest))
}

/// Returns what is at the front: whether no-ops are reported or ignored.
///
/// # Errors
///
/// `Truncated` at the end, and `BadByte` for a byte above 1.
#[tactic(auto, unfolding(crate::specs::Reading::noop_of))]
pub fn read_noop(bytes: &[u8]) -> Result<(Noop, &[u8]), Unread>
    ensures { Gives (λ r. (r.0, r.1.now)) result (noop_of bytes.now) }
{
    let (number, rest) = read_byte(2, bytes)?;
    let noop = match number {
        0 => Noop::Report,
        _ => Noop::Ignore,
    };
    Ok((noop, rest))
}

/// Returns the choices at the front, one for each kind of conflict.
///
/// # Errors
///
/// `Truncated` if the bytes end, and `BadByte` for a byte above 2.
#[tactic(auto, unfolding(crate::specs::Reading::policy_of))]
pub fn read_policy(bytes: &[u8]) -> Result<(Policy, &[u8]), Unread>
    ensures { Gives (λ r. (r.0, r.1.now)) result (policy_of bytes.now) }
{
    let (on_data, rest) = read_choice(bytes)?;
    let (on_notfound, rest) = read_choice(rest)?;
    let (on_conflict, rest) = read_choice(rest)?;
    let (on_constraint, rest) = read_choice(rest)?;
    let policy = Policy {
        on_data,
        on_notfound,
        on_conflict,
        on_constraint,
    };
    Ok((policy, rest))
}
