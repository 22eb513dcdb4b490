//! Answers, read from their bytes.
ghost use Rattle.std.specs.Prelude.{◌≡◌, IfOk, Ok};
ghost use Rattle.cs_calls_parts.specs.Reading.{Gives};
ghost use Rattle.cs_calls_answers.specs.declared.answer.Answer.{Answer as AnswerData};
ghost use Rattle.cs_calls_answers.specs.Spelling.{IsAnswer, HasCounts, answer_bytes};
ghost use Rattle.cs_calls_answers.specs.Reading.{report_of, refused_of, names_of, schema_of, found_row_of, rows_of, count_of};
ghost use Rattle.cs_calls_answers.specs.Reading.{reported_of, conflicts_of, changeset_of, said_of, limits_of, refusal_of, unread_of};
ghost use Rattle.cs_calls_answers.specs.Reading.{answer_by, answer_at, whole_answer, answer_in};

use crate::answer::{Answer, Refused, Reported};
use crate::lists::{FoundConflicts, MetConflicts, Names, RowList};
use cs_calls_parts::{
    CallError, CallFaultKind, Columns, Unread, read_file, read_flag, read_list, read_number,
    read_option, refuse,
};
use cs_value::{FieldFaultKind, OrNoMemory};
use std::alloc::Global;

/// Returns the answer that the bytes are.
///
/// # Errors
///
/// Of the first part that cannot be read, with its byte offset ([`CallFault`](crate::CallFault)): those of a call, but
/// `UnknownAnswer` for a number that no answer has. `NoMemory` if memory runs out.
pub fn answer_read(alloc: Global, bytes: &[u8]) -> Result<Answer, CallError>
    ensures found { IfOk result (λ a. IsAnswer a × (bytes.now ≡ answer_bytes a)) }
    ensures counts { IfOk result HasCounts }
    ensures only { (a : AnswerData) → IsAnswer a → bytes.now ≡ answer_bytes a → Gives (λ r. r) result (Ok a) }
    ensures exact { Gives (λ r. r) result (answer_in bytes.now) }
{
    match read_whole(alloc, bytes) {
        Ok(answer) => Ok(answer),
        Err(OrNoMemory::Fault(misread)) => Err(OrNoMemory::Fault(misread.of_call(bytes))),
        Err(OrNoMemory::NoMemory) => Err(OrNoMemory::NoMemory),
    }
}

/// Returns the answer that the bytes are.
#[tactic(auto, unfolding(crate::specs::Reading::whole_answer))]
fn read_whole(alloc: Global, bytes: &[u8]) -> Result<Answer, Unread>
    ensures { Gives (λ r. r) result (whole_answer bytes.now) }
{
    let (answer, rest) = read_front(alloc, bytes)?;
    if !rest.is_empty() {
        return refuse(CallFaultKind::ExtraBytes, rest.len());
    }
    Ok(answer)
}

/// Returns the answer at the front, and the bytes after it.
#[tactic(auto, unfolding(crate::specs::Reading::answer_at))]
fn read_front(alloc: Global, bytes: &[u8]) -> Result<(Answer, &[u8]), Unread>
    ensures { Gives (λ r. (r.0, r.1.now)) result (answer_at bytes.now) }
{
    let [number, rest @ ..] = bytes else {
        return refuse(CallFaultKind::Field(FieldFaultKind::Truncated), 0);
    };
    read_by(alloc, *number, rest)
}

/// Returns the answer with a number, and the bytes after it.
#[tactic(auto, unfolding(crate::specs::Reading::answer_by))]
fn read_by(alloc: Global, number: u8, bytes: &[u8]) -> Result<(Answer, &[u8]), Unread>
    ensures { Gives (λ r. (r.0, r.1.now)) result (answer_by number bytes.now) }
{
    match number {
        0 => Ok((Answer::Done, bytes)),
        1 => read_names(alloc, bytes),
        2 => read_schema(alloc, bytes),
        3 => read_found_row(alloc, bytes),
        4 => read_rows(alloc, bytes),
        5 => read_count(bytes),
        6 => read_reported(alloc, bytes),
        7 => read_conflicts(alloc, bytes),
        8 => read_changeset(alloc, bytes),
        9 => read_said(bytes),
        10 => read_limits(bytes),
        11 => read_refusal(alloc, bytes),
        12 => read_unread(bytes),
        _ => refuse(CallFaultKind::UnknownAnswer, 1 + bytes.len()),
    }
}

/// Reads the names of tables.
#[tactic(auto, unfolding(crate::specs::Reading::names_of))]
fn read_names(alloc: Global, bytes: &[u8]) -> Result<(Answer, &[u8]), Unread>
    ensures { Gives (λ r. (r.0, r.1.now)) result (names_of bytes.now) }
{
    let (names, rest) = read_list(alloc, bytes)?;
    Ok((Answer::Names(Names::new(names)), rest))
}

/// Reads the columns of a table.
#[tactic(auto, unfolding(crate::specs::Reading::schema_of))]
fn read_schema(alloc: Global, bytes: &[u8]) -> Result<(Answer, &[u8]), Unread>
    ensures { Gives (λ r. (r.0, r.1.now)) result (schema_of bytes.now) }
{
    let (columns, rest) = read_list(alloc, bytes)?;
    Ok((Answer::Schema(Columns::new(columns)), rest))
}

/// Reads the row of a key, or none.
#[tactic(auto, unfolding(crate::specs::Reading::found_row_of))]
fn read_found_row(alloc: Global, bytes: &[u8]) -> Result<(Answer, &[u8]), Unread>
    ensures { Gives (λ r. (r.0, r.1.now)) result (found_row_of bytes.now) }
{
    let (row, rest) = read_option(alloc, bytes)?;
    Ok((Answer::Row(row), rest))
}

/// Reads rows, and whether there are more.
#[tactic(auto, unfolding(crate::specs::Reading::rows_of))]
fn read_rows(alloc: Global, bytes: &[u8]) -> Result<(Answer, &[u8]), Unread>
    ensures { Gives (λ r. (r.0, r.1.now)) result (rows_of bytes.now) }
{
    let (rows, rest) = read_list(alloc, bytes)?;
    let (more, rest) = read_flag(rest)?;
    let rows = RowList::new(rows);
    Ok((Answer::Rows { rows, more }, rest))
}

/// Reads a number.
#[tactic(auto, unfolding(crate::specs::Reading::count_of))]
fn read_count(bytes: &[u8]) -> Result<(Answer, &[u8]), Unread>
    ensures { Gives (λ r. (r.0, r.1.now)) result (count_of bytes.now) }
{
    let (number, rest) = read_number(bytes)?;
    Ok((Answer::Number(number), rest))
}

/// Reads what an apply or a revert did.
#[tactic(auto, unfolding(crate::specs::Reading::report_of))]
fn read_report(alloc: Global, bytes: &[u8]) -> Result<(Reported, &[u8]), Unread>
    ensures { Gives (λ r. (r.0, r.1.now)) result (report_of bytes.now) }
{
    let (written, rest) = read_number(bytes)?;
    let (ignored, rest) = read_number(rest)?;
    let (skipped, rest) = read_list(alloc, rest)?;
    let (conflicts, rest) = read_list(alloc, rest)?;
    let report = Reported {
        written,
        ignored,
        skipped: Names::new(skipped),
        conflicts: MetConflicts::new(conflicts),
    };
    Ok((report, rest))
}

/// Reads what an apply or a revert did, as an answer.
#[tactic(auto, unfolding(crate::specs::Reading::reported_of))]
fn read_reported(alloc: Global, bytes: &[u8]) -> Result<(Answer, &[u8]), Unread>
    ensures { Gives (λ r. (r.0, r.1.now)) result (reported_of bytes.now) }
{
    let (report, rest) = read_report(alloc, bytes)?;
    Ok((Answer::Report(report), rest))
}

/// Reads the conflicts that an apply would meet.
#[tactic(auto, unfolding(crate::specs::Reading::conflicts_of))]
fn read_conflicts(alloc: Global, bytes: &[u8]) -> Result<(Answer, &[u8]), Unread>
    ensures { Gives (λ r. (r.0, r.1.now)) result (conflicts_of bytes.now) }
{
    let (conflicts, rest) = read_list(alloc, bytes)?;
    Ok((Answer::Conflicts(FoundConflicts::new(conflicts)), rest))
}

/// Reads a changeset file.
#[tactic(auto, unfolding(crate::specs::Reading::changeset_of))]
fn read_changeset(alloc: Global, bytes: &[u8]) -> Result<(Answer, &[u8]), Unread>
    ensures { Gives (λ r. (r.0, r.1.now)) result (changeset_of bytes.now) }
{
    let (file, rest) = read_file(alloc, bytes)?;
    Ok((Answer::Changeset(file), rest))
}

/// Reads whether it is so.
#[tactic(auto, unfolding(crate::specs::Reading::said_of))]
fn read_said(bytes: &[u8]) -> Result<(Answer, &[u8]), Unread>
    ensures { Gives (λ r. (r.0, r.1.now)) result (said_of bytes.now) }
{
    let (flag, rest) = read_flag(bytes)?;
    Ok((Answer::Flag(flag), rest))
}

/// Reads the version and the limits.
#[tactic(auto, unfolding(crate::specs::Reading::limits_of))]
fn read_limits(bytes: &[u8]) -> Result<(Answer, &[u8]), Unread>
    ensures { Gives (λ r. (r.0, r.1.now)) result (limits_of bytes.now) }
{
    let (version, rest) = read_number(bytes)?;
    let (bytes, rest) = read_number(rest)?;
    Ok((Answer::Limits { version, bytes }, rest))
}

/// Reads why a call is refused.
#[tactic(auto, unfolding(crate::specs::Reading::refused_of))]
fn read_refused(alloc: Global, bytes: &[u8]) -> Result<(Refused, &[u8]), Unread>
    ensures { Gives (λ r. (r.0, r.1.now)) result (refused_of bytes.now) }
{
    let (code, rest) = read_number(bytes)?;
    let (table, rest) = read_option(alloc, rest)?;
    let (column, rest) = read_option(alloc, rest)?;
    let (key, rest) = read_option(alloc, rest)?;
    let (detail, rest) = read_option(alloc, rest)?;
    let refused = Refused {
        code,
        table,
        column,
        key,
        detail,
    };
    Ok((refused, rest))
}

/// Reads why a call is refused, as an answer.
#[tactic(auto, unfolding(crate::specs::Reading::refusal_of))]
fn read_refusal(alloc: Global, bytes: &[u8]) -> Result<(Answer, &[u8]), Unread>
    ensures { Gives (λ r. (r.0, r.1.now)) result (refusal_of bytes.now) }
{
    let (refused, rest) = read_refused(alloc, bytes)?;
    Ok((Answer::Refused(refused), rest))
}

/// Reads why bytes are no call.
#[tactic(auto, unfolding(crate::specs::Reading::unread_of))]
fn read_unread(bytes: &[u8]) -> Result<(Answer, &[u8]), Unread>
    ensures { Gives (λ r. (r.0, r.1.now)) result (unread_of bytes.now) }
{
    let (code, rest) = read_number(bytes)?;
    let (offset, rest) = read_number(rest)?;
    Ok((Answer::Unread { code, offset }, rest))
}
