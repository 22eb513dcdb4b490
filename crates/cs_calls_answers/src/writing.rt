//! Answers, written as their bytes.
ghost use Rattle.std.specs.Prelude.{◌≡◌, ◌≤◌, ◌++◌, length, OnOk, OnErr, take};
ghost use Rattle.cs_value.specs.declared.TheConstants.{MAX_CONTENT_LEN};
ghost use Rattle.cs_value.specs.Spelling.{counted};
ghost use Rattle.cs_calls_parts.specs.Spelling.{list_bytes, wide_bytes};
ghost use Rattle.cs_calls_answers.specs.Spelling.{HasCounts, ReportCounts, RefusedCounts, answer_bytes, report_bytes, number_of, parts_of};
ghost use Rattle.cs_calls_answers.specs.Spelling.{refused_bytes};

use crate::answer::{Answer, Refused, Reported};
use crate::lists::Names;
use cs_calls_parts::{write_file, write_flag, write_list, write_number, write_option};
use cs_value::NoMemory;

/// Appends the bytes of an answer. Its rows and lists have at most 2147483647 parts. [`NoMemory`] leaves `out`
/// unchanged.
pub fn answer_write(out: &mut Vec<u8>, answer: &Answer) -> Result<(), NoMemory>
    requires { HasCounts answer.now }
    ensures ok { OnOk result (out.new.items ≡ out.old.items ++ answer_bytes answer.now) }
    ensures err { OnErr result (out.new.items ≡ out.old.items) }
{
    let start = out.len();
    let written = append_answer(out, answer);
    if written.is_err() {
        out.truncate(start);
    }
    written
}

/// Appends what an apply or a revert did.
#[tactic(auto, unfolding(crate::specs::Spelling::report_bytes))]
fn append_report(out: &mut Vec<u8>, report: &Reported) -> Result<(), NoMemory>
    requires { ReportCounts report.now }
    ensures ok { OnOk result (out.new.items ≡ out.old.items ++ report_bytes report.now) }
    ensures err { OnErr result (take (length out.old.items) out.new.items ≡ out.old.items) }
{
    write_numbers(out, report.written, report.ignored)?;
    write_names(out, &report.skipped)?;
    write_list(out, report.conflicts.as_slice())
}

/// Appends two numbers.
fn write_numbers(out: &mut Vec<u8>, first: u64, second: u64) -> Result<(), NoMemory>
    ensures ok { OnOk result (out.new.items ≡ out.old.items ++ (wide_bytes first ++ wide_bytes second)) }
    ensures err { OnErr result (take (length out.old.items) out.new.items ≡ out.old.items) }
{
    write_number(out, first)?;
    write_number(out, second)
}

/// Appends names.
fn write_names(out: &mut Vec<u8>, names: &Names) -> Result<(), NoMemory>
    requires { length names.now ≤ MAX_CONTENT_LEN }
    ensures ok { OnOk result (out.new.items ≡ out.old.items ++ list_bytes counted names.now) }
    ensures err { OnErr result (take (length out.old.items) out.new.items ≡ out.old.items) }
{
    write_list(out, names.as_slice())
}

/// Appends why a call is refused.
#[tactic(auto, unfolding(crate::specs::Spelling::refused_bytes))]
fn append_refused(out: &mut Vec<u8>, refused: &Refused) -> Result<(), NoMemory>
    requires { RefusedCounts refused.now }
    ensures ok { OnOk result (out.new.items ≡ out.old.items ++ refused_bytes refused.now) }
    ensures err { OnErr result (take (length out.old.items) out.new.items ≡ out.old.items) }
{
    write_number(out, refused.code)?;
    write_option(out, &refused.table)?;
    write_option(out, &refused.column)?;
    write_option(out, &refused.key)?;
    write_option(out, &refused.detail)
}

/// Returns the number of an answer, which its bytes begin with.
#[tactic(auto, unfolding(crate::specs::Spelling::number_of))]
fn number(answer: &Answer) -> u8
    ensures { result ≡ number_of answer.now }
{
    match answer {
        Answer::Done => 0,
        Answer::Names(_) => 1,
        Answer::Schema(_) => 2,
        Answer::Row(_) => 3,
        Answer::Rows { .. } => 4,
        Answer::Number(_) => 5,
        Answer::Report(_) => 6,
        Answer::Conflicts(_) => 7,
        Answer::Changeset(_) => 8,
        Answer::Flag(_) => 9,
        Answer::Limits { .. } => 10,
        Answer::Refused(_) => 11,
        Answer::Unread { .. } => 12,
    }
}

/// Appends the bytes of an answer. [`NoMemory`] can leave some of them after the previous bytes.
fn append_answer(out: &mut Vec<u8>, answer: &Answer) -> Result<(), NoMemory>
    requires { HasCounts answer.now }
    ensures ok { OnOk result (out.new.items ≡ out.old.items ++ answer_bytes answer.now) }
    ensures err { OnErr result (take (length out.old.items) out.new.items ≡ out.old.items) }
{
    out.push(number(answer))?;
    append_parts(out, answer)
}

/// Appends the parts of an answer. [`NoMemory`] can leave some of their bytes after the previous ones.
#[tactic(auto, unfolding(crate::specs::Spelling::parts_of, crate::specs::Spelling::HasCounts))]
fn append_parts(out: &mut Vec<u8>, answer: &Answer) -> Result<(), NoMemory>
    requires { HasCounts answer.now }
    ensures ok { OnOk result (out.new.items ≡ out.old.items ++ parts_of answer.now) }
    ensures err { OnErr result (take (length out.old.items) out.new.items ≡ out.old.items) }
{
    match answer {
        Answer::Done => Ok(()),
        Answer::Names(names) => write_names(out, names),
        Answer::Schema(columns) => write_list(out, columns.as_slice()),
        Answer::Row(row) => write_option(out, row),
        Answer::Rows { rows, more } => {
            write_list(out, rows.as_slice())?;
            write_flag(out, *more)
        }
        Answer::Number(number) => write_number(out, *number),
        Answer::Report(report) => append_report(out, report),
        Answer::Conflicts(conflicts) => write_list(out, conflicts.as_slice()),
        Answer::Changeset(file) => write_file(out, file),
        Answer::Flag(flag) => write_flag(out, *flag),
        Answer::Limits { version, bytes } => write_numbers(out, *version, *bytes),
        Answer::Refused(refused) => append_refused(out, refused),
        Answer::Unread { code, offset } => write_numbers(out, *code, *offset),
    }
}
