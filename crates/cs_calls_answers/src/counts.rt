//! Whether an answer can be written: whether each of its rows and lists has a count.
ghost use Rattle.std.specs.Prelude.{◌≡◌, ◌↔◌, ◌≤◌, IsTrue, IfSome, All, length};
ghost use Rattle.cs_value.specs.declared.TheConstants.{MAX_CONTENT_LEN as MOST};
ghost use Rattle.cs_calls_answers.specs.Spelling.{HasCounts, MetCounts, ReportCounts};
ghost use Rattle.cs_calls_parts.specs.Spelling.{FoundCounts};

use crate::answer::{Answer, Reported};
use crate::conflicts::MetConflict;
use cs_calls_parts::FoundConflict;
use cs_value::{MAX_CONTENT_LEN, Row};

/// Returns whether the values of a row have a count.
fn is_counted(row: &Row) -> bool
    ensures { IsTrue result ↔ (length row.now ≤ MOST) }
{
    row.values().len() <= MAX_CONTENT_LEN
}

/// Returns whether the values of a row have a count, if there is one.
fn is_option_counted(row: &Option<Row>) -> bool
    ensures { IsTrue result ↔ IfSome row.now (λ values. length values ≤ MOST) }
{
    match row {
        Some(row) => is_counted(row),
        None => true,
    }
}

/// Returns whether the values of each row have a count.
fn are_rows_counted(rows: &[Row]) -> bool
    ensures { IsTrue result ↔ All (λ row. length row ≤ MOST) rows.now }
{
    rows.iter().all(|row| row.values().len() <= MAX_CONTENT_LEN)
}

/// Returns whether the key of each conflict has a count.
fn are_met_counted(conflicts: &[MetConflict]) -> bool
    ensures { IsTrue result ↔ All MetCounts conflicts.now }
{
    conflicts
        .iter()
        .all(|met| met.key.values().len() <= MAX_CONTENT_LEN)
}

/// Returns whether the key and the row of a conflict have a count.
fn is_found_counted(found: &FoundConflict) -> bool
    ensures { IsTrue result ↔ FoundCounts found.now }
{
    is_counted(&found.key) && is_option_counted(&found.current)
}

/// Returns whether the keys and the rows of conflicts have a count.
fn are_found_counted(conflicts: &[FoundConflict]) -> bool
    ensures { IsTrue result ↔ All FoundCounts conflicts.now }
{
    conflicts.iter().all(|found| is_found_counted(found))
}

/// Returns whether the lists of a report have a count.
fn is_report_counted(report: &Reported) -> bool
    ensures { IsTrue result ↔ ReportCounts report.now }
{
    report.skipped.as_slice().len() <= MAX_CONTENT_LEN
        && report.conflicts.as_slice().len() <= MAX_CONTENT_LEN
        && are_met_counted(report.conflicts.as_slice())
}

/// Returns whether an answer can be written: its rows and lists have at most 2147483647 parts.
#[tactic(auto, unfolding(crate::specs::Spelling::HasCounts))]
pub fn has_counts(answer: &Answer) -> bool
    ensures { IsTrue result ↔ HasCounts answer.now }
{
    match answer {
        Answer::Names(names) => names.as_slice().len() <= MAX_CONTENT_LEN,
        Answer::Schema(columns) => columns.as_slice().len() <= MAX_CONTENT_LEN,
        Answer::Row(row) => is_option_counted(row),
        Answer::Rows { rows, .. } => {
            rows.as_slice().len() <= MAX_CONTENT_LEN && are_rows_counted(rows.as_slice())
        }
        Answer::Report(report) => is_report_counted(report),
        Answer::Conflicts(conflicts) => {
            conflicts.as_slice().len() <= MAX_CONTENT_LEN && are_found_counted(conflicts.as_slice())
        }
        Answer::Refused(refused) => is_option_counted(&refused.key),
        Answer::Done
        | Answer::Number(_)
        | Answer::Changeset(_)
        | Answer::Flag(_)
        | Answer::Limits { .. }
        | Answer::Unread { .. } => true,
    }
}
