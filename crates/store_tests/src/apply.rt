//! Changesets that run over rows in memory and over batches, and the text of a report.

use crate::edits::listed;
use crate::rows::{end, row_of, rows_of, store_of, tables};
use crate::{DELETE, INSERT, NULL_INSERT, UPDATE};
use cs_apply::{ApplyFault, Choice, Conflict, Direction, Kind, Noop, Report, run_in};
use cs_file_texts::Told;
use cs_shell_replies::report_text;
use cs_store::{Rows, Store};
use cs_value::{Fault, Row, Value};
use sqlite::Alter;
use std::process::Abort;

/// An INSERT of (1, 'z').
const OTHER: &[u8] = b"T\x02\x01\x00t\x00\x12\x00\x01\x00\x00\x00\x00\x00\x00\x00\x01\x03\x01z";

/// The INSERT of (1, 'x') into a table z, and then into t.
const TWO_TABLES: &[u8] = b"T\x02\x01\x00z\x00\x12\x00\x01\x00\x00\x00\x00\x00\x00\x00\x01\x03\x01x\
T\x02\x01\x00t\x00\x12\x00\x01\x00\x00\x00\x00\x00\x00\x00\x01\x03\x01x";

/// An INSERT into a table t of one column.
const NARROWER: &[u8] = b"T\x01\x01t\x00\x12\x00\x01\x00\x00\x00\x00\x00\x00\x00\x01";

/// The INSERT and the DELETE of one row, in one table.
const KEY_TWICE: &[u8] = b"T\x02\x01\x00t\x00\x12\x00\x01\x00\x00\x00\x00\x00\x00\x00\x01\x03\x01x\
\x09\x00\x01\x00\x00\x00\x00\x00\x00\x00\x01\x03\x01x";

/// The code of a refusal, or 0, and the numbers of conflicts, of ignored entries, of skipped tables and of written
/// keys.
type Answer = [usize; 5];

/// A file, the direction in which it runs, what is done about entries that change nothing, the choice for each
/// conflict, and the answer.
type Step = (&'static [u8], Direction, Noop, Choice, Answer);

const FORWARD: Direction = Direction::Forward;

const INVERSE: Direction = Direction::Inverse;

const REPORT: Noop = Noop::Report;

const IGNORE: Noop = Noop::Ignore;

/// Files that run over a table t that refuses NULL in b and has no rows, in turn.
const STEPS: &[Step] = &[
    // No conflict.
    (b"", FORWARD, REPORT, Choice::Abort, [0, 0, 0, 0, 0]),
    (TWO_TABLES, FORWARD, REPORT, Choice::Abort, [0, 0, 0, 1, 1]),
    (UPDATE, FORWARD, REPORT, Choice::Abort, [0, 0, 0, 0, 1]),
    (UPDATE, INVERSE, REPORT, Choice::Abort, [0, 0, 0, 0, 1]),
    // The entry changes nothing.
    (INSERT, FORWARD, IGNORE, Choice::Abort, [0, 0, 1, 0, 0]),
    (INSERT, FORWARD, REPORT, Choice::Abort, [41, 0, 0, 0, 0]),
    // There is a row at the key.
    (OTHER, FORWARD, IGNORE, Choice::Abort, [41, 0, 0, 0, 0]),
    (OTHER, FORWARD, REPORT, Choice::Omit, [0, 1, 0, 0, 0]),
    (OTHER, FORWARD, REPORT, Choice::Replace, [0, 1, 0, 0, 1]),
    // The row that is deleted or updated is another.
    (INSERT, INVERSE, REPORT, Choice::Omit, [0, 1, 0, 0, 0]),
    (UPDATE, FORWARD, REPORT, Choice::Replace, [0, 1, 0, 0, 1]),
    (DELETE, FORWARD, REPORT, Choice::Replace, [0, 1, 0, 0, 1]),
    // There is no row to delete.
    (DELETE, FORWARD, IGNORE, Choice::Abort, [0, 0, 1, 0, 0]),
    (DELETE, FORWARD, REPORT, Choice::Omit, [0, 1, 0, 0, 0]),
    (DELETE, FORWARD, REPORT, Choice::Replace, [42, 0, 0, 0, 0]),
    // The new row has NULL in b.
    (NULL_INSERT, FORWARD, REPORT, Choice::Omit, [0, 1, 0, 0, 0]),
    (
        NULL_INSERT,
        FORWARD,
        REPORT,
        Choice::Replace,
        [42, 0, 0, 0, 0],
    ),
    // The table has other columns, or the file is no changeset.
    (NARROWER, FORWARD, REPORT, Choice::Abort, [40, 0, 0, 0, 0]),
    (KEY_TWICE, FORWARD, REPORT, Choice::Omit, [18, 0, 0, 0, 0]),
];

/// Returns the numbers of a run. A report is clean if it has no conflict and no ignored entry.
fn answer(rt: &impl Abort, run: Result<Report, ApplyFault>) -> Answer {
    match run {
        Ok(report) => {
            let (conflicts, ignored) = (report.conflicts.len(), report.ignored);
            assert!(rt; report.is_clean() == (conflicts == 0 && ignored == 0));
            [
                0,
                conflicts,
                ignored,
                report.skipped.len(),
                report.written.len(),
            ]
        }
        Err(fault) => [fault.code() as usize, 0, 0, 0, 0],
    }
}

/// Runs a file over rows, with one choice for all conflicts.
fn run<B: Rows>(rt: &(impl Abort + AllocGlobal), rows: &mut B, step: Step) -> Answer {
    let (file, direction, noop, choice, _) = step;
    let handler = |_: &Conflict| choice;
    answer(
        rt,
        run_in(rt.alloc(), rows, file, direction, noop, &handler),
    )
}

/// Runs a file in a batch, which is committed if the file is not refused.
fn run_batch<S: Alter>(
    rt: &(impl Abort + AllocGlobal),
    store: &mut Store<S>,
    step: Step,
) -> Answer {
    let mut batch = store.begin().expect(rt, "a batch");
    let answer = run(rt, &mut batch, step);
    if answer[0] != 0 {
        return answer;
    }
    batch.commit().expect(rt, "a commit");
    answer
}

#[test]
fn runs_files_over_rows_in_memory_and_in_batches(rt: HostRuntime) {
    let mut rows = tables(&rt);
    let mut store = store_of(&rt, &[false, true]);
    for (place, step) in STEPS.iter().enumerate() {
        assert!(rt; run(&rt, &mut rows, *step) == step.4, "at {place}");
        assert!(rt; run_batch(&rt, &mut store, *step) == step.4, "at {place}");
        let is_refused = step.4[0] != 0;
        assert!(rt;
            is_refused || listed(&rt, &mut rows) == rows_of(&rt, &mut store),
            "at {place}"
        );
    }
    end(store);
}

/// An INSERT into a table z that there is not, an INSERT of (1, NULL) into t, the DELETE of (2, 'q') and an INSERT of
/// (3, 'r').
const EACH_LINE: &[u8] = b"T\x02\x01\x00z\x00\x12\x00\x01\x00\x00\x00\x00\x00\x00\x00\x01\x03\x01x\
T\x02\x01\x00t\x00\x12\x00\x01\x00\x00\x00\x00\x00\x00\x00\x01\x05\
\x09\x00\x01\x00\x00\x00\x00\x00\x00\x00\x02\x03\x01q\
\x12\x00\x01\x00\x00\x00\x00\x00\x00\x00\x03\x03\x01r";

/// The report of that file over t without rows, which refuses NULL in b.
const EACH_TEXT: &[u8] =
    b"warning 17 skipped 'z'\nconflict 4 constraint omit 't'\nignored 1\napplied 1\n";

#[test]
fn prints_a_report(rt: HostRuntime) {
    let mut rows = tables(&rt);
    let handler = |_: &Conflict| Choice::Omit;
    let report = run_in(rt.alloc(), &mut rows, EACH_LINE, FORWARD, IGNORE, &handler).expect(
        &rt,
        "no refusal",
    );
    let mut out = Told::new(Vec::new(rt.alloc()));
    assert!(rt; report_text(&report.into_summary(), &mut out).is_ok());
    assert!(rt; out.into_inner().as_slice() == EACH_TEXT);
}

/// Omits a constraint conflict in t whose current row is this one, or none if it is none, and else replaces.
fn omit_at(conflict: &Conflict, current: Option<&Row>) -> Choice {
    if conflict.table.as_str() == "t"
        && conflict.kind == Kind::Constraint
        && conflict.current.as_ref() == current
    {
        Choice::Omit
    } else {
        Choice::Replace
    }
}

/// Runs the INSERT of (1, NULL) over rows, with that handler, and returns the number of conflicts or the code of the
/// refusal.
fn asked_at<B: Rows>(
    rt: &(impl Abort + AllocGlobal),
    rows: &mut B,
    current: Option<&Row>,
) -> usize {
    let handler = |conflict: &Conflict| omit_at(conflict, current);
    let run = run_in(rt.alloc(), rows, NULL_INSERT, FORWARD, REPORT, &handler);
    let [code, conflicts, ..] = answer(rt, run);
    code.max(conflicts)
}

#[test]
fn shows_the_current_row_of_a_constraint_conflict(rt: HostRuntime) {
    let mut rows = tables(&rt);
    assert!(rt; asked_at(&rt, &mut rows, None) == 1);
    let step = (INSERT, FORWARD, REPORT, Choice::Abort, [0; 5]);
    assert!(rt; run(&rt, &mut rows, step) == [0, 0, 0, 0, 1]);
    let row = row_of(&rt, &[Value::Int(1), Value::Text("x")]);
    assert!(rt; asked_at(&rt, &mut rows, Some(&row)) == 2);
    assert!(rt; asked_at(&rt, &mut rows, None) == 42);
}
