//! Answers of stores, and their bytes.

use cs_apply_conflict_kinds::{Choice, Kind};
use cs_calls_answers::{Answer, CallError, answer_read, answer_write};
use cs_value::Fault;
use std::process::Abort;

/// The bytes of each answer, and its name in `docs/CALLS.md`.
const ANSWERS: &[(&str, &[u8])] = &[
    ("done", b"\x00"),
    ("names", b"\x01\x02\x01t\x00"),
    ("schema", b"\x02\x02\x01a\x01\x01b\x02"),
    ("row or none", b"\x03\x00"),
    ("row or none", b"\x03\x01\x02\x03\x01x\x05"),
    ("rows", b"\x04\x02\x01\x03\x01x\x01\x05\x01"),
    ("number", b"\x05\x00\x00\x00\x00\x00\x00\x01\x02"),
    ("report", REPORT),
    ("conflicts", CONFLICTS),
    ("changeset", b"\x08\x01T"),
    ("yes or no", b"\x09\x01"),
    (
        "limits",
        b"\x0a\x00\x00\x00\x00\x00\x00\x00\x01\x00\x00\x00\x00\x04\x00\x00\x00",
    ),
    (
        "refused",
        b"\x0b\x00\x00\x00\x00\x00\x00\x00\x21\x01\x01t\x00\x01\x01\x03\x01x\x00",
    ),
    (
        "refused",
        b"\x0b\x00\x00\x00\x00\x00\x00\x00\x28\x00\x01\x01a\x00\x01\x00\x00\x00\x00\x00\x00\x00\x02",
    ),
    (
        "unread",
        b"\x0c\x00\x00\x00\x00\x00\x00\x00\x5c\x00\x00\x00\x00\x00\x00\x00\x03",
    ),
];

/// Three entries were carried out, one was ignored, z was skipped, and of t the row of the key 'x' was replaced.
const REPORT: &[u8] = b"\x06\x00\x00\x00\x00\x00\x00\x00\x03\x00\x00\x00\x00\x00\x00\x00\x01\
\x01\x01z\x01\x01\x01\x01t\x01\x03\x01x";

/// The entries 2 and 3 would have conflicts: NOTFOUND, and CONSTRAINT with a current row.
const CONFLICTS: &[u8] = b"\x07\x02\x00\x00\x00\x00\x00\x00\x00\x02\x02\x01t\x01\x05\x00\
\x00\x00\x00\x00\x00\x00\x00\x03\x04\x01t\x01\x03\x01x\x01\x02\x03\x01x\x05";

/// Returns the name of an answer.
fn name_of(answer: &Answer) -> &'static str {
    match answer {
        Answer::Done => "done",
        Answer::Names(_) => "names",
        Answer::Schema(_) => "schema",
        Answer::Row(_) => "row or none",
        Answer::Rows { .. } => "rows",
        Answer::Number(_) => "number",
        Answer::Report(_) => "report",
        Answer::Conflicts(_) => "conflicts",
        Answer::Changeset(_) => "changeset",
        Answer::Flag(_) => "yes or no",
        Answer::Limits { .. } => "limits",
        Answer::Refused(_) => "refused",
        Answer::Unread { .. } => "unread",
    }
}

/// Returns whether the bytes are the answer of a name, and it is written as them.
fn is_read_and_written(rt: &(impl Abort + AllocGlobal), name: &str, bytes: &[u8]) -> bool {
    let answer = answer_read(rt.alloc(), bytes).expect(rt, "an answer");
    let mut out = Vec::new(rt.alloc());
    answer_write(&mut out, &answer).expect(rt, "memory");
    out.as_slice() == bytes && name_of(&answer) == name
}

#[test]
fn reads_and_writes_each_answer(rt: HostRuntime) {
    for (name, bytes) in ANSWERS {
        assert!(rt; is_read_and_written(&rt, name, bytes), "{name}");
    }
}

/// Returns whether the parts of an answer are those of its line of [`ANSWERS`], where their order and numbers matter.
fn has_its_parts(answer: &Answer) -> bool {
    match answer {
        Answer::Rows { rows, more } => rows.as_slice().len() == 2 && *more,
        Answer::Number(number) => *number == 258,
        Answer::Report(report) => {
            report.written == 3
                && report.ignored == 1
                && report.skipped.as_slice().len() == 1
                && matches!(report.conflicts.as_slice(), [met]
                    if met.kind == Kind::Data && met.choice == Choice::Replace)
        }
        Answer::Conflicts(conflicts) => matches!(conflicts.as_slice(), [first, second]
            if first.index == 2 && first.kind == Kind::NotFound && first.current.is_none()
                && second.kind == Kind::Constraint && second.current.is_some()),
        Answer::Limits { version, bytes } => *version == 1 && *bytes == 67_108_864,
        Answer::Refused(refused) => {
            (refused.code == 33 && refused.table.is_some() && refused.key.is_some())
                || (refused.code == 40 && refused.column.is_some() && refused.detail == Some(2))
        }
        Answer::Unread { code, offset } => *code == 92 && *offset == 3,
        _ => true,
    }
}

#[test]
fn reads_the_parts_of_answers_in_their_order(rt: HostRuntime) {
    for (name, bytes) in ANSWERS {
        let answer = answer_read(rt.alloc(), bytes).expect(&rt, "an answer");
        assert!(rt; has_its_parts(&answer), "{name}");
    }
}

/// Bytes that are no answer, and the code and the place of their fault.
const FAULTS: &[(&[u8], u8, usize)] = &[
    (b"", 1, 0),
    (b"\x0d", 93, 0),
    (b"\x00\x00", 92, 1),
    (b"\x05\x00\x00", 1, 3),
    (
        b"\x06\x00\x00\x00\x00\x00\x00\x00\x03\x00\x00\x00\x00\x00\x00\x00\x01\x00\x01\x00",
        90,
        19,
    ),
    (
        b"\x06\x00\x00\x00\x00\x00\x00\x00\x03\x00\x00\x00\x00\x00\x00\x00\x01\x00\x01\x05",
        90,
        19,
    ),
    (b"\x09\x02", 90, 1),
    (b"\x03\x01\x01\x00", 15, 3),
];

/// Returns the code and the place of a fault, or zeros.
fn fault_of(read: Result<Answer, CallError>) -> (u8, usize) {
    match read {
        Err(CallError::Fault(fault)) => (fault.code(), fault.place),
        _ => (0, 0),
    }
}

#[test]
fn refuses_what_is_no_answer(rt: HostRuntime) {
    for (at, (bytes, code, place)) in FAULTS.iter().enumerate() {
        let fault = fault_of(answer_read(rt.alloc(), bytes));
        assert!(rt; fault == (*code, *place), "at {at}");
    }
}
