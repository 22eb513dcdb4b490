//! Numbers, classes, names and texts of the refusals of stores and applies.

use crate::DELETE;
use crate::faults::{expect_named, expect_text};
use cs_apply_engine::{ApplyFault, Choice, Conflict, Direction, Noop, run_in};
use cs_rows::{Cause, MemRows, StoreError};
use std::process::Abort;

/// An INSERT of (1, NULL) into the table t.
const NULL_INSERT: &[u8] = b"T\x02\x01\x00t\x00\x12\x00\x01\x00\x00\x00\x00\x00\x00\x00\x01\x05";

/// Returns tables in memory with t, which refuses NULL in b and has no rows.
fn tables(rt: &(impl Abort + AllocGlobal)) -> MemRows {
    let mut rows = MemRows::new(rt.alloc());
    let mut columns = Vec::new(rt.alloc());
    for name in ["a", "b"] {
        let column = String::from_str(rt.alloc(), name).expect(rt, "memory");
        columns.push(column).expect(rt, "memory");
    }
    rows.declare(rt.alloc(), "t", &columns, &[true, false], &[false, true])
        .expect(rt, "a table");
    rows
}

/// Returns the refusal of a file by t, with one choice for all conflicts.
fn refusal(rt: &(impl Abort + AllocGlobal), file: &[u8], choice: Choice) -> ApplyFault {
    let handler = |_: &Conflict| choice;
    let mut rows = tables(rt);
    run_in(
        rt.alloc(),
        &mut rows,
        file,
        Direction::Forward,
        Noop::Report,
        &handler,
    )
    .expect_err(rt, "a refusal")
}

#[test]
fn numbers_refusals_of_stores(rt: HostRuntime) {
    for (error, code, class, name) in [
        (StoreError::TableExists, 30, 1, "TableExists"),
        (StoreError::NoTable, 31, 1, "NoTable"),
        (StoreError::BadSchema, 32, 1, "BadSchema"),
        (StoreError::KeyTaken, 33, 1, "KeyTaken"),
        (StoreError::NoRow, 34, 1, "NoRow"),
        (StoreError::RowWidth, 35, 1, "RowWidth"),
        (StoreError::NullInKey, 36, 1, "NullInKey"),
        (StoreError::DamagedStore, 37, 11, "DamagedStore"),
        (StoreError::StoreFault(Cause::Busy), 38, 1, "StoreFault"),
        (StoreError::NotNull, 39, 19, "NotNull"),
        (StoreError::NoMemory, 60, 7, "NoMemory"),
    ] {
        expect_named(&rt, &error, code, class, name);
    }
}

#[test]
fn numbers_refusals_of_applies(rt: HostRuntime) {
    expect_named(&rt, &ApplyFault::Wider(3), 40, 17, "Wider");
    expect_named(&rt, &refusal(&rt, DELETE, Choice::Abort), 41, 4, "Abort");
    expect_named(
        &rt,
        &refusal(&rt, DELETE, Choice::Replace),
        42,
        21,
        "Misuse",
    );
}

#[test]
fn prints_refusals_of_applies(rt: HostRuntime) {
    for (file, choice, text) in [
        (
            DELETE,
            Choice::Abort,
            "aborted at a conflict of kind notfound in table t",
        ),
        (
            NULL_INSERT,
            Choice::Abort,
            "aborted at a conflict of kind constraint in table t",
        ),
        (
            DELETE,
            Choice::Replace,
            "replace is not possible at a conflict of kind notfound in table t",
        ),
        (
            NULL_INSERT,
            Choice::Replace,
            "replace is not possible at a conflict of kind constraint in table t",
        ),
    ] {
        expect_text(&rt, &refusal(&rt, file, choice), text);
    }
}

#[test]
fn prints_why_a_database_refuses(rt: HostRuntime) {
    for (cause, text) in [
        (
            Cause::Busy,
            "the database refused: another connection has it open",
        ),
        (
            Cause::NotADatabase,
            "the database refused: it is not a database that can be read",
        ),
        (Cause::Full, "the database refused: the disk is full"),
        (
            Cause::InputOutput,
            "the database refused: a file cannot be read or written",
        ),
        (
            Cause::Other,
            "the database refused: it does not carry out the call",
        ),
    ] {
        expect_text(&rt, &StoreError::StoreFault(cause), text);
    }
}
