//! Histories: actions that insert a row into t, undos, redos and forgetting in one transaction; and calls on a store.
use crate::rows::{Call, edit_of, end, store_of};
use crate::session::{attached, begun};
use cs_history::{HistoryCall, HistoryFault, act_in_transaction, call, call_in_transaction};
use cs_session::Session;
use cs_store::{Edit, Transaction};
use cs_value::Value;
use sqlite::{Alter, MemStore};
use std::alloc::Global;
use std::process::Abort;

/// A step, whether it is accepted, and the number of rows that t has then.
type Expected = (Step, bool, u64);

#[derive(Clone, Copy)]
enum Step {
    /// Inserts a row.
    Act(&'static [Value<'static>]),
    /// Changes nothing.
    Rest,
    /// Makes an edit that is of no action.
    Edit(Call),
    Call(HistoryCall),
}

const UNDO: Step = Step::Call(HistoryCall::Undo);

const REDO: Step = Step::Call(HistoryCall::Redo);

// What is left of the actions that are done: two, none, as many as have 18 bytes, which is one, or less.
const KEEP_TWO: Step = Step::Call(HistoryCall::Forget {
    keep: 2,
    bytes: u64::MAX,
});

const KEEP_NONE: Step = Step::Call(HistoryCall::Forget {
    keep: 0,
    bytes: u64::MAX,
});

const KEEP_FILE: Step = Step::Call(HistoryCall::Forget { keep: 9, bytes: 18 });

const KEEP_LESS: Step = Step::Call(HistoryCall::Forget { keep: 9, bytes: 17 });

const STEPS: &[Expected] = &[
    (UNDO, false, 0),
    (Step::Act(&[Value::Int(1), Value::Null]), true, 1),
    (Step::Act(&[Value::Int(2), Value::Null]), true, 2),
    (REDO, false, 2),
    (UNDO, true, 1),
    (UNDO, true, 0),
    (UNDO, false, 0),
    (REDO, true, 1),
    (Step::Rest, true, 1),
    (REDO, true, 2),
    (UNDO, true, 1),
    (Step::Act(&[Value::Int(3), Value::Null]), true, 2),
    (REDO, false, 2),
    (UNDO, true, 1),
    (UNDO, true, 0),
    (REDO, true, 1),
    (REDO, true, 2),
    (KEEP_TWO, true, 2),
    (UNDO, true, 1),
    (KEEP_NONE, true, 1),
    (UNDO, false, 1),
    (REDO, true, 2),
    (Step::Act(&[Value::Int(4), Value::Null]), true, 3),
    (KEEP_FILE, true, 3),
    (UNDO, true, 2),
    (UNDO, false, 2),
    (REDO, true, 3),
    (KEEP_LESS, true, 3),
    (UNDO, false, 3),
    (Step::Act(&[Value::Int(5), Value::Null]), true, 4),
    (Step::Edit(Call::Delete("t", 5)), true, 3),
    (UNDO, false, 3),
];

const FORGET: HistoryCall = HistoryCall::Forget { keep: 0, bytes: 0 };

/// Calls on a store with t, each in a transaction of its own: the name of the history, and whether it is accepted.
const CALLS: &[(&str, HistoryCall, bool)] = &[
    ("undo", HistoryCall::Undo, false),
    ("undo", FORGET, false),
    ("undo", HistoryCall::Open, true),
    ("undo", HistoryCall::Open, true),
    ("undo", HistoryCall::Redo, false),
    ("undo", FORGET, true),
    ("t", HistoryCall::Open, false),
    ("t", FORGET, false),
];

/// Carries out an edit that a session records, and notes it as an action.
fn act<S: Alter + Drop>(
    alloc: Global,
    transaction: &mut Transaction<S>,
    session: &mut Session,
    edit: &Edit,
) -> Result<(), HistoryFault> {
    session.edit_in_transaction(alloc, transaction, edit)?;
    act_in_transaction(alloc, transaction, "undo", "Insert", session)?;
    Ok(())
}

/// Carries out a step, and returns whether it is accepted.
fn carry_out(
    rt: &(impl Abort + AllocGlobal),
    transaction: &mut Transaction<MemStore>,
    session: &Session,
    step: Step,
) -> bool {
    let mut session = session.unwritten(rt.alloc()).expect(rt, "memory");
    match step {
        Step::Act(row) => {
            let edit = edit_of(rt, Call::Insert("t", row));
            act(rt.alloc(), transaction, &mut session, &edit).is_ok()
        }
        Step::Rest => {
            act_in_transaction(rt.alloc(), transaction, "undo", "Rest", &session).is_ok()
        }
        Step::Edit(edit) => {
            let edit = edit_of(rt, edit);
            transaction.edit(rt.alloc(), &edit).is_ok()
        }
        Step::Call(call) => call_in_transaction(rt.alloc(), transaction, "undo", call).is_ok(),
    }
}

#[test]
fn undoes_and_redoes_actions(rt: HostRuntime) {
    let (store, session) = attached(&rt);
    let mut transaction = begun(&rt, store);
    let opened = call_in_transaction(rt.alloc(), &mut transaction, "undo", HistoryCall::Open);
    assert!(rt; opened.is_ok());
    for (place, step) in STEPS.iter().enumerate() {
        assert!(rt;
            carry_out(&rt, &mut transaction, &session, step.0) == step.1,
            "at {place}"
        );
        let count = transaction.count(rt.alloc(), "t").expect(&rt, "a table");
        assert!(rt; count == step.2, "at {place}");
    }
    end(transaction.roll_back());
}

#[test]
fn makes_a_transaction_of_a_call(rt: HostRuntime) {
    let mut store = store_of(&rt, &[false, false]);
    for (place, expected) in CALLS.iter().enumerate() {
        let (next, outcome) = call(rt.alloc(), store, expected.0, expected.1);
        store = next;
        assert!(rt; outcome.is_ok() == expected.2, "at {place}");
    }
    end(store);
}
