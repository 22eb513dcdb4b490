//! Calls in turn, on a store in memory. The table t has the columns a, its key, and b, which refuses NULL.

use cs_calls::{Service, answer_call};
use cs_store::Store;
use sqlite::MemStore;
use std::alloc::Global;

/// Returns whether the bytes are those of a refusal with the code.
fn is_refusal(bytes: &[u8], code: u64) -> bool {
    match bytes {
        [0x0b, rest @ ..] => rest.starts_with(&code.to_be_bytes()),
        _ => false,
    }
}

/// Returns whether the bytes of a call are answered with these, or refused with the code.
fn is_answered(
    alloc: Global,
    service: Service<MemStore>,
    call: &[u8],
    answer: Result<&[u8], u64>,
) -> (Service<MemStore>, bool) {
    let (service, result) = answer_call(alloc, service, call);
    let is_so = match (result, answer) {
        (Ok(bytes), Ok(wanted)) => bytes.as_slice() == wanted,
        (Ok(bytes), Err(code)) => is_refusal(&bytes, code),
        (Err(_), _) => false,
    };
    (service, is_so)
}

const DONE: Result<&[u8], u64> = Ok(b"\x00");

/// No row.
const NONE: Result<&[u8], u64> = Ok(b"\x03\x00");

/// The number 1.
const ONE: Result<&[u8], u64> = Ok(b"\x05\0\0\0\0\0\0\0\x01");

const TWO: Result<&[u8], u64> = Ok(b"\x05\0\0\0\0\0\0\0\x02");

/// The row of k.
const KX: Result<&[u8], u64> = Ok(b"\x03\x01\x02\x03\x01k\x03\x01x");

/// Reports that one entry was carried out, without a conflict.
const CLEAN: Result<&[u8], u64> = Ok(b"\x06\0\0\0\0\0\0\0\x01\0\0\0\0\0\0\0\0\x00\x00");

/// Reports that the INSERT of p had a conflict, and was omitted.
const OMITTED: Result<&[u8], u64> = Ok(
    b"\x06\0\0\0\0\0\0\0\0\0\0\0\0\0\0\0\0\x00\x01\x03\x00\x01t\x01\x03\x01p",
);

/// The conflict of the INSERT of n, where the row has y.
const FOUND: Result<&[u8], u64> = Ok(
    b"\x07\x01\0\0\0\0\0\0\0\0\x03\x01t\x01\x03\x01n\x01\x02\x03\x01n\x03\x01y",
);

/// Reports that the INSERT of n had a conflict, and replaced the row.
const REPLACED: Result<&[u8], u64> = Ok(
    b"\x06\0\0\0\0\0\0\0\x01\0\0\0\0\0\0\0\0\x00\x01\x03\x01\x01t\x01\x03\x01n",
);

/// Calls in turn, and what they are answered.
const CALLS: &[(&[u8], Result<&[u8], u64>)] = &[
    (b"\x01", Ok(b"\x01\x00")),
    (b"\x03\x01t\x02\x01a\x01\x01b\x02", DONE),
    (b"\x03\x01t\x02\x01a\x01\x01b\x02", Err(30)),
    (b"\x03\x01u\x01\x01a\x00", Err(32)),
    (b"\x01", Ok(b"\x01\x01\x01t")),
    (b"\x02\x01t", Ok(b"\x02\x02\x01a\x03\x01b\x02")),
    (b"\x02\x01u", Err(31)),
    (b"\x07\x01t\x02\x03\x01k\x03\x01x", DONE),
    (b"\x07\x01t\x02\x03\x01k\x03\x01y", Err(33)),
    (b"\x07\x01t\x02\x05\x03\x01y", Err(36)),
    (b"\x07\x01t\x02\x03\x01m\x05", Err(39)),
    (b"\x07\x01t\x01\x03\x01m", Err(35)),
    (b"\x07\x01t\x01\x05", Err(35)),
    (b"\x07\x01u\x01\x03\x01m", Err(31)),
    (b"\x04\x01t\x01\x03\x01k", KX),
    (b"\x04\x01t\x01\x03\x01m", NONE),
    (b"\x04\x01t\x01\x05", Err(36)),
    (b"\x04\x01t\x00", Err(35)),
    // Between begin and roll back.
    (b"\x0c", Err(96)),
    (b"\x0b", DONE),
    (b"\x0b", Err(95)),
    (b"\x07\x01t\x02\x03\x01m\x03\x01z", DONE),
    (
        b"\x05\x01t\x00\x05",
        Ok(b"\x04\x02\x02\x03\x01k\x03\x01x\x02\x03\x01m\x03\x01z\x00"),
    ),
    (b"\x0d", DONE),
    (b"\x0d", Err(96)),
    (b"\x06\x01t", ONE),
    // Between begin and commit.
    (b"\x0b", DONE),
    (b"\x07\x01t\x02\x03\x01m\x03\x01z", DONE),
    (b"\x07\x01t\x02\x03\x01m\x03\x01z", Err(33)),
    (b"\x0c", DONE),
    (
        b"\x05\x01t\x01\x01\x03\x01k\x05",
        Ok(b"\x04\x01\x02\x03\x01m\x03\x01z\x00"),
    ),
    (
        b"\x05\x01t\x00\x01",
        Ok(b"\x04\x01\x02\x03\x01k\x03\x01x\x01"),
    ),
    (b"\x08\x01t\x01\x03\x01k\x02\x03\x01m\x03\x01x", Err(33)),
    (b"\x08\x01t\x01\x03\x01k\x02\x03\x01n\x03\x01x", DONE),
    (b"\x08\x01t\x01\x03\x01k\x02\x03\x01k\x03\x01x", Err(34)),
    (b"\x08\x01t\x01\x03\x01k\x01\x05", Err(35)),
    (b"\x08\x01t\x01\x03\x01k\x02\x03\x01k\x05", Err(39)),
    (b"\x08\x01u\x01\x03\x01k\x01\x05", Err(31)),
    (b"\x04\x01t\x01\x03\x01k", NONE),
    (b"\x09\x01t\x01\x03\x01m", DONE),
    (b"\x09\x01t\x01\x03\x01m", Err(34)),
    (b"\x09\x01u\x01\x03\x01m", Err(31)),
    (b"\x0a\x01t\x02\x03\x01n\x03\x01y", DONE),
    (b"\x06\x01t", ONE),
    (b"\x0a\x01t\x02\x03\x01o\x03\x01y", DONE),
    (b"\x0a\x01t\x02\x03\x01n\x05", Err(39)),
    (b"\x0a\x01t\x02\x05\x03\x01y", Err(36)),
    (b"\x0a\x01t\x01\x03\x01n", Err(35)),
    (b"\x06\x01t", TWO),
    (b"\x06\x01u", Err(31)),
    // The INSERT of p is applied, has a conflict, and is reverted.
    (
        b"\x0e\x0eT\x02\x01\x00t\0\x12\0\x03\x01p\x03\x01q\x00\x02\x02\x02\x02",
        CLEAN,
    ),
    (
        b"\x0e\x0eT\x02\x01\x00t\0\x12\0\x03\x01p\x03\x01q\x00\x02\x02\x02\x02",
        Err(41),
    ),
    (
        b"\x0e\x0eT\x02\x01\x00t\0\x12\0\x03\x01p\x03\x01q\x00\x00\x00\x00\x00",
        OMITTED,
    ),
    (b"\x11\x0eT\x02\x01\x00t\0\x12\0\x03\x01p\x03\x01q", CLEAN),
    (b"\x11\x0eT\x02\x01\x00t\0\x12\0\x03\x01p\x03\x01q", Err(41)),
    (b"\x11\x01P", Err(3)),
    (b"\x06\x01t", TWO),
    // The INSERT of p has no conflict, and that of n one, which is repeated with REPLACE.
    (
        b"\x10\x0eT\x02\x01\x00t\0\x12\0\x03\x01p\x03\x01q\x00",
        Ok(b"\x07\x00"),
    ),
    (
        b"\x10\x0eT\x02\x01\x00t\0\x12\0\x03\x01n\x03\x01q\x00",
        FOUND,
    ),
    (
        b"\x0f\x0eT\x02\x01\x00t\0\x12\0\x03\x01n\x03\x01q\x00\x00",
        Err(99),
    ),
    (
        b"\x0f\x0eT\x02\x01\x00t\0\x12\0\x03\x01n\x03\x01q\x00\x01\0\0\0\0\0\0\0\0\x03\x01t\x01\x03\x01n\x01\x02\x03\x01n\x03\x01y\x01",
        REPLACED,
    ),
    (
        b"\x0f\x0eT\x02\x01\x00t\0\x12\0\x03\x01n\x03\x01q\x00\x01\0\0\0\0\0\0\0\0\x03\x01t\x01\x03\x01n\x01\x02\x03\x01n\x03\x01y\x01",
        Err(99),
    ),
    (b"\x0f\x01P\x00\x00", Err(3)),
    (b"\x10\x01P\x00", Err(3)),
    (b"\x06\x01t", TWO),
    // Rows are in the order of the bytes of their keys.
    (b"\x03\x01o\x02\x01a\x01\x01b\0", DONE),
    (b"\x07\x01o\x02\x04\x02\0\0\x03\0", DONE),
    (b"\x07\x01o\x02\x04\x01\x01\x03\0", DONE),
    (b"\x07\x01o\x02\x04\x01\0\x03\0", DONE),
    (b"\x07\x01o\x02\x04\0\x03\0", DONE),
    (b"\x07\x01o\x02\x03\x02aa\x03\0", DONE),
    (b"\x07\x01o\x02\x03\x01b\x03\0", DONE),
    (b"\x07\x01o\x02\x03\x01\0\x03\0", DONE),
    (b"\x07\x01o\x02\x03\0\x03\0", DONE),
    (
        b"\x07\x01o\x02\x01\xff\xff\xff\xff\xff\xff\xff\xff\x03\0",
        DONE,
    ),
    (b"\x07\x01o\x02\x01\0\0\0\0\0\0\x01\0\x03\0", DONE),
    (b"\x07\x01o\x02\x01\0\0\0\0\0\0\0\0\x03\0", DONE),
    (
        b"\x05\x01o\0\x01",
        Ok(b"\x04\x01\x02\x01\0\0\0\0\0\0\0\0\x03\0\x01"),
    ),
    (
        b"\x05\x01o\x01\x01\x01\0\0\0\0\0\0\0\0\x01",
        Ok(b"\x04\x01\x02\x01\0\0\0\0\0\0\x01\0\x03\0\x01"),
    ),
    (
        b"\x05\x01o\x01\x01\x01\0\0\0\0\0\0\x01\0\x01",
        Ok(b"\x04\x01\x02\x01\xff\xff\xff\xff\xff\xff\xff\xff\x03\0\x01"),
    ),
    (
        b"\x05\x01o\x01\x01\x01\xff\xff\xff\xff\xff\xff\xff\xff\x01",
        Ok(b"\x04\x01\x02\x03\0\x03\0\x01"),
    ),
    (
        b"\x05\x01o\x01\x01\x03\0\x01",
        Ok(b"\x04\x01\x02\x03\x01\0\x03\0\x01"),
    ),
    (
        b"\x05\x01o\x01\x01\x03\x01\0\x01",
        Ok(b"\x04\x01\x02\x03\x01b\x03\0\x01"),
    ),
    (
        b"\x05\x01o\x01\x01\x03\x01b\x01",
        Ok(b"\x04\x01\x02\x03\x02aa\x03\0\x01"),
    ),
    (
        b"\x05\x01o\x01\x01\x03\x02aa\x01",
        Ok(b"\x04\x01\x02\x04\0\x03\0\x01"),
    ),
    (
        b"\x05\x01o\x01\x01\x04\0\x01",
        Ok(b"\x04\x01\x02\x04\x01\0\x03\0\x01"),
    ),
    (
        b"\x05\x01o\x01\x01\x04\x01\0\x01",
        Ok(b"\x04\x01\x02\x04\x01\x01\x03\0\x01"),
    ),
    (
        b"\x05\x01o\x01\x01\x04\x01\x01\x01",
        Ok(b"\x04\x01\x02\x04\x02\0\0\x03\0\0"),
    ),
    // A session, and transactions while it is open.
    (b"\x15", Err(64)),
    (b"\x12", DONE),
    (b"\x12", Err(65)),
    (b"\x13\x01t", DONE),
    (b"\x13\x01t", Err(50)),
    (b"\x13\x01u", Err(31)),
    (b"\x15", Ok(b"\x09\x01")),
    (b"\x07\x01t\x02\x03\x01r\x03\x01s", DONE),
    (b"\x15", Ok(b"\x09\x00")),
    (
        b"\x14",
        Ok(b"\x08\x0eT\x02\x01\x00t\0\x12\0\x03\x01r\x03\x01s"),
    ),
    (b"\x0b", DONE),
    (b"\x14", Err(95)),
    (b"\x16", Err(95)),
    (b"\x07\x01t\x02\x03\x01p\x03\x01q", DONE),
    (b"\x0d", DONE),
    (
        b"\x14",
        Ok(b"\x08\x0eT\x02\x01\x00t\0\x12\0\x03\x01r\x03\x01s"),
    ),
    (b"\x0b", DONE),
    (b"\x07\x01t\x02\x03\x01p\x03\x01q", DONE),
    (b"\x07\x01t\x02\x03\x01p\x03\x01q", Err(33)),
    (
        b"\x0e\x0eT\x02\x01\x00t\0\x12\0\x03\x01v\x03\x01w\x00\x02\x02\x02\x02",
        CLEAN,
    ),
    (b"\x0c", DONE),
    (
        b"\x14",
        Ok(
            b"\x08\x1eT\x02\x01\x00t\0\x12\0\x03\x01r\x03\x01s\x12\0\x03\x01p\x03\x01q\x12\0\x03\x01v\x03\x01w",
        ),
    ),
    (
        b"\x16",
        Ok(b"\x06\0\0\0\0\0\0\0\x03\0\0\0\0\0\0\0\0\x00\x00"),
    ),
    (b"\x06\x01t", TWO),
    (b"\x14", Ok(b"\x08\x00")),
    (b"\x15", Ok(b"\x09\x00")),
    (b"\x17", DONE),
    (b"\x17", Err(64)),
    (b"\x16", Err(64)),
    (b"\x18", Ok(b"\x0a\0\0\0\0\0\0\0\x01\0\0\0\0\x04\0\0\0")),
    // Bytes that are no call.
    (b"\x19", Ok(b"\x0c\0\0\0\0\0\0\0\x5b\0\0\0\0\0\0\0\0")),
    (b"\x06\x01", Ok(b"\x0c\0\0\0\0\0\0\0\x01\0\0\0\0\0\0\0\x02")),
];

#[test]
fn carries_out_calls_in_turn(rt: HostRuntime) {
    let store = Store::new_memory(rt.alloc()).expect(&rt, "a store");
    let mut service = Service::new(store);
    for (at, (call, answer)) in CALLS.iter().enumerate() {
        let (next, is_so) = is_answered(rt.alloc(), service, call, *answer);
        assert!(rt; is_so, "at {at}");
        service = next;
    }
}
