//! Numbers, classes, names and texts of faults.

use cs_files::{FileFault, OutputFault, ToolFault};
use cs_group::SchemaFault;
use cs_value::{Fault, FieldFault, FieldFaultKind, ImageFault, NoMemory};
use cs_wire::{ReadError, ReadFault, ReadFaultKind};
use std::fmt::Display;
use std::process::Abort;

/// A fault of a field.
const FIELD_FAULT: FieldFault = FieldFault {
    kind: FieldFaultKind::BadText,
    place: 9,
};

/// A fault of a file.
const READ_FAULT: ReadFault = ReadFault {
    kind: ReadFaultKind::Unpaired,
    place: 20,
};

/// The texts of the faults of fields.
const FIELD_TEXTS: &[(FieldFaultKind, &str)] = &[
    (FieldFaultKind::Truncated, "the bytes end inside a field"),
    (
        FieldFaultKind::BadVarint,
        "a count is not spelled as a varint",
    ),
    (FieldFaultKind::BadType, "a field has no type of the format"),
    (FieldFaultKind::RealValue, "a field is a real number"),
    (FieldFaultKind::BadText, "a text is not UTF-8"),
];

/// The texts of the faults of files.
const FILE_TEXTS: &[(ReadFaultKind, &str)] = &[
    (ReadFaultKind::Truncated, "the file ends inside a part"),
    (
        ReadFaultKind::NotTable,
        "the file does not begin with a table",
    ),
    (ReadFaultKind::Patchset, "the file is a patchset"),
    (
        ReadFaultKind::BadVarint,
        "a count is not spelled as a varint",
    ),
    (
        ReadFaultKind::ColumnCount,
        "a table has no column, or more than 32767",
    ),
    (ReadFaultKind::NoKey, "a table has no key column"),
    (
        ReadFaultKind::BadName,
        "a table's name is empty or not UTF-8",
    ),
    (ReadFaultKind::DuplicateTable, "a table stands twice"),
    (ReadFaultKind::EmptyGroup, "a table has no change"),
    (
        ReadFaultKind::BadOp,
        "a change has no operation of the format",
    ),
    (
        ReadFaultKind::BadFlag,
        "an indirect flag is neither 0 nor 1",
    ),
    (ReadFaultKind::BadType, "a field has no type of the format"),
    (ReadFaultKind::RealValue, "a field is a real number"),
    (ReadFaultKind::BadText, "a text is not UTF-8"),
    (
        ReadFaultKind::UndefinedField,
        "a field that has to be defined is not",
    ),
    (
        ReadFaultKind::Unpaired,
        "a field of an update is defined on one side alone",
    ),
    (ReadFaultKind::NullKey, "a key is NULL"),
    (ReadFaultKind::DuplicateKey, "a key stands twice in a table"),
];

/// Asserts the text of a fault.
pub(crate) fn expect_text(rt: &(impl Abort + AllocGlobal), fault: &impl Display, text: &str) {
    let shown = format!(in rt.alloc(); "{fault}").expect(rt, "memory");
    assert!(rt; shown.as_str() == text, "at {text}");
}

#[test]
fn prints_kinds(rt: HostRuntime) {
    for (kind, text) in FIELD_TEXTS {
        expect_text(&rt, kind, text);
    }
    for (kind, text) in FILE_TEXTS {
        expect_text(&rt, kind, text);
    }
}

#[test]
fn prints_places(rt: HostRuntime) {
    let text = "a text is not UTF-8 at byte 9";
    expect_text(&rt, &FIELD_FAULT, text);
    expect_text(&rt, &ImageFault::Fault(FIELD_FAULT), text);
    let text = "a field of an update is defined on one side alone at byte 20";
    expect_text(&rt, &READ_FAULT, text);
    expect_text(&rt, &ReadError::Fault(READ_FAULT), text);
}

#[test]
fn prints_out_of_memory(rt: HostRuntime) {
    expect_text(&rt, &NoMemory, "out of memory");
    expect_text(&rt, &ImageFault::NoMemory, "out of memory");
    expect_text(&rt, &ReadError::NoMemory, "out of memory");
}

/// Asserts the number, the class and the name of a fault.
pub(crate) fn expect_named(rt: &impl Abort, fault: &impl Fault, code: u8, class: u8, name: &str) {
    assert!(rt;
        fault.code() == code && fault.class() == class && fault.name() == name,
        "of {name}"
    );
}

#[test]
fn numbers_kinds(rt: HostRuntime) {
    for (kind, code, name) in [
        (FieldFaultKind::Truncated, 1, "Truncated"),
        (FieldFaultKind::BadVarint, 4, "BadVarint"),
        (FieldFaultKind::BadType, 12, "BadType"),
        (FieldFaultKind::RealValue, 13, "RealValue"),
        (FieldFaultKind::BadText, 14, "BadText"),
    ] {
        assert!(rt; kind.code() == code && kind.name() == name, "of {name}");
    }
    let kind = ReadFaultKind::Unpaired;
    assert!(rt; kind.code() == 16 && kind.name() == "Unpaired");
}

#[test]
fn numbers_faults(rt: HostRuntime) {
    assert!(rt; FIELD_FAULT.behind(3).place == 12);
    expect_named(&rt, &FIELD_FAULT, 14, 11, "BadText");
    expect_named(&rt, &ImageFault::Fault(FIELD_FAULT), 14, 11, "BadText");
    expect_named(&rt, &READ_FAULT, 16, 11, "Unpaired");
    expect_named(&rt, &ReadError::Fault(READ_FAULT), 16, 11, "Unpaired");
}

#[test]
fn numbers_faults_of_files(rt: HostRuntime) {
    let schema = SchemaFault { place: 3 };
    expect_named(&rt, &schema, 43, 17, "Schema");
    expect_named(
        &rt,
        &ToolFault::Fault(FileFault::Schema(schema)),
        43,
        17,
        "Schema",
    );
    expect_named(&rt, &FileFault::First(READ_FAULT), 16, 11, "Unpaired");
    expect_named(&rt, &FileFault::Second(READ_FAULT), 16, 11, "Unpaired");
    expect_named(&rt, &OutputFault, 72, 10, "OutputFault");
    let text = "a table has other columns or another key at group 3";
    expect_text(&rt, &schema, text);
    expect_text(&rt, &ToolFault::Fault(FileFault::Schema(schema)), text);
    expect_text(&rt, &OutputFault, "a write failed");
}

#[test]
fn numbers_out_of_memory(rt: HostRuntime) {
    expect_named(&rt, &NoMemory, 60, 7, "NoMemory");
    expect_named(&rt, &ImageFault::from(NoMemory), 60, 7, "NoMemory");
    expect_named(&rt, &ReadError::from(NoMemory), 60, 7, "NoMemory");
}
