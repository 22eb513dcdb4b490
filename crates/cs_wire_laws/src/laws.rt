//! Laws of read faults, as functions that do nothing.
ghost use Rattle.cs_wire_laws.specs.Laws.{ReadFaultOnce, ReadFaultSome};

/// Has no effect. Its contract says that bytes have one read fault at most: one kind, at one byte offset.
pub fn read_fault_once_law()
    ensures { ReadFaultOnce }
{}

/// Has no effect. Its contract says that bytes that are no changeset's file have a read fault.
pub fn read_fault_some_law()
    ensures { ReadFaultSome }
{}
