//! What there are lists of in calls and answers, or one or none.
ghost use Rattle.std.specs.Prelude.{◌≡◌, ◌≤◌, ◌++◌, ℕ, List, Result, length, take, OnOk, OnErr};
ghost use Rattle.cs_value.specs.declared.TheConstants.{MAX_CONTENT_LEN};
ghost use Rattle.cs_value.specs.Spelling.{value_bytes, counted};
ghost use Rattle.cs_calls_parts.specs.declared.fault.Misread.{Misread as MisreadData};
ghost use Rattle.cs_calls_parts.specs.Reading.{Gives, value_of, column_of, row_of, text_of, wide_of};
ghost use Rattle.cs_calls_parts.specs.Spelling.{column_bytes, row_bytes, wide_bytes};

use crate::fault::Unread;
use crate::lists::Column;
use crate::spell::{write_column, write_number, write_row, write_text, write_value};
use crate::step::{read_column, read_number, read_row, read_text, read_value};
use cs_value::{NoMemory, OwnedValue, Row, Text};
use std::alloc::Global;

/// A part that there are lists of, or one or none.
pub trait Part: Drop {
    ghost part_of: { List ℕ → Result (Self × List ℕ) MisreadData };

    ghost part_bytes: { Self → List ℕ };

    // What has to hold for it to be written: its counts are not too large.
    ghost IsCounted: { Self → Type 0 };

    /// Returns the part at the front of the bytes, and the bytes after it.
    fn read(alloc: Global, bytes: &[u8]) -> Result<(Self, &[u8]), Unread>
        ensures { Gives (λ r. (r.0, r.1.now)) result (part_of bytes.now) };

    /// Appends the bytes of the part. [`NoMemory`] can leave some of them after the previous bytes.
    fn write(&self, out: &mut Vec<u8>) -> Result<(), NoMemory>
        requires { IsCounted self.now }
        ensures ok { OnOk result (out.new.items ≡ out.old.items ++ part_bytes self.now) }
        ensures err { OnErr result (take (length out.old.items) out.new.items ≡ out.old.items) };
}

impl Part for OwnedValue {
    ghost part_of = { value_of };

    ghost part_bytes = { value_bytes };

    ghost IsCounted = { λ _. Unit {0} };

    fn read(alloc: Global, bytes: &[u8]) -> Result<(OwnedValue, &[u8]), Unread> {
        read_value(alloc, bytes)
    }

    fn write(&self, out: &mut Vec<u8>) -> Result<(), NoMemory> {
        write_value(out, self)
    }
}

impl Part for Column {
    ghost part_of = { column_of };

    ghost part_bytes = { column_bytes };

    ghost IsCounted = { λ _. Unit {0} };

    fn read(alloc: Global, bytes: &[u8]) -> Result<(Column, &[u8]), Unread> {
        read_column(alloc, bytes)
    }

    fn write(&self, out: &mut Vec<u8>) -> Result<(), NoMemory> {
        write_column(out, self)
    }
}

impl Part for Row {
    ghost part_of = { row_of };

    ghost part_bytes = { row_bytes };

    ghost IsCounted = { λ row. length row ≤ MAX_CONTENT_LEN };

    fn read(alloc: Global, bytes: &[u8]) -> Result<(Row, &[u8]), Unread> {
        read_row(alloc, bytes)
    }

    fn write(&self, out: &mut Vec<u8>) -> Result<(), NoMemory> {
        write_row(out, self)
    }
}

impl Part for Text {
    ghost part_of = { text_of };

    ghost part_bytes = { counted };

    ghost IsCounted = { λ _. Unit {0} };

    fn read(alloc: Global, bytes: &[u8]) -> Result<(Text, &[u8]), Unread> {
        read_text(alloc, bytes)
    }

    fn write(&self, out: &mut Vec<u8>) -> Result<(), NoMemory> {
        write_text(out, self)
    }
}

impl Part for u64 {
    ghost part_of = { wide_of };

    ghost part_bytes = { wide_bytes };

    ghost IsCounted = { λ _. Unit {0} };

    fn read(_alloc: Global, bytes: &[u8]) -> Result<(u64, &[u8]), Unread> {
        read_number(bytes)
    }

    fn write(&self, out: &mut Vec<u8>) -> Result<(), NoMemory> {
        write_number(out, *self)
    }
}
