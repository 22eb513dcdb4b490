//! The iterator over the changes of a file, and their values.
ghost use Rattle.std.specs.Prelude.{◌≡◌, ◌≢◌, ◌↔◌, ◌+◌, ◌<◌, ◌≤◌, [], ℕ, IfSome, List, None, length};
ghost use Rattle.cs_value.specs.declared.refusal.OrNoMemory.TheVariants.{Fault as OfFile};
ghost use Rattle.cs_wire_entries.specs.declared.fault.ReadFault.{ReadFault as ReadFaultData};
ghost use Rattle.cs_wire_entries.specs.declared.fault.ReadFaultKind.TheVariants.{EmptyGroup};
ghost use Rattle.cs_wire_entries.specs.Changeset.{GroupData, HeaderData, IsFileOf, IsHeader, header_bytes};
ghost use Rattle.cs_wire_entries.specs.ReadFaults.{HasEntry, Stands};
ghost use Rattle.cs_files.specs.declared.fault.FileFault.TheVariants.{First};
ghost use Rattle.cs_file_iterator.specs.Changes.{ChangesLeft, IsStep, LiesIn, Shows, TableChange};
ghost use Rattle.cs_file_iterator.specs.Readable.{AreAll, IsUnreadable, ReadsOn, WereRead};
ghost use Rattle.cs_file_iterator.specs.Values.{KeepsOthers, LieWithin, ShowsValue, ShowsValues};
ghost use Rattle.vollikash.specs.Answers.{no_fault, report_of};
ghost use Rattle.vollikash.specs.Iterating.{IsStepCode, TellsFault, side_number};
ghost use Rattle.cs_file_iterator.specs.declared.value.Side.{Side as SideData};
ghost use Rattle.cs_file_iterator.specs.Values.{field_on};

use crate::answer::{DONE, FaultReport, NO_ROOM, OK, RANGE, report, report_plain};
use cs_file_iterator::{ChangeSpan, Side, ValueSpan, change_value, change_values, next_change};
use cs_files::first_fault;
use cs_value::Fault;
use cs_wire_entries::ReadError;

/// Puts the next change of a file into `change`, and the offset after it into `place`.
///
/// `place` is 0 before the first call. Each later call takes `place` and `change` as the previous one left them. It
/// answers `OK`, or `DONE` at the end of the file, or the number of what is wrong with the file, which is that of
/// [`vollikash_check`](crate::vollikash_check) unless a table or a key is there twice; then both are unchanged. For a
/// header without a change after it, it is that of `EmptyGroup`, whatever was read before. It allocates nothing, and
/// takes time in proportion to the change.
#[unsafe(no_mangle)]
pub extern "C" fn vollikash_next(
    file: &[u8],
    place: &mut usize,
    change: &mut ChangeSpan,
    fault: &mut FaultReport,
) -> i32
    ensures next { (all : List GroupData) (left : List TableChange) → IsFileOf file.now all → ChangesLeft file.now all left place.old change.old
        → result ≡ OK → IsStep file.now all left change.new place.new }
    ensures done { (all : List GroupData) (left : List TableChange) → IsFileOf file.now all → ChangesLeft file.now all left place.old change.old
        → result ≡ DONE → left ≡ [] }
    ensures no_fault { (all : List GroupData) (left : List TableChange) → IsFileOf file.now all → ChangesLeft file.now all left place.old change.old
        → IsStepCode result }
    ensures ended { (result ≡ DONE) ↔ (place.old ≡ length file.now) }
    ensures reads { (groups : List GroupData) → WereRead file.now groups place.old change.old
        → result ≡ OK → ReadsOn file.now groups change.new place.new }
    ensures stops { (groups : List GroupData) → WereRead file.now groups place.old change.old
        → (IsStepCode result → ⊥) → AreAll file.now groups }
    ensures checked { (groups : List GroupData) (found : ReadFaultData) → WereRead file.now groups place.old change.old
        → IsUnreadable file.now found → (IsStepCode result → ⊥) → fault.new ≡ report_of (OfFile (First found)) }
    ensures unfinished { (groups : List GroupData) (found : ReadFaultData) → WereRead file.now groups place.old change.old
        → IsUnreadable file.now found → result ≢ DONE }
    ensures empty { (header : HeaderData) (end : ℕ) → IsHeader header
        → Stands file.now place.old (header_bytes header) end → (HasEntry file.now end → ⊥)
        → fault.new ≡ report_of (OfFile (First (record { kind = EmptyGroup; place = end }))) }
    ensures within { result ≡ OK → LiesIn file.now change.new }
    ensures ends { result ≡ OK → change.new.records + change.new.records_length ≡ place.new }
    ensures forward { result ≡ OK → (place.old < place.new) × (place.new ≤ length file.now) }
    ensures same { result ≢ OK → (place.new ≡ place.old) × (change.new ≡ change.old) }
    ensures refused { (IsStepCode result → ⊥) → TellsFault fault.new }
    ensures code { fault.new.code ≡ result }
    ensures plain { IsStepCode result → fault.new ≡ no_fault result }
{
    match next_change(file, *place, change) {
        Ok(Some((next, end))) => {
            *change = next;
            *place = end;
            *fault = report_plain(OK);
            OK
        }
        Ok(None) => {
            *fault = report_plain(DONE);
            DONE
        }
        Err(error) => {
            *fault = report(&first_fault(ReadError::Fault(error)));
            fault.code
        }
    }
}

/// Puts what a change says of a column on one side into `value`: where it lies in the file, or the integer.
///
/// `change` is as `vollikash_next` left it for the same file. `side` is 0 for before the change and 1 for after it, and
/// `column` is zero-based. It answers `OK`, or `RANGE` if there is no such side or column, or the number of what is
/// wrong with the file; then `value` is unchanged. It allocates nothing.
#[unsafe(no_mangle)]
pub extern "C" fn vollikash_value(
    file: &[u8],
    change: &ChangeSpan,
    side: i32,
    column: usize,
    value: &mut ValueSpan,
) -> i32
    ensures value { (side_is : SideData) (shown : TableChange) → side ≡ side_number side_is → Shows file.now change.now shown
        → column < length shown.header.flags
        → (result ≡ OK) × ShowsValue file.now value.new (field_on side_is shown.entry.change column) }
    ensures no_column { (side_is : SideData) (shown : TableChange) → side ≡ side_number side_is → Shows file.now change.now shown
        → length shown.header.flags ≤ column → result ≡ RANGE }
    ensures no_side { ((side_is : SideData) → side ≢ side_number side_is) → result ≡ RANGE }
    ensures within { result ≡ OK → value.new.offset + value.new.length ≤ length file.now }
    ensures same { result ≢ OK → value.new ≡ value.old }
{
    let Some(side) = side_of(side) else {
        return RANGE;
    };
    match change_value(file, change, side, column) {
        Ok(Some(found)) => {
            *value = found;
            OK
        }
        Ok(None) => RANGE,
        Err(fault) => i32::from(fault.code()),
    }
}

/// Puts what a change says of each column on one side into the front of `values`, in one pass over the change: where
/// each value lies in the file, or the integer.
///
/// `change` and `side` are as for [`vollikash_value`]. It answers `OK`, or `NO_ROOM` if there are fewer `values` than
/// columns, or `RANGE` if there is no such side; then all are unchanged. Or it answers the number of what is wrong with
/// the file, and the values of the columns mean nothing. Values after those of the columns are not changed. It
/// allocates nothing.
#[unsafe(no_mangle)]
pub extern "C" fn vollikash_values(
    file: &[u8],
    change: &ChangeSpan,
    side: i32,
    values: &mut [ValueSpan],
) -> i32
    ensures values { (side_is : SideData) (shown : TableChange) → side ≡ side_number side_is → Shows file.now change.now shown
        → length shown.header.flags ≤ length values.old → (result ≡ OK)
        × ShowsValues file.now (length shown.header.flags) (field_on side_is shown.entry.change) values.new }
    ensures others { KeepsOthers change.now.columns values.old values.new }
    ensures few { (side_is : SideData) → side ≡ side_number side_is → length values.old < change.now.columns
        → (result ≡ NO_ROOM) × (values.new ≡ values.old) }
    ensures no_side { ((side_is : SideData) → side ≢ side_number side_is)
        → (result ≡ RANGE) × (values.new ≡ values.old) }
    ensures within { result ≡ OK → LieWithin file.now change.now.columns values.new }
{
    let Some(side) = side_of(side) else {
        return RANGE;
    };
    match change_values(file, change, side, values) {
        Ok(true) => OK,
        Ok(false) => NO_ROOM,
        Err(fault) => i32::from(fault.code()),
    }
}

/// The side of a number.
fn side_of(number: i32) -> Option<Side>
    ensures side { IfSome result (λ side. number ≡ side_number side) }
    ensures none { result ≡ None → (side : SideData) → number ≢ side_number side }
{
    match number {
        0 => Some(Side::Old),
        1 => Some(Side::New),
        _ => None,
    }
}
