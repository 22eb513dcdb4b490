//! One pass over all records: each is tested where it lies in its row.
ghost use Rattle.std.specs.Prelude.{◌≡◌, ◌↔◌, ◌<ℤ◌, ℤ, List, ℕ, false, IsTrue, IfOk, IfSome, MatchOption, IfErr};
ghost use Rattle.sqlite_value.specs.Order.{column};
ghost use Rattle.sqlite.specs.State.{HasCleanDisk, Survives};
ghost use Rattle.sqlite.specs.Held.{state};
ghost use Rattle.cs_store_sql.specs.Records.{content, record_of, record_rows, DeclaresRecords, HasNumberAbove, KeepsCrash, Pass};
ghost use Rattle.cs_store_sql.specs.Failing.{CannotRead, ChangesNothing, IsFailure, RefusalRests};

use crate::fault::RecordsError;
use crate::texts;
use sqlite::types::ValueRef;
use sqlite::{Alter, Connection, Row};
use std::alloc::{AllocError, Global};

/// A test of one record.
pub trait RecordTest {
    ghost use Rattle.cs_store_sql.specs.Records.{RecordData};

    ghost passes: { Self → RecordData → Type 0 };

    /// Whether the record with this name, key and value passes. Fails only for memory.
    fn is_passed_by(
        &self,
        alloc: Global,
        tab: &[u8],
        key: &[u8],
        value: &[u8],
    ) -> Result<bool, AllocError>
        ensures passed { IfOk result (λ yes. IsTrue yes
            → passes self.now (record { tab = tab.now; key = key.now; value = value.now })) }
        ensures failed { IfOk result (λ yes. yes ≡ false
            → ¬ passes self.now (record { tab = tab.now; key = key.now; value = value.now })) };
}

/// Whether the number is above the last, where there was one.
fn is_above(last: Option<i64>, number: i64) -> bool
    ensures { IsTrue result ↔ IfSome last (λ before. before <ℤ number) }
{
    match last {
        Some(before) => before < number,
        None => true,
    }
}

/// Returns the number of a row, if it has one that is above the last.
fn number_above(row: &Row, last: Option<i64>) -> Option<i64>
    ensures { MatchOption result ((number : ℤ) → ¬ HasNumberAbove last row.now number) (HasNumberAbove last row.now) }
{
    match row.get_ref(0) {
        Ok(ValueRef::Int(number)) if is_above(last, number) => Some(number),
        _ => None,
    }
}

/// Returns the bytes of a text or a blob in a row.
pub(crate) fn content_at(row: &Row, at: usize) -> &[u8]
    ensures { result.now ≡ content (column row.now at) }
{
    match row.get_ref(at) {
        Ok(ValueRef::Text(bytes) | ValueRef::Blob(bytes)) => bytes,
        _ => &[],
    }
}

/// Returns whether the record of a row passes the test.
fn is_good<T: RecordTest>(alloc: Global, test: &T, row: &Row) -> Result<bool, AllocError>
    ensures passed { IfOk result (λ yes. IsTrue yes → T.passes test.now (record_of row.now)) }
    ensures failed { IfOk result (λ yes. yes ≡ false → ¬ T.passes test.now (record_of row.now)) }
{
    let tab = content_at(row, 1);
    let key = content_at(row, 2);
    let value = content_at(row, 3);
    test.is_passed_by(alloc, tab, key, value)
}

/// Whether each row of the table has a number, no two the same, and each record passes the test.
pub fn all_pass<S: Alter, T: RecordTest>(
    conn: &mut Connection<S>,
    alloc: Global,
    test: &T,
) -> Result<bool, RecordsError>
    ensures passed { HasCleanDisk (state S.Store conn.new) → DeclaresRecords (state S.Store conn.old).now.schema
        → IfOk result (λ yes. IsTrue yes → Pass (T.passes test.now) (record_rows (state S.Store conn.old).now)) }
    ensures failed { HasCleanDisk (state S.Store conn.new) → DeclaresRecords (state S.Store conn.old).now.schema
        → IfOk result (λ yes. yes ≡ false → ¬ Pass (T.passes test.now) (record_rows (state S.Store conn.old).now)) }
    ensures reads { ChangesNothing (state S.Store conn.old) (state S.Store conn.new) result }
    ensures rests { RefusalRests (state S.Store conn.old) (state S.Store conn.new) result }
    ensures caused { HasCleanDisk (state S.Store conn.new) → DeclaresRecords (state S.Store conn.old).now.schema
        → IfErr result (IsFailure (CannotRead (state S.Store conn.old) (state S.Store conn.new))) }
    ensures keeps_crash { KeepsCrash (state S.Store conn.old) (state S.Store conn.new) }
{
    let mut last: Option<i64> = None;
    let mut rows = conn.query(texts::SCAN, &[])?;
    'rows: loop {
        let Some(row) = rows.next()? else {
            return Ok(true);
        };
        let Some(number) = number_above(row, last) else {
            return Ok(false);
        };
        if !is_good(alloc, test, row)? {
            return Ok(false);
        }
        last = Some(number);
    }
}
