//! The table of records, one statement at a time: a record has the name of a table, a key and a
//! value. A call that is refused leaves the database as it was, or takes it back to its last commit.
ghost use Rattle.std.specs.Prelude.{◌≡◌, ◌<◌, ◌^◌, ℕ, ◌∷◌, IfSome, [], Some, None, option_map, map, IsTrue, IfOk, IfErr, OnOk, OnErr, true};
ghost use Rattle.sqlite.specs.State.{FailsToQuery, HasCleanDisk, IsUnchanged, KeepsCommit, Shown, Survives};
ghost use Rattle.sqlite.specs.Held.{state};
ghost use Rattle.sqlite_sql.specs.Aggregate.{count};
ghost use Rattle.sqlite.specs.Values.{bound};
ghost use Rattle.cs_store_sql.specs.Failing.{CannotCreate, CannotMake, CannotRead, IsFailure};
ghost use Rattle.cs_store_sql.specs.Failing.{ChangesNothing, FailsAsRead, RefusalRests, WritesRecord, puts, put_at, remove_at};
ghost use Rattle.cs_store_sql.specs.Faults.{not_unique};
ghost use Rattle.cs_store_sql.specs.Records.{HoldsRecords, IsAt, IsPlaced, ListsTable, ListsPage, Counts, records_in};
ghost use Rattle.cs_store_sql.specs.Records.{Makes, GoesOn, KeepsCrash, IsQuery, shown_keyed, LacksRecords, KeepsOthers, record_rows};

use crate::fault::RecordsError;
use crate::layout::{Declaration, declaration_of};
use crate::meaning::creates;
use crate::scan::content_at;
use crate::texts;
use sqlite::types::ValueRef;
use sqlite::{Alter, Connection, Error, Row, params};
use std::alloc::{AllocError, Global};
use std::marker::Model;

/// A key and a value, of a record of a known table.
#[derive(Debug, Drop)]
pub struct Keyed {
    pub key: Vec<u8>,
    pub value: Vec<u8>,
}

impl Model for Keyed {
    ghost use Rattle.std.specs.Prelude.{List, ℕ};

    ghost Value = { List ℕ × List ℕ };

    ghost view = { λ r. (r.key.items, r.value.items) };
}

/// The value of a record, and the number of its row.
#[derive(Debug, Drop)]
pub struct Found {
    pub rowid: i64,
    pub value: Vec<u8>,
}

impl Model for Found {
    ghost use Rattle.std.specs.Prelude.{List, ℕ, ℤ};

    ghost Value = { ℤ × List ℕ };

    ghost view = { λ r. (r.rowid, r.value.items) };
}

/// Where the row of a record is, as far as is known.
#[derive(Clone, Copy, Debug)]
pub enum Place {
    Unknown,
    /// In the row with this number.
    At(i64),
}

/// The rows that a text shows which asks for nothing but rows.
fn query_rows<S: Alter>(
    conn: &mut Connection<S>,
    sql: &str,
    params: &[ValueRef<'_>],
) -> Result<Vec<Row>, RecordsError>
    requires { IsQuery sql.now }
    ensures shown { HasCleanDisk (state S.Store conn.new)
        → IfOk result (λ rows. Shown sql.now (bound params.now) (state S.Store conn.old)
        (state S.Store conn.new) rows.items) }
    ensures reads { ChangesNothing (state S.Store conn.old) (state S.Store conn.new) result }
    ensures rests { RefusalRests (state S.Store conn.old) (state S.Store conn.new) result }
    ensures failed { HasCleanDisk (state S.Store conn.new) → IfErr result (IsFailure
        (FailsToQuery sql.now (bound params.now) (state S.Store conn.old) (state S.Store conn.new))) }
    ensures keeps_crash { KeepsCrash (state S.Store conn.old) (state S.Store conn.new) }
{
    Ok(conn.query_all(sql, params)?)
}

/// The value of the record under a table's name and a key, and the number of its row.
pub fn find_record<S: Alter>(
    conn: &mut Connection<S>,
    tab: &str,
    key: &[u8],
) -> Result<Option<Found>, RecordsError>
    ensures found { HasCleanDisk (state S.Store conn.new) → HoldsRecords (state S.Store conn.old).now
        → IfOk result (λ o. option_map (λ f. f.1) o ≡ records_in (state S.Store conn.old).now tab.now key.now) }
    ensures at { HasCleanDisk (state S.Store conn.new) → HoldsRecords (state S.Store conn.old).now
        → IfOk result (λ o. IfSome o (λ f. IsAt (state S.Store conn.old).now tab.now key.now f.0)) }
    ensures reads { ChangesNothing (state S.Store conn.old) (state S.Store conn.new) result }
    ensures rests { RefusalRests (state S.Store conn.old) (state S.Store conn.new) result }
    ensures failed { HasCleanDisk (state S.Store conn.new)
        → (IsTrue (state S.Store conn.old).is_open → HoldsRecords (state S.Store conn.old).now)
        → IfErr result (IsFailure (CannotRead (state S.Store conn.old) (state S.Store conn.new))) }
    ensures keeps_crash { KeepsCrash (state S.Store conn.old) (state S.Store conn.new) }
{
    let rows = query_rows(conn, texts::FIND, params![tab, key])?;
    match rows.first() {
        Some(row) => Ok(Some(Found {
            rowid: row.get(0)?,
            value: row.get(1)?,
        })),
        None => Ok(None),
    }
}

/// Adds the value under a table's name and a key, inside a transaction. The database refuses it as not unique, and
/// nothing changes, where a record has them.
pub fn add_record<S: Alter>(
    conn: &mut Connection<S>,
    tab: &str,
    key: &[u8],
    value: &[u8],
) -> Result<(), RecordsError>
    ensures free { HasCleanDisk (state S.Store conn.new) → HoldsRecords (state S.Store conn.old).now
        → OnOk result (records_in (state S.Store conn.old).now tab.now key.now ≡ None) }
    ensures refused { HasCleanDisk (state S.Store conn.new) → IfErr result (λ e. e ≡ not_unique
        → IsUnchanged (state S.Store conn.old) (state S.Store conn.new)) }
    ensures writes { WritesRecord (state S.Store conn.old) (state S.Store conn.new)
        (puts true tab.now key.now value.now) tab.now key.now (Some value.now) result }
{
    conn.execute(texts::INSERT, params![tab, key, value])?;
    Ok(())
}

/// Puts the value under a table's name and a key, inside a transaction. If it is known where their row is, none is
/// looked for.
pub fn put_record<S: Alter>(
    conn: &mut Connection<S>,
    tab: &str,
    key: &[u8],
    value: &[u8],
    place: Place,
) -> Result<(), RecordsError>
    requires { HasCleanDisk (state S.Store conn.old) → HoldsRecords (state S.Store conn.old).now
        → IsPlaced (state S.Store conn.old).now tab.now key.now place }
    ensures { WritesRecord (state S.Store conn.old) (state S.Store conn.new)
        (put_at place tab.now key.now value.now) tab.now key.now (Some value.now) result }
{
    match place {
        Place::Unknown => conn.execute(texts::PUT, params![tab, key, value])?,
        Place::At(rowid) => conn.execute(texts::REPLACE, params![value, rowid])?,
    };
    Ok(())
}

/// Removes the record under a table's name and a key, if there is one, inside a transaction. If it is known where its
/// row is, none is looked for.
pub fn remove_record<S: Alter>(
    conn: &mut Connection<S>,
    tab: &str,
    key: &[u8],
    place: Place,
) -> Result<(), RecordsError>
    requires { HasCleanDisk (state S.Store conn.old) → HoldsRecords (state S.Store conn.old).now
        → IsPlaced (state S.Store conn.old).now tab.now key.now place }
    ensures { WritesRecord (state S.Store conn.old) (state S.Store conn.new)
        (remove_at place tab.now key.now) tab.now key.now None result }
{
    match place {
        Place::At(rowid) => conn.execute(texts::TAKE, params![rowid])?,
        Place::Unknown => conn.execute(texts::REMOVE, params![tab, key])?,
    };
    Ok(())
}

/// Returns the key and the value that a row shows.
fn read_keyed(alloc: Global, row: &Row) -> Result<Keyed, AllocError>
    ensures { IfOk result (λ keyed. keyed ≡ shown_keyed row.now) }
{
    Ok(Keyed {
        key: Vec::from_slice(alloc, content_at(row, 0))?,
        value: Vec::from_slice(alloc, content_at(row, 1))?,
    })
}

/// Returns what the rows of a listing under a name show.
fn keyed_rows(alloc: Global, rows: &[Row]) -> Result<Vec<Keyed>, AllocError>
    ensures { IfOk result (λ listed. listed.items ≡ map shown_keyed rows.now) }
{
    let mut listed = Vec::new(alloc);
    for row in rows {
        listed.push(read_keyed(alloc, row)?)?;
    }
    Ok(listed)
}

/// The keys and values under a table's name, by key.
pub fn list_records<S: Alter>(
    conn: &mut Connection<S>,
    alloc: Global,
    tab: &str,
) -> Result<Vec<Keyed>, RecordsError>
    ensures listed { HasCleanDisk (state S.Store conn.new) → HoldsRecords (state S.Store conn.old).now
        → IfOk result (λ listed. ListsTable (records_in (state S.Store conn.old).now) tab.now listed.items) }
    ensures reads { ChangesNothing (state S.Store conn.old) (state S.Store conn.new) result }
    ensures rests { RefusalRests (state S.Store conn.old) (state S.Store conn.new) result }
    ensures failed { FailsAsRead (state S.Store conn.old) (state S.Store conn.new) result }
    ensures keeps_crash { KeepsCrash (state S.Store conn.old) (state S.Store conn.new) }
{
    let rows = query_rows(conn, texts::LIST, params![tab])?;
    Ok(keyed_rows(alloc, rows.as_slice())?)
}

/// The number that the row of a count shows, and none where there may be more: SQL counts no further.
fn number_in(rows: &[Row]) -> Option<u64>
    ensures { (n : ℕ) → rows.now ≡ (count n ∷ []) ∷ [] → IfSome result (λ it. it ≡ n) }
{
    let [row] = rows else {
        return None;
    };
    match row.get_ref(0) {
        Ok(ValueRef::Int(number)) if number < i64::MAX => Some(number.unsigned_abs()),
        _ => None,
    }
}

/// The number of the records under a table's name. It is refused as for memory from 2^63 - 1 records on.
pub fn count_records<S: Alter>(conn: &mut Connection<S>, tab: &str) -> Result<u64, RecordsError>
    ensures counted { HasCleanDisk (state S.Store conn.new) → HoldsRecords (state S.Store conn.old).now
        → IfOk result (Counts (records_in (state S.Store conn.old).now) tab.now) }
    ensures reads { ChangesNothing (state S.Store conn.old) (state S.Store conn.new) result }
    ensures rests { RefusalRests (state S.Store conn.old) (state S.Store conn.new) result }
    ensures failed { FailsAsRead (state S.Store conn.old) (state S.Store conn.new) result }
    ensures keeps_crash { KeepsCrash (state S.Store conn.old) (state S.Store conn.new) }
{
    let rows = query_rows(conn, texts::COUNT, params![tab])?;
    match number_in(rows.as_slice()) {
        Some(number) => Ok(number),
        None => Err(RecordsError::NoMemory),
    }
}

/// The keys and values under a table's name, by key: those whose keys are greater than that one, at most so many.
pub fn list_page<S: Alter>(
    conn: &mut Connection<S>,
    alloc: Global,
    tab: &str,
    after: &[u8],
    limit: u64,
) -> Result<Vec<Keyed>, RecordsError>
    requires { limit < 2 ^ 63 }
    ensures listed { HasCleanDisk (state S.Store conn.new) → HoldsRecords (state S.Store conn.old).now
        → IfOk result (λ listed. ListsPage (records_in (state S.Store conn.old).now) tab.now
        after.now limit listed.items) }
    ensures reads { ChangesNothing (state S.Store conn.old) (state S.Store conn.new) result }
    ensures rests { RefusalRests (state S.Store conn.old) (state S.Store conn.new) result }
    ensures failed { FailsAsRead (state S.Store conn.old) (state S.Store conn.new) result }
    ensures keeps_crash { KeepsCrash (state S.Store conn.old) (state S.Store conn.new) }
{
    let rows = query_rows(conn, texts::PAGE, params![tab, after, limit as i64])?;
    Ok(keyed_rows(alloc, rows.as_slice())?)
}

/// Executes the text that makes the table of records, if it does so under the schema of the database.
fn create_table<S: Alter>(conn: &mut Connection<S>, alloc: Global) -> Result<(), RecordsError>
    ensures makes { HasCleanDisk (state S.Store conn.new)
        → OnOk result (Makes (state S.Store conn.old).now (state S.Store conn.new).now) }
    ensures goes_on { HasCleanDisk (state S.Store conn.new) → IsTrue (state S.Store conn.old).in_transaction
        → OnOk result (GoesOn (state S.Store conn.old) (state S.Store conn.new)) }
    ensures commit { HasCleanDisk (state S.Store conn.new)
        → OnErr result (KeepsCommit (state S.Store conn.old) (state S.Store conn.new)) }
    ensures failed { HasCleanDisk (state S.Store conn.new)
        → IfErr result (IsFailure (CannotCreate (state S.Store conn.old) (state S.Store conn.new))) }
    ensures survives { (HasCleanDisk (state S.Store conn.old) → IsTrue (state S.Store conn.old).in_transaction)
        → KeepsCrash (state S.Store conn.old) (state S.Store conn.new) }
{
    if !creates(alloc, conn.schema())? {
        return Err(RecordsError::Database(Error::InvalidQuery));
    }
    conn.execute(texts::CREATE, &[])?;
    Ok(())
}

/// Makes the table of records, inside a transaction, in a database where nothing has its name.
pub fn make_table<S: Alter>(conn: &mut Connection<S>, alloc: Global) -> Result<(), RecordsError>
    requires { HasCleanDisk (state S.Store conn.old) → IsTrue (state S.Store conn.old).in_transaction }
    ensures made { HasCleanDisk (state S.Store conn.new) → LacksRecords (state S.Store conn.old).now.schema
        → OnOk result (HoldsRecords (state S.Store conn.new).now × (record_rows (state S.Store conn.new).now ≡ [])) }
    ensures others { HasCleanDisk (state S.Store conn.new)
        → OnOk result (KeepsOthers (state S.Store conn.old).now (state S.Store conn.new).now) }
    ensures goes_on { HasCleanDisk (state S.Store conn.new)
        → OnOk result (GoesOn (state S.Store conn.old) (state S.Store conn.new)) }
    ensures commit { HasCleanDisk (state S.Store conn.new)
        → OnErr result (KeepsCommit (state S.Store conn.old) (state S.Store conn.new)) }
    ensures failed { HasCleanDisk (state S.Store conn.new)
        → IfErr result (IsFailure (CannotMake (state S.Store conn.old) (state S.Store conn.new))) }
    ensures survives { KeepsCrash (state S.Store conn.old) (state S.Store conn.new) }
{
    create_table(conn, alloc)?;
    match declaration_of(alloc, conn.schema())? {
        Declaration::Records => Ok(()),
        _ => Err(RecordsError::Database(Error::InvalidQuery)),
    }
}
