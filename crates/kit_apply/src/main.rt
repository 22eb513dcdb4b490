//! Runs the statements of `changeset FILE apply STORE` on the kit's SQL engine, for the bench's files of one table. It
//! reads no changeset. What an apply takes in addition is the part of this project.
#![tactic(auto)]

mod entry;
mod texts;

use crate::entry::{Change, KEY_LEN, Shape, blob_row};
use anyhow::{Result, bail};
use sqlite::{Alter, Connection, Error, params};
use std::alloc::Global;
use std::env;

/// The table of all rows.
const TABLE: &str = "t";

/// Reads each record.
fn scan<S: Alter>(conn: &mut Connection<S>) -> Result<(), Error> {
    let mut rows = conn.query(texts::SCAN, &[])?;
    for _ in 0..u64::MAX {
        if rows.next()?.is_none() {
            return Ok(());
        }
    }
    Ok(())
}

/// Reads the version and the declarations, and then each record, in a transaction, as `cs_store` opens a store.
fn adopt<S: Alter>(conn: &mut Connection<S>) -> Result<(), Error> {
    conn.execute("BEGIN", &[])?;
    let _listed = conn.query_all(texts::LIST, params![""])?;
    scan(conn)?;
    conn.execute("COMMIT", &[])?;
    Ok(())
}

/// Returns the number of the row of the record with this key. It fails if there is none.
fn find_record<S: Alter>(conn: &mut Connection<S>, table: &str, key: &[u8]) -> Result<i64> {
    let found = conn.query_all(texts::FIND, params![table, key])?;
    match found.first() {
        Some(row) => Ok(row.get(0)?),
        None => bail!("a record is missing"),
    }
}

/// Carries out the entry with this key. It fails if the entry has a conflict.
fn apply_entry<S: Alter>(
    alloc: Global,
    conn: &mut Connection<S>,
    shape: Shape,
    key: i64,
) -> Result<()> {
    let change = shape.change(key);
    match shape {
        Shape::Mix | Shape::Inserts => apply_row(conn, change, &change.row(key)),
        Shape::Blob => apply_row(conn, change, &blob_row(alloc, key)?),
    }
}

/// Carries out the entry that has this row, whose first bytes are its key. It fails if the entry has a conflict.
fn apply_row<S: Alter>(conn: &mut Connection<S>, change: Change, row: &[u8]) -> Result<()> {
    let Some(key) = row.get(..KEY_LEN) else {
        bail!("the row has no key");
    };
    match change {
        Change::Insert => conn.execute(texts::INSERT, params![TABLE, key, row])?,
        Change::Delete => {
            let rowid = find_record(conn, TABLE, key)?;
            conn.execute(texts::TAKE, params![rowid])?
        }
        Change::Update => {
            let rowid = find_record(conn, TABLE, key)?;
            conn.execute(texts::REPLACE, params![row, rowid])?
        }
    };
    Ok(())
}

/// Adopts a store, and carries out so many entries in a transaction.
fn apply<S: Alter>(
    alloc: Global,
    conn: &mut Connection<S>,
    shape: Shape,
    count: i64,
) -> Result<()> {
    adopt(conn)?;
    conn.execute("BEGIN", &[])?;
    let _declared = find_record(conn, "", TABLE.as_bytes())?;
    for key in 0..count {
        apply_entry(alloc, conn, shape, key)?;
    }
    conn.execute("COMMIT", &[])?;
    Ok(())
}

fn main(rt: HostRuntime) -> Result<()> {
    let words: Vec<String> = env::args(&rt)?.collect(rt.alloc())?;
    let [_, store, shape, count] = words.as_slice() else {
        bail!("usage: kit_apply STORE mix|inserts|blob COUNT");
    };
    let shape = match shape.as_str() {
        "mix" => Shape::Mix,
        "inserts" => Shape::Inserts,
        "blob" => Shape::Blob,
        _ => bail!("no shape {shape}"),
    };
    let count = count.parse::<i64>()?;
    let mut conn = Connection::open(&rt, store)?;
    let applied = apply(rt.alloc(), &mut conn, shape, count);
    conn.close()?;
    applied
}
