//! The texts of SQL that read and write records.

/// The number of the row of a record, and its value.
pub(crate) const FIND: &str = "SELECT rowid, rowb FROM rec WHERE tab = ?1 AND keyb = ?2";

pub(crate) const LIST: &str = "SELECT keyb, rowb FROM rec WHERE tab = ?1 ORDER BY keyb";

pub(crate) const COUNT: &str = "SELECT count(*) FROM rec WHERE tab = ?1";

pub(crate) const PAGE: &str =
    "SELECT keyb, rowb FROM rec WHERE tab = ?1 AND keyb > ?2 ORDER BY keyb LIMIT ?3";

/// All records, by the numbers of their rows.
pub(crate) const SCAN: &str = "SELECT rowid, tab, keyb, rowb FROM rec ORDER BY rowid";

/// Refused where the record is there.
pub(crate) const INSERT: &str = "INSERT INTO rec VALUES(?1, ?2, ?3)";

/// Replaces the record that is there.
pub(crate) const PUT: &str =
    "INSERT INTO rec VALUES(?1, ?2, ?3) ON CONFLICT(tab, keyb) DO UPDATE SET rowb = ?3";

/// Replaces the value in the row with a number.
pub(crate) const REPLACE: &str = "UPDATE rec SET rowb = ?1 WHERE rowid = ?2";

pub(crate) const REMOVE: &str = "DELETE FROM rec WHERE tab = ?1 AND keyb = ?2";

/// Removes the row with a number.
pub(crate) const TAKE: &str = "DELETE FROM rec WHERE rowid = ?1";

pub(crate) const CREATE: &str =
    "CREATE TABLE IF NOT EXISTS rec(tab TEXT NOT NULL, keyb BLOB NOT NULL, rowb BLOB NOT NULL, PRIMARY KEY(tab, keyb)) STRICT";
