//! The texts of SQL that read and write records: those of `crates/cs_store_sql/src/texts.rt`.

pub(crate) const FIND: &str = "SELECT rowid, rowb FROM rec WHERE tab = ?1 AND keyb = ?2";

pub(crate) const LIST: &str = "SELECT keyb, rowb FROM rec WHERE tab = ?1 ORDER BY keyb";

pub(crate) const SCAN: &str = "SELECT rowid, tab, keyb, rowb FROM rec ORDER BY rowid";

pub(crate) const INSERT: &str = "INSERT INTO rec VALUES(?1, ?2, ?3)";

pub(crate) const REPLACE: &str = "UPDATE rec SET rowb = ?1 WHERE rowid = ?2";

pub(crate) const TAKE: &str = "DELETE FROM rec WHERE rowid = ?1";
