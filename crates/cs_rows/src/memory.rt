//! Rows in memory.
ghost use Rattle.std.specs.Prelude.{◌≡◌, OnOk, OnErr, IfOk, IfErr, IfSome, IsTrue, is_ok, Ok, Err, ◌⊎◌, string_bytes};
ghost use Rattle.std.specs.Option.{option_copied};
ghost use Rattle.std.specs.FinMap as map;
ghost use Rattle.cs_rows.specs.declared.fault.StoreError.TheVariants.{NoMemory as OutOfMemory};
ghost use Rattle.cs_value.specs.State.{IsRowAt, IsSchema, IsState, IsTable, schema_at, row_at, rows_at, with_row, without_row};
ghost use Rattle.cs_rows.specs.Rows.{Adds, Fits};
ghost use Rattle.cs_rows.specs.Editing.{Declares, schema_of};
ghost use Rattle.cs_value.specs.Table.{IsName};

use crate::fault::StoreError;
use crate::rows::Rows;
use crate::schema::Schema;
use cs_value::{Key, NoMemory, Row, is_table_name};
use std::alloc::Global;
use std::collections::BTreeMap;
use std::marker::Model;

/// A table: its schema, and its rows by key.
#[derive(Debug, Drop)]
struct Table {
    schema: Schema,
    rows: BTreeMap<Key, Row>,
}

impl Model for Table {
    ghost use Rattle.std.specs.Prelude.{map as map_list};
    ghost use Rattle.std.specs.FinMap as map;
    ghost use Rattle.cs_value.specs.State.{TableData, IsTable, table_code};

    ghost Value = { TableData };

    ghost coded = { table_code };

    ghost view = { λ t. record {
      schema = t.schema;
      rows = map.from_entries (map_list (λ e. (e.0, e.1)) t.rows.entries);
    } };

    ghost invariant = { λ t. IsTable (record {
      schema = t.schema;
      rows = map.from_entries (map_list (λ e. (e.0, e.1)) t.rows.entries);
    }) };
}

impl Table {
    /// A table without rows.
    fn new(alloc: Global, schema: Schema) -> Table
        requires { IsSchema schema }
        ensures { result ≡ record { schema = schema; rows = map.empty } }
    {
        Table {
            schema,
            rows: BTreeMap::new(alloc),
        }
    }

    fn schema(&self) -> &Schema
        ensures { result.now ≡ self.now.schema }
    {
        &self.schema
    }

    /// The row under a key.
    fn get(&self, key: &Key) -> Option<&Row>
        ensures found { option_copied result ≡ map.get self.now.rows key.now }
        ensures fits { IfSome result (λ row. IsRowAt self.now.schema key.now row.now) }
    {
        self.rows.get(key)
    }

    /// Puts the row under its key. [`NoMemory`] changes nothing.
    fn put(&mut self, key: Key, row: Row) -> Result<(), NoMemory>
        requires { IsRowAt self.old.schema key row }
        ensures ok { OnOk result (self.new ≡ record self.old { rows = map.insert self.old.rows key row }) }
        ensures err { OnErr result (self.new ≡ self.old) }
    {
        self.rows.insert(key, row)?;
        Ok(())
    }

    /// Removes the row under a key, if there is one.
    fn remove(&mut self, key: &Key)
        ensures { self.new ≡ record self.old { rows = map.remove self.old.rows key.now } }
    {
        self.rows.remove(key);
    }

    /// The rows in the order of their keys.
    fn list(&self, alloc: Global) -> Result<Vec<Row>, NoMemory>
        ensures { IfOk result (λ rows. rows.items ≡ map.values self.now.rows) }
    {
        let mut listed = Vec::new(alloc);
        for row in self.rows.values() {
            listed.push(row.copy(alloc)?)?;
        }
        Ok(listed)
    }
}

/// Tables of rows in memory. A refused call changes nothing.
#[derive(Debug, Drop)]
pub struct MemRows {
    tables: BTreeMap<String, Table>,
}

impl Model for MemRows {
    ghost use Rattle.std.specs.Prelude.{map as map_list, string_bytes};
    ghost use Rattle.std.specs.FinMap as map;
    ghost use Rattle.cs_value.specs.State.{State, IsState, state_code};

    ghost Value = { State };

    ghost coded = { state_code };

    ghost view = { λ m. map.from_entries (map_list (λ e. (string_bytes e.0, e.1)) m.tables.entries) };

    ghost invariant = { λ m. IsState (map.from_entries (map_list (λ e. (string_bytes e.0, e.1)) m.tables.entries)) };
}

impl MemRows {
    /// No tables.
    pub fn new(alloc: Global) -> MemRows
        ensures { result ≡ map.empty }
    {
        MemRows {
            tables: BTreeMap::new(alloc),
        }
    }

    /// The tables are those of a state: names, schemas and rows are well formed. It has no effect.
    pub fn tables_law(&self)
        ensures { IsState self.now }
    {
        let _ = &self.tables;
    }

    /// Declares a table without rows: the names of its columns; those marked in `keys` are the key, and
    /// those of the key and those marked in `refuses` refuse NULL.
    ///
    /// Refuses with [`BadSchema`](StoreError::BadSchema) where the name or the columns make no table,
    /// and then with [`TableExists`](StoreError::TableExists). A refusal changes nothing.
    pub fn declare(
        &mut self,
        alloc: Global,
        name: &str,
        columns: &[String],
        keys: &[bool],
        refuses: &[bool],
    ) -> Result<(), StoreError>
        ensures declared { OnOk result (Declares self.old name.now
            (schema_of columns.now keys.now refuses.now) (Ok self.new)) }
        ensures refused { IfErr result (λ e. (Declares self.old name.now
            (schema_of columns.now keys.now refuses.now) (Err e)) ⊎ (e ≡ OutOfMemory)) }
        ensures unchanged { OnErr result (self.new ≡ self.old) }
    {
        if !is_table_name(name) {
            return Err(StoreError::BadSchema);
        }
        let schema = Schema::new(alloc, columns, keys, refuses)?;
        if self.table(name).is_some() {
            return Err(StoreError::TableExists);
        }
        self.insert_table(String::from_str(alloc, name)?, Table::new(alloc, schema))
    }

    /// Puts a table under its name. A refusal changes nothing.
    fn insert_table(&mut self, name: String, table: Table) -> Result<(), StoreError>
        requires name { IsName (string_bytes name) }
        requires table { IsTable table }
        ensures ok { OnOk result (self.new ≡ map.insert self.old (string_bytes name) table) }
        ensures err { OnErr result (self.new ≡ self.old) }
        ensures refused { IfErr result (λ e. e ≡ OutOfMemory) }
    {
        self.tables.insert(name, table)?;
        Ok(())
    }

    fn table(&self, name: &str) -> Option<&Table>
        ensures { option_copied result ≡ map.get self.now name.now }
    {
        self.tables.get(name)
    }

    fn row(&self, name: &str, key: &Key) -> Option<&Row>
        ensures found { option_copied result ≡ row_at self.now name.now key.now }
        ensures fits { IfSome result (λ row. Fits self.now name.now key.now row.now) }
    {
        self.table(name)?.get(key)
    }

    /// Puts the row under its key, in a table that it fits. [`NoMemory`] changes nothing.
    fn put_row(&mut self, name: &str, key: Key, row: Row) -> Result<(), NoMemory>
        requires { Fits self.old name.now key row }
        ensures ok { OnOk result (self.new ≡ with_row self.old name.now key row) }
        ensures err { OnErr result (self.new ≡ self.old) }
    {
        match self.tables.get_mut(name) {
            Some(table) => table.put(key, row),
            None => Ok(()),
        }
    }

    /// Removes the row under a key of a table, if there is one.
    fn remove_row(&mut self, name: &str, key: &Key)
        ensures { self.new ≡ without_row self.old name.now key.now }
    {
        if let Some(table) = self.tables.get_mut(name) {
            table.remove(key);
        }
    }
}

impl Rows for MemRows {
    ghost use Rattle.std.specs.Prelude.{⊤};

    ghost state = { λ m. m };

    ghost is_honest = { λ _. ⊤ };

    ghost keeps = { λ _ _ _ _. ⊤ };

    ghost keeps_itself = { λ _ _. tt };

    ghost keeps_then = { λ _ _ _ _ _ _ _. tt };

    ghost keeps_refused = { λ _ _ _ _ _. tt };

    ghost keeps_so = { λ _ _ _ _ _ _ _. tt };

    ghost leaves_only = { λ _ _. ⊤ };

    ghost leaves_still = { λ _ _ _ _ _ _ _. tt };

    ghost fails = { λ _ _ _ _. ⊥ };

    ghost fails_then = { λ _ _ _ _ _ _ _ _ _ none. none };

    ghost fails_so = { λ _ _ _ _ _ _ none. none };

    fn schema(&mut self, alloc: Global, table: &str) -> Result<Option<Schema>, StoreError>
        ensures found { IfOk result (λ o. o ≡ schema_at self.old table.now) }
        ensures unchanged { self.new ≡ self.old }
        ensures refused { IfErr result (λ e. e ≡ OutOfMemory) }
    {
        match self.table(table) {
            Some(table) => Ok(Some(table.schema().copy(alloc)?)),
            None => Ok(None),
        }
    }

    fn get(&mut self, alloc: Global, table: &str, key: &Key) -> Result<Option<Row>, StoreError>
        ensures found { IfOk result (λ o. o ≡ row_at self.old table.now key.now) }
        ensures fits { IfOk result (λ o. IfSome o (Fits self.old table.now key.now)) }
        ensures unchanged { self.new ≡ self.old }
        ensures refused { IfErr result (λ e. e ≡ OutOfMemory) }
    {
        match self.row(table, key) {
            Some(row) => Ok(Some(row.copy(alloc)?)),
            None => Ok(None),
        }
    }

    fn add(&mut self, alloc: Global, table: &str, key: &Key, row: &Row) -> Result<bool, StoreError>
        requires { Fits self.old table.now key.now row.now }
        ensures added { IfOk result (λ added. Adds self.old table.now key.now row.now added self.new) }
        ensures unchanged { OnErr result (self.new ≡ self.old) }
        ensures refused { IfErr result (λ e. e ≡ OutOfMemory) }
    {
        if self.row(table, key).is_some() {
            return Ok(false);
        }
        self.put_row(table, key.copy(alloc)?, row.copy(alloc)?)?;
        Ok(true)
    }

    fn put(&mut self, alloc: Global, table: &str, key: &Key, row: &Row) -> Result<(), StoreError>
        requires { Fits self.old table.now key.now row.now }
        ensures set { OnOk result (self.new ≡ with_row self.old table.now key.now row.now) }
        ensures unchanged { OnErr result (self.new ≡ self.old) }
        ensures refused { IfErr result (λ e. e ≡ OutOfMemory) }
    {
        self.put_row(table, key.copy(alloc)?, row.copy(alloc)?)?;
        Ok(())
    }

    fn remove(&mut self, _alloc: Global, table: &str, key: &Key) -> Result<(), StoreError>
        ensures removed { IsTrue (is_ok result) × (self.new ≡ without_row self.old table.now key.now) }
    {
        self.remove_row(table, key);
        Ok(())
    }

    fn list(&mut self, alloc: Global, table: &str) -> Result<Vec<Row>, StoreError>
        ensures listed { IfOk result (λ rows. rows.items ≡ map.values (rows_at self.old table.now)) }
        ensures unchanged { self.new ≡ self.old }
        ensures refused { IfErr result (λ e. e ≡ OutOfMemory) }
    {
        match self.table(table) {
            Some(table) => Ok(table.list(alloc)?),
            None => Ok(Vec::new(alloc)),
        }
    }
}
