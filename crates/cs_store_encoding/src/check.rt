//! Whether records are those of tables.
ghost use Rattle.std.specs.Prelude.{◌≡◌, ◌≢◌, ◌↔◌, ◌⊎◌, false, Some, IsTrue, IsSome, IfOk, IfErr, OnOk, MatchOption};
ghost use Rattle.std.specs.Prelude.{List, ℕ, [], ◌∷◌, ◌++◌, string_bytes};
ghost use Rattle.std.specs.Option.{option_copied};
ghost use Rattle.std.specs.List.{AllByRecursion};
ghost use Rattle.std.specs.FinMap as map;
ghost use Rattle.cs_rows.specs.declared.fault.StoreError.TheVariants.{DamagedStore as Damaged};
ghost use Rattle.cs_rows.specs.declared.fault.StoreError.TheVariants.{NoMemory as OutOfMemory};
ghost use Rattle.cs_store_sql.specs.Records.{Records, ListsTable};
ghost use Rattle.cs_store_encoding.specs.Declaration.{declaration_bytes, IsFormer};
ghost use Rattle.cs_store_encoding.specs.Stored.{former_version};
ghost use Rattle.cs_store_encoding.specs.Versions.{bytes_of};
ghost use Rattle.cs_store_encoding.specs.Valid.{AreDeclared, AreValid, DeclaresTable, IsDeclarationIn};
ghost use Rattle.cs_store_encoding.specs.Valid.{IsGoodTable, IsRowOf};
ghost use Rattle.cs_value.specs.Table.{IsName};
ghost use Rattle.cs_value.specs.State.{IsSchema, is_marked as is_marked_by};

use crate::declaration::read_declaration;
use crate::stored_row::read_row;
use crate::version::{Version, version_of};
use cs_rows::{Schema, StoreError};
use cs_store_sql::{Keyed, RecordTest};
use cs_value::{Key, NoMemory, is_table_name};
use std::alloc::{AllocError, Global};
use std::collections::BTreeMap;
use std::marker::Model;
use std::str;

/// The schemas of tables, by name. As a test of a record they ask that it is a row of one of these tables, or is under
/// the empty name.
#[derive(Debug, Drop)]
pub struct Schemas {
    by_name: BTreeMap<Vec<u8>, Schema>,
}

impl Model for Schemas {
    ghost use Rattle.std.specs.Prelude.{map as map_list};
    ghost use Rattle.std.specs.Coded.{coded_list, coded_ℕ};
    ghost use Rattle.std.specs.FinMap as map;
    ghost use Rattle.cs_value.specs.Maps.{ByBytes};
    ghost use Rattle.cs_value.specs.State.{SchemaData, schema_code};

    ghost Value = { ByBytes SchemaData };

    ghost coded = { map.code (coded_list coded_ℕ) schema_code };

    ghost view = { λ s. map.from_entries (map_list (λ e. (e.0.items, e.1)) s.by_name.entries) };
}

impl Schemas {
    fn new(alloc: Global) -> Schemas
        ensures { result ≡ map.empty }
    {
        Schemas {
            by_name: BTreeMap::new(alloc),
        }
    }

    fn get(&self, name: &[u8]) -> Option<&Schema>
        ensures { option_copied result ≡ map.get self.now name.now }
    {
        self.by_name.get(name)
    }

    fn insert(&mut self, name: Vec<u8>, schema: Schema) -> Result<(), NoMemory>
        ensures { OnOk result (self.new ≡ map.insert self.old name.items schema) }
    {
        self.by_name.insert(name, schema)?;
        Ok(())
    }
}

/// The version of a store whose records under the empty name are these, by key; None if there is none of them. Fails if
/// the first is not the record of a version that is read.
pub fn read_version(listed: &[Keyed]) -> Result<Option<Version>, StoreError>
    ensures read { IfOk result (λ o. MatchOption o (listed.now ≡ []) (λ v. (records : Records)
        → ListsTable records [] listed.now → records [] [] ≡ Some (bytes_of v))) }
    ensures some { IfOk result (λ o. IsSome o → listed.now ≢ []) }
    ensures refused { IfErr result (λ e. (e ≡ Damaged) × (listed.now ≢ [])
        × ((records : Records) → ListsTable records [] listed.now → ¬ AreValid records)) }
{
    let [first, ..] = listed else {
        return Ok(None);
    };
    if !first.key.is_empty() {
        return Err(StoreError::DamagedStore);
    }
    match version_of(&first.value) {
        Some(version) => Ok(Some(version)),
        None => Err(StoreError::DamagedStore),
    }
}

/// The schemas of the tables that these records declare, in this version. The key of each is the name of a table, and
/// its value a declaration. The version's own record, whose key is empty, is not looked at.
pub fn read_schemas(
    alloc: Global,
    version: Version,
    listed: &[Keyed],
) -> Result<Schemas, StoreError>
    ensures read { IfOk result (AreDeclared (bytes_of version) listed.now) }
    ensures refused { IfErr result (λ e. ((e ≡ Damaged)
        × (¬ AllByRecursion (IsGoodTable (bytes_of version)) listed.now)) ⊎ (e ≡ OutOfMemory)) }
{
    let mut schemas = Schemas::new(alloc);
    for record in listed {
        add_table(alloc, version, &mut schemas, record)?;
    }
    Ok(schemas)
}

/// Adds the table that a record declares, if it is a declaration.
fn add_table(
    alloc: Global,
    version: Version,
    schemas: &mut Schemas,
    stored: &Keyed,
) -> Result<(), StoreError>
    ensures added { OnOk result ((before : List (List ℕ × List ℕ)) → AreDeclared (bytes_of version) before schemas.old
        → AreDeclared (bytes_of version) (before ++ stored.now ∷ []) schemas.new) }
    ensures refused { IfErr result (λ e. ((e ≡ Damaged) × (¬ IsGoodTable (bytes_of version) stored.now))
        ⊎ (e ≡ OutOfMemory)) }
{
    match read_table(alloc, version, stored) {
        Ok(Some((name, schema))) => Ok(schemas.insert(name, schema)?),
        Ok(None) => Ok(()),
        Err(error) => Err(error),
    }
}

/// The table that a record declares, if it is a declaration.
fn read_table(
    alloc: Global,
    version: Version,
    stored: &Keyed,
) -> Result<Option<(Vec<u8>, Schema)>, StoreError>
    ensures read { IfOk result (λ o. MatchOption o (stored.now.0 ≡ [])
        (λ t. DeclaresTable (bytes_of version) stored.now t.0.items t.1)) }
    ensures refused { IfErr result (λ e. ((e ≡ Damaged) × (¬ IsGoodTable (bytes_of version) stored.now))
        ⊎ (e ≡ OutOfMemory)) }
{
    if stored.key.is_empty() {
        return Ok(None);
    }
    let name = read_name(alloc, &stored.key)?.into_bytes();
    let schema = read_declaration_in(alloc, version, &stored.value)?;
    Ok(Some((name, schema)))
}

/// The schema whose declaration these bytes are, in this version.
fn read_declaration_in(alloc: Global, version: Version, bytes: &[u8]) -> Result<Schema, StoreError>
    ensures found { IfOk result (λ s. IsSchema s × (bytes.now ≡ declaration_bytes s)) }
    ensures former { IfOk result (λ s. bytes_of version ≡ former_version → IsFormer s) }
    ensures refused { IfErr result (λ e. ((e ≡ Damaged) × (¬ IsDeclarationIn (bytes_of version) bytes.now))
        ⊎ (e ≡ OutOfMemory)) }
{
    let schema = read_declaration(alloc, bytes)?;
    match version {
        Version::Former if !is_former(&schema) => Err(StoreError::DamagedStore),
        _ => Ok(schema),
    }
}

/// Whether only the columns of the key refuse NULL.
fn is_former(schema: &Schema) -> bool
    ensures { IsTrue result ↔ IsFormer schema.now }
{
    for (column, flag) in schema.flags().iter().enumerate() {
        if !is_former_rule(*flag, schema.refuses_at(column)) {
            return false;
        }
    }
    true
}

fn is_former_rule(flag: u8, refuses: bool) -> bool
    ensures { IsTrue result ↔ (refuses ≡ is_marked_by flag) }
{
    refuses == (flag != 0)
}

/// The name of a table.
pub fn read_name(alloc: Global, bytes: &[u8]) -> Result<String, StoreError>
    ensures read { IfOk result (λ name. IsName (string_bytes name) × (bytes.now ≡ string_bytes name)) }
    ensures refused { IfErr result (λ e. ((e ≡ Damaged) × (¬ IsName bytes.now)) ⊎ (e ≡ OutOfMemory)) }
{
    match str::from_utf8(bytes) {
        Ok(name) if is_table_name(name) => Ok(String::from_str(alloc, name)?),
        _ => Err(StoreError::DamagedStore),
    }
}

/// Checks that this is a row of a table, under its own key.
fn check_row_of(alloc: Global, schema: &Schema, key: &[u8], value: &[u8]) -> Result<(), StoreError>
    ensures row { OnOk result (IsRowOf schema.now key.now value.now) }
    ensures refused { IfErr result (λ e. ((e ≡ Damaged) × (¬ IsRowOf schema.now key.now value.now))
        ⊎ (e ≡ OutOfMemory)) }
{
    let row = read_row(alloc, schema, value)?;
    let own = Key::of_row(alloc, schema.flags(), &row)?;
    if own.bytes() == key {
        Ok(())
    } else {
        Err(StoreError::DamagedStore)
    }
}

/// Whether this is a row of a table, under its own key.
fn is_row_of(alloc: Global, schema: &Schema, key: &[u8], value: &[u8]) -> Result<bool, AllocError>
    ensures is_row { IfOk result (λ yes. IsTrue yes → IsRowOf schema.now key.now value.now) }
    ensures no_row { IfOk result (λ yes. yes ≡ false → ¬ IsRowOf schema.now key.now value.now) }
{
    match check_row_of(alloc, schema, key, value) {
        Ok(()) => Ok(true),
        Err(StoreError::DamagedStore) => Ok(false),
        Err(_) => Err(AllocError),
    }
}

impl RecordTest for Schemas {
    ghost use Rattle.cs_store_encoding.specs.Valid.{IsGoodRow};

    ghost passes = { IsGoodRow };

    fn is_passed_by(
        &self,
        alloc: Global,
        tab: &[u8],
        key: &[u8],
        value: &[u8],
    ) -> Result<bool, AllocError> {
        if tab.is_empty() {
            return Ok(true);
        }
        match self.get(tab) {
            Some(schema) => is_row_of(alloc, schema, key, value),
            None => Ok(false),
        }
    }
}
