//! The bytes that a schema is stored as.
ghost use Rattle.std.specs.Prelude.{◌≡◌, ◌≢◌, ◌≤◌, ◌⊎◌, ◌∷◌, ◌++◌, ℕ, List, length, map, string_bytes};
ghost use Rattle.std.specs.Prelude.{IfOk, IfErr, OnOk};
ghost use Rattle.std.specs.List.{AllByRecursion};
ghost use Rattle.cs_value.specs.declared.TheConstants.{MAX_CONTENT_LEN};
ghost use Rattle.cs_value.specs.State.{IsColumnName, IsSchema, is_marked as is_marked_by, marks};
ghost use Rattle.cs_value.specs.Varint.{varint};
ghost use Rattle.cs_value.specs.Spelling.{counted};
ghost use Rattle.cs_store_encoding.specs.Declaration.{column_code, column_codes, flag_of as flag_by};
ghost use Rattle.cs_store_encoding.specs.Declaration.{columns_bytes, declaration_bytes, IsDeclaration};
ghost use Rattle.cs_store_encoding.specs.Declaration.{ColumnsData, schema_of_columns, BeginsWithColumn, AreColumns};
ghost use Rattle.cs_rows.specs.declared.fault.StoreError.TheVariants.{DamagedStore as Damaged};
ghost use Rattle.cs_rows.specs.declared.fault.StoreError.TheVariants.{NoMemory as OutOfMemory};

use cs_rows::{Schema, StoreError};
use cs_value::{NoMemory, varint_read, varint_write};
use std::alloc::{AllocError, Global};
use std::str;

/// The bytes of a declaration.
#[tactic(auto, unfolding(crate::specs::Declaration::declaration_bytes))]
pub fn write_declaration(alloc: Global, schema: &Schema) -> Result<Vec<u8>, StoreError>
    ensures spelled { IfOk result (λ b. b.items ≡ declaration_bytes schema.now) }
    ensures well_formed { OnOk result (IsSchema schema.now) }
    ensures refused { IfErr result (λ e. e ≡ OutOfMemory) }
{
    let codes = codes_of(alloc, schema)?;
    let mut bytes = Vec::new(alloc);
    varint_write(&mut bytes, schema.flags().len() as u32)?;
    write_columns(&mut bytes, &codes, schema.columns())?;
    Ok(bytes)
}

// The bytes of the columns.
fn codes_of(alloc: Global, schema: &Schema) -> Result<Vec<u8>, NoMemory>
    ensures { IfOk result (λ codes. codes.items ≡ column_codes schema.now.flags schema.now.refuses) }
{
    let mut codes = Vec::new(alloc);
    for (column, flag) in schema.flags().iter().enumerate() {
        codes.push(code_of(*flag, schema.refuses_at(column)))?;
    }
    Ok(codes)
}

// The byte of a column.
fn code_of(flag: u8, refuses: bool) -> u8
    ensures { result ≡ column_code flag refuses }
{
    match (flag, refuses) {
        (0, false) => 0,
        (0, true) => 2,
        _ => 1,
    }
}

// The columns in turn.
fn write_columns(out: &mut Vec<u8>, codes: &[u8], columns: &[String]) -> Result<(), NoMemory>
    requires named { AllByRecursion IsColumnName (map string_bytes columns.now) }
    requires as_many { length codes.now ≡ length columns.now }
    ensures { OnOk result (out.new.items ≡ out.old.items ++ columns_bytes codes.now (map string_bytes columns.now)) }
{
    for (code, column) in codes.iter().zip(columns) {
        write_column(out, *code, column.as_str())?;
    }
    Ok(())
}

#[tactic(auto, unfolding(cs_value::specs::Spelling::counted))]
fn write_column(out: &mut Vec<u8>, code: u8, name: &str) -> Result<(), NoMemory>
    requires { length name.now ≤ MAX_CONTENT_LEN }
    ensures { OnOk result (out.new.items ≡ out.old.items ++ code ∷ counted name.now) }
{
    out.push(code)?;
    varint_write(out, name.len() as u32)?;
    out.extend_from_slice(name.as_bytes())?;
    Ok(())
}

/// The schema whose declaration these bytes are. It takes memory only for what it has read,
/// however many columns and bytes are claimed.
pub fn read_declaration(alloc: Global, bytes: &[u8]) -> Result<Schema, StoreError>
    ensures found { IfOk result (λ s. IsSchema s × (bytes.now ≡ declaration_bytes s)) }
    ensures refused { IfErr result (λ e. ((e ≡ Damaged) × (¬ IsDeclaration bytes.now)) ⊎ (e ≡ OutOfMemory)) }
{
    let (count, rest) = read_count(bytes)?;
    let (columns, codes) = read_columns(alloc, rest, count)?;
    schema_by(alloc, columns, &codes)
}

// The schema of columns with these names and bytes, if they make one.
fn schema_by(alloc: Global, columns: Vec<String>, codes: &[u8]) -> Result<Schema, StoreError>
    ensures made { IfOk result (λ s. s
        ≡ schema_of_columns (record { names = map string_bytes columns.items; bytes = codes.now })) }
    ensures well_formed { IfOk result IsSchema }
    ensures refused { IfErr result (λ e. ((e ≡ Damaged)
        × (¬ IsSchema (schema_of_columns (record { names = map string_bytes columns.items; bytes = codes.now }))))
        ⊎ (e ≡ OutOfMemory)) }
{
    let flags = flags_of(alloc, codes)?;
    let refuses = marks_of(alloc, codes)?;
    match Schema::from_parts(alloc, columns, flags, refuses) {
        Err(StoreError::BadSchema) => Err(StoreError::DamagedStore),
        answer => answer,
    }
}

fn flags_of(alloc: Global, codes: &[u8]) -> Result<Vec<u8>, AllocError>
    ensures { IfOk result (λ flags. flags.items ≡ map flag_by codes.now) }
{
    codes.iter().map(|code| flag_of(*code)).collect(alloc)
}

// The flag of a column with this byte, and that of no column for other bytes.
fn flag_of(code: u8) -> u8
    ensures { result ≡ flag_by code }
{
    match code {
        0 | 2 => 0,
        1 => 1,
        _ => 2,
    }
}

fn marks_of(alloc: Global, codes: &[u8]) -> Result<Vec<bool>, AllocError>
    ensures { IfOk result (λ refuses. refuses.items ≡ marks codes.now) }
{
    codes.iter().map(|code| refuses_null(*code)).collect(alloc)
}

// Whether a column with this byte refuses NULL.
fn refuses_null(code: u8) -> bool
    ensures { result ≡ is_marked_by code }
{
    code != 0
}

// Reads so many columns, and no byte after them.
fn read_columns(
    alloc: Global,
    bytes: &[u8],
    count: usize,
) -> Result<(Vec<String>, Vec<u8>), StoreError>
    ensures found { IfOk result (λ r.
        AreColumns count (record { names = map string_bytes r.0.items; bytes = r.1.items })
        × (bytes.now ≡ columns_bytes r.1.items (map string_bytes r.0.items))) }
    ensures refused { IfErr result (λ e. ((e ≡ Damaged)
        × ((c : ColumnsData) → AreColumns count c → bytes.now ≢ columns_bytes c.bytes c.names)) ⊎ (e ≡ OutOfMemory)) }
{
    let mut columns = Vec::new(alloc);
    let mut codes = Vec::new(alloc);
    let mut rest = bytes;
    'columns: for _ in 0..count {
        let (code, name, behind) = read_column(alloc, rest)?;
        columns.push(name)?;
        codes.push(code)?;
        rest = behind;
    }
    if !rest.is_empty() {
        return Err(StoreError::DamagedStore);
    }
    Ok((columns, codes))
}

// Reads the column at the front. Returns the bytes after it too.
fn read_column(alloc: Global, bytes: &[u8]) -> Result<(u8, String, &[u8]), StoreError>
    ensures found { IfOk result (λ r. (length (string_bytes r.1) ≤ MAX_CONTENT_LEN)
        × (bytes.now ≡ r.0 ∷ counted (string_bytes r.1) ++ r.2.now)) }
    ensures refused { IfErr result (λ e. ((e ≡ Damaged) × (¬ BeginsWithColumn bytes.now)) ⊎ (e ≡ OutOfMemory)) }
{
    let [code, content @ ..] = bytes else {
        return Err(StoreError::DamagedStore);
    };
    let (name, rest) = read_counted(content)?;
    match str::from_utf8(name) {
        Ok(name) => Ok((*code, String::from_str(alloc, name)?, rest)),
        Err(_) => Err(StoreError::DamagedStore),
    }
}

// Reads the counted bytes at the front. Returns the bytes after them too.
#[tactic(auto, unfolding(cs_value::specs::Spelling::counted))]
fn read_counted(bytes: &[u8]) -> Result<(&[u8], &[u8]), StoreError>
    ensures found { IfOk result (λ r. (length r.0.now ≤ MAX_CONTENT_LEN) × (bytes.now ≡ counted r.0.now ++ r.1.now)) }
    ensures refused { IfErr result (λ e. (e ≡ Damaged)
        × ((text rest : List ℕ) → length text ≤ MAX_CONTENT_LEN → bytes.now ≢ counted text ++ rest)) }
{
    let (count, rest) = read_count(bytes)?;
    match rest.split_at_checked(count) {
        Some((content, rest)) => Ok((content, rest)),
        None => Err(StoreError::DamagedStore),
    }
}

// Reads the count at the front. Returns the bytes after it too.
fn read_count(bytes: &[u8]) -> Result<(usize, &[u8]), StoreError>
    ensures found { IfOk result (λ r. (r.0 ≤ MAX_CONTENT_LEN) × (bytes.now ≡ varint r.0 ++ r.1.now)) }
    ensures refused { IfErr result (λ e. (e ≡ Damaged)
        × ((n : ℕ) (rest : List ℕ) → n ≤ MAX_CONTENT_LEN → bytes.now ≢ varint n ++ rest)) }
{
    match varint_read(bytes) {
        Ok((count, used)) => Ok((count as usize, &bytes[used..])),
        Err(_) => Err(StoreError::DamagedStore),
    }
}
