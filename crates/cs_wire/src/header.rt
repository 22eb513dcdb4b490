//! The headers of tables.
ghost use Rattle.std.specs.Prelude.{◌≡◌, ◌<◌, ◌↔◌, ◌∷◌, [], IfOk, IsTrue, Any, string_bytes};
ghost use Rattle.cs_value.specs.Value.{IsValue, IsField, IsRow, IsRecord};
ghost use Rattle.cs_value.specs.Table.{IsKeyedRow};
ghost use Rattle.cs_wire_entries.specs.Entry.{IsKeyedUpdate};
ghost use Rattle.cs_wire_entries.specs.Changeset.{HeaderData, IsHeader};

use crate::writer::write_header;
use cs_value::{Field, Key, MAX_COLUMNS, NoMemory, OwnedField, Value, is_table_name};
use cs_wire_entries::{Change, Entry, undo_refused};
use std::alloc::Global;
use std::marker::Model;

/// The name and the flags of a table. There is a flag for each column. Those of the primary key are not 0, and the
/// others are 0.
#[derive(Debug, Drop)]
pub struct Header {
    name: String,
    flags: Vec<u8>,
}

impl Model for Header {
    ghost use Rattle.std.specs.Prelude.{string_bytes};
    ghost use Rattle.cs_wire_entries.specs.Changeset.{HeaderData, IsHeader};

    ghost Value = { HeaderData };

    ghost view = { λ h. record { name = string_bytes h.name; flags = h.flags.items } };

    ghost invariant = { λ h. IsHeader (record { name = string_bytes h.name; flags = h.flags.items }) };
}

impl Header {
    ghost use Rattle.cs_wire_entries.specs.Entry.{IsEntry, key_of};

    /// Returns whether a name and flags make a header. The name has at least one byte, and none that is zero. There are
    /// 1 to 32767 flags, and at least one is not 0. It allocates nothing.
    pub fn fits(name: &str, flags: &[u8]) -> bool
        ensures { IsTrue result ↔ IsHeader (record { name = name.now; flags = flags.now }) }
    {
        is_table_name(name) && flags.len() <= MAX_COLUMNS && has_key(flags)
    }

    /// Returns the header of a name and flags that fit ([`Header::fits`]). It allocates nothing.
    pub fn new(name: String, flags: Vec<u8>) -> Header
        requires { IsHeader (record { name = string_bytes name; flags = flags.items }) }
        ensures { result ≡ record { name = string_bytes name; flags = flags.items } }
    {
        Header { name, flags }
    }

    /// Returns the name of the table.
    pub fn name(&self) -> &str
        ensures { result.now ≡ self.now.name }
    {
        self.name.as_str()
    }

    /// Returns the flags, one for each column.
    pub fn flags(&self) -> &[u8]
        ensures same { result.now ≡ self.now.flags }
        ensures well_formed { IsHeader self.now }
    {
        &self.flags
    }

    /// Returns a copy of the header.
    pub fn copy(&self, alloc: Global) -> Result<Header, NoMemory>
        ensures { IfOk result (λ h. h ≡ self.now) }
    {
        HeaderRef {
            name: self.name(),
            flags: self.flags(),
        }
        .to_header(alloc)
    }

    /// Returns the key of an entry that fits the flags ([`Header::admits`]).
    pub fn key_of(&self, alloc: Global, entry: &Entry) -> Result<Key, NoMemory>
        requires { IsEntry self.now.flags entry.now }
        ensures { IfOk result (λ key. key ≡ key_of self.now.flags entry.now.change) }
    {
        match &entry.change {
            Change::Insert(row) | Change::Delete(row) => Key::of_row(alloc, self.flags(), row),
            Change::Update { old, .. } => Key::of_image(alloc, self.flags(), old),
        }
    }

    /// Returns whether an entry fits the flags. Each record has a field for each flag. The row of an insert or a delete
    /// has no NULL in a key column. In an update, the old record has a value other than NULL in each key column, and
    /// the new record has undefined fields there. In other columns both fields are defined or both undefined. It
    /// allocates nothing.
    pub fn admits(&self, entry: &Entry) -> bool
        ensures { IsTrue result ↔ IsEntry self.now.flags entry.now }
    {
        match &entry.change {
            Change::Insert(row) | Change::Delete(row) => row.is_keyed(self.flags()),
            Change::Update { old, new } => admits_update(self.flags(), old.fields(), new.fields()),
        }
    }
}

impl PartialEq for Header {
    ghost use Rattle.std.specs.Prelude.{nat_eq};
    ghost use Rattle.std.specs.Ordering.{on, eq_of_both};
    ghost use Rattle.std.specs.Cmp.Lexicographic.{pointwise};
    ghost use Rattle.std.specs.Cmp.Rules.{comparing};
    ghost use Rattle.std.proofs.Common.{rules};

    ghost eq = { eq_of_both (on (λ h. h.name) (pointwise nat_eq)) (on (λ h. h.flags) (pointwise nat_eq)) };

    ghost laws = { Prim.search (comparing, rules) };

    fn eq(&self, other: &Header) -> bool {
        self.name == other.name && self.flags == other.flags
    }
}

impl Eq for Header {
    ghost use Rattle.std.specs.Cmp.Rules.{comparing};
    ghost use Rattle.std.proofs.Common.{rules};

    ghost laws = { Prim.search (comparing, rules) };
}

/// The name and the flags of a table, borrowed from a file.
#[derive(Clone, Copy, Debug)]
pub struct HeaderRef<'a> {
    /// The name of the table.
    pub name: &'a str,
    /// The flags, one for each column.
    pub flags: &'a [u8],
}

impl HeaderRef<'_> {
    ghost use Rattle.std.specs.Prelude.{◌++◌, OnErr, OnOk};
    ghost use Rattle.cs_wire_entries.specs.Changeset.{header_bytes};
    ghost use Rattle.cs_wire.specs.Headers.{header_of};

    /// Returns a copy of the header. Its name and its flags make one ([`Header::fits`]).
    pub fn to_header(&self, alloc: Global) -> Result<Header, NoMemory>
        requires { IsHeader (header_of self.now) }
        ensures { IfOk result (λ h. h ≡ header_of self.now) }
    {
        Ok(Header {
            name: String::from_str(alloc, self.name)?,
            flags: Vec::from_slice(alloc, self.flags)?,
        })
    }

    /// Appends the bytes of the header. Its name and its flags make one ([`Header::fits`]). [`NoMemory`] leaves `out`
    /// unchanged.
    pub fn write_to(&self, out: &mut Vec<u8>) -> Result<(), NoMemory>
        requires { IsHeader (header_of self.now) }
        ensures ok { OnOk result (out.new.items ≡ out.old.items ++ header_bytes (header_of self.now)) }
        ensures err { OnErr result (out.new.items ≡ out.old.items) }
    {
        let start = out.len();
        let written = write_header(out, self.name, self.flags);
        undo_refused(out, start, written)
    }
}

/// Returns whether the records of an update have a field for each flag: in a key column a value other than NULL and an
/// undefined field, and in other columns two values or two undefined fields.
fn admits_update(flags: &[u8], old: &[OwnedField], new: &[OwnedField]) -> bool
    ensures { IsTrue result ↔ (IsRecord old.now × IsRecord new.now × IsKeyedUpdate flags.now old.now new.now) }
{
    if flags.len() != old.len() || flags.len() != new.len() {
        return false;
    }
    for (column, flag) in flags.iter().enumerate() {
        if !admits_fields(*flag, &old[column], &new[column]) {
            return false;
        }
    }
    true
}

/// Returns whether an update can have these two fields in a column with this flag.
fn admits_fields(flag: u8, old: &OwnedField, new: &OwnedField) -> bool
    ensures are_fields { IsField old.now × IsField new.now }
    ensures admitted { IsTrue result ↔ IsKeyedUpdate (flag ∷ []) (old.now ∷ []) (new.now ∷ []) }
{
    match (old.as_field(), new.as_field()) {
        (Field::Undefined, Field::Undefined) => flag == 0,
        (Field::Undefined, Field::Defined(_)) => false,
        (Field::Defined(_), Field::Defined(_)) => flag == 0,
        (Field::Defined(value), Field::Undefined) => flag != 0 && !matches!(value, Value::Null),
    }
}

/// Returns whether some column is of the key.
pub(crate) fn has_key(flags: &[u8]) -> bool
    ensures { IsTrue result ↔ Any (λ flag. 0 < flag) flags.now }
{
    flags.iter().any(|flag| *flag > 0)
}
