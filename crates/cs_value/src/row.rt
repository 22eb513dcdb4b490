//! Rows: records without an undefined field.
ghost use Rattle.std.specs.Prelude.{◌≡◌, ◌↔◌, [], ◌∷◌, ◌++◌, IsTrue, IfOk, OnOk, OnErr};
ghost use Rattle.cs_value.specs.Table.{IsKeyedRow};
ghost use Rattle.cs_value.specs.Value.{IsRow};
ghost use Rattle.cs_value.specs.Spelling.{row_bytes};

use crate::parts::{parts_copy, parts_write, see_parts};
use crate::refusal::NoMemory;
use crate::value::OwnedValue;
use std::alloc::Global;
use std::marker::Model;

/// The values of the columns of a row. Contracts see their list.
#[derive(Debug, Drop)]
pub struct Row {
    values: Vec<OwnedValue>,
}

impl Model for Row {
    ghost use Rattle.std.specs.Prelude.{List};
    ghost use Rattle.cs_value.specs.declared.value.OwnedValue.{OwnedValue};
    ghost use Rattle.cs_value.specs.Value.{IsRow};

    ghost Value = { List OwnedValue };

    ghost view = { λ r. r.values.items };

    ghost invariant = { λ r. IsRow r.values.items };
}

impl Row {
    /// Returns the row of some values. It allocates nothing.
    pub fn new(values: Vec<OwnedValue>) -> Row
        ensures { result ≡ values.items }
    {
        see_parts(&values);
        Row { values }
    }

    /// Returns the values, in column order.
    pub fn values(&self) -> &[OwnedValue]
        ensures same { result.now ≡ self.now }
        ensures are_values { IsRow self.now }
    {
        &self.values
    }

    /// Returns a copy of the row.
    pub fn copy(&self, alloc: Global) -> Result<Row, NoMemory>
        ensures { IfOk result (λ x. x ≡ self.now) }
    {
        Ok(Row::new(parts_copy(alloc, self.values())?))
    }

    /// Returns whether the row has as many values as there are flags, and no NULL in a column whose flag is not 0, as
    /// each row of a table does. It allocates nothing.
    pub fn is_keyed(&self, flags: &[u8]) -> bool
        ensures keyed { IsTrue result ↔ IsKeyedRow flags.now self.now }
        ensures are_values { IsRow self.now }
    {
        let values = self.values();
        if flags.len() != values.len() {
            return false;
        }
        for (column, flag) in flags.iter().enumerate() {
            if !may_stand(*flag, &values[column]) {
                return false;
            }
        }
        true
    }

    /// Returns the values. It allocates nothing.
    pub fn into_values(self) -> Vec<OwnedValue>
        ensures { result.items ≡ self }
    {
        let Row { values } = self;
        values
    }
}

impl PartialEq for Row {
    ghost use Rattle.cs_value.specs.contracts.value.OwnedValuePartialEq.TheImpl.Laws.{laws-law};
    ghost use Rattle.std.specs.Cmp.Lexicographic.{pointwise, lists_per};

    ghost eq = { pointwise ⟦<OwnedValue as PartialEq>⟧.eq };

    ghost laws = { lists_per laws-law };

    fn eq(&self, other: &Row) -> bool {
        self.values == other.values
    }
}

impl Eq for Row {
    ghost use Rattle.cs_value.specs.contracts.value.OwnedValueEq.TheImpl.Laws.{laws-law};
    ghost use Rattle.std.specs.Cmp.Lexicographic.{lists_equiv};

    ghost laws = { lists_equiv laws-law };
}

/// Returns whether a value can be in a column with this flag.
fn may_stand(flag: u8, value: &OwnedValue) -> bool
    ensures { IsTrue result ↔ IsKeyedRow (flag ∷ []) (value.now ∷ []) }
{
    flag == 0 || !matches!(value, OwnedValue::Null)
}

/// Appends the bytes of the values of a row, in column order. [`NoMemory`] leaves `out` unchanged.
pub fn row_write(out: &mut Vec<u8>, row: &Row) -> Result<(), NoMemory>
    ensures ok { OnOk result (out.new.items ≡ out.old.items ++ row_bytes row.now) }
    ensures err { OnErr result (out.new.items ≡ out.old.items) }
{
    parts_write(out, row.values())
}
