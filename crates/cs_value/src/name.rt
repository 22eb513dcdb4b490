//! The names of tables.
ghost use Rattle.std.specs.Prelude.{◌↔◌, IsTrue};
ghost use Rattle.cs_value.specs.Table.{IsName};

/// Returns whether a table of a changeset can have this name: it has at least one byte, and none that is zero. It
/// allocates nothing.
pub fn is_table_name(name: &str) -> bool
    ensures { IsTrue result ↔ IsName name.now }
{
    !name.is_empty() && name.as_bytes().iter().all(|byte| *byte != 0)
}
