//! Whether a group fits the table of its name.
ghost use Rattle.std.specs.Prelude.{◌≡◌, option_map};
ghost use Rattle.cs_apply_conflict_kinds.specs.Judging.{judgement, leads as leads_of};

use cs_group::is_of_key;

/// Whether a group fits the table of its name.
#[derive(Clone, Copy, Debug, PartialEq, Eq)]
pub enum Judgement {
    /// There is no such table, or it has fewer columns or another key. The group is skipped.
    Skipped,
    /// The table has more columns than the group.
    Wider,
    /// The table has the same number of columns, and the same key.
    Compatible,
}

/// Returns whether a group with these flags fits the table of its name, by the flags of that table. It allocates
/// nothing.
pub fn judge(flags: &[u8], table: Option<&[u8]>) -> Judgement
    ensures { result ≡ judgement flags.now (option_map (λ t. t.now) table.entry) }
{
    match table {
        None => Judgement::Skipped,
        Some(table) if !leads(flags, table) => Judgement::Skipped,
        Some(table) if flags.len() < table.len() => Judgement::Wider,
        Some(_) => Judgement::Compatible,
    }
}

/// Returns whether the first columns of a table have the same key as columns with these flags.
fn leads(flags: &[u8], table: &[u8]) -> bool
    ensures { result ≡ leads_of flags.now table.now }
{
    if table.len() < flags.len() {
        return false;
    }
    for (column, flag) in flags.iter().enumerate() {
        if is_of_key(*flag) != is_of_key(table[column]) {
            return false;
        }
    }
    true
}
