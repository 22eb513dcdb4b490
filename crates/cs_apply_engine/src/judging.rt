//! Whether the tables of a changeset fit the tables of the rows.
ghost use Rattle.std.specs.Prelude.{◌≡◌, IfOk, IfErr, OnOk, option_map, is_ok};
ghost use Rattle.cs_value.specs.State.{schema_at};
ghost use Rattle.cs_apply_conflict_kinds.specs.Judging.{judgement};
ghost use Rattle.cs_apply_conflict_kinds.specs.Applying.{refuses_at};
ghost use Rattle.cs_apply_engine.specs.Running.{IsCaused, IsResource};
ghost use Rattle.cs_apply_engine.specs.Steps.{IsStoreRefusal};

use crate::fault::ApplyFault;
use cs_apply_conflict_kinds::{Judgement, judge};
use cs_rows::Rows;
use cs_wire::HeaderRef;
use std::alloc::Global;

/// Compares the header of a group with the table of its name. Also returns which columns of the table refuse NULL: an
/// empty list if there is no table.
pub(crate) fn judge_table<B: Rows>(
    alloc: Global,
    rows: &mut B,
    header: &HeaderRef<'_>,
) -> Result<(Judgement, Vec<bool>), ApplyFault>
    ensures judged { B.is_honest rows.new → IfOk result (λ r. r.0 ≡ judgement header.now.flags.now
        (option_map (λ s. s.flags) (schema_at (B.state rows.old) header.now.name.now))) }
    ensures rules { B.is_honest rows.new → IfOk result (λ r. r.1.items
        ≡ refuses_at (B.state rows.old) header.now.name.now) }
    ensures same { B.is_honest rows.new → OnOk result (B.state rows.new ≡ B.state rows.old) }
    ensures refused { B.is_honest rows.new → IfErr result IsResource }
    ensures named { IfErr result IsStoreRefusal }
    ensures caused { B.is_honest rows.new → IfErr result (IsCaused (B.fails (λ _ _. ⊥) rows.old rows.new)) }
    ensures was_honest { B.is_honest rows.new → B.is_honest rows.old }
    ensures kept { B.keeps (λ _ _. ⊥) (is_ok result) rows.old rows.new }
{
    match rows.schema(alloc, header.name)? {
        None => Ok((judge(header.flags, None), Vec::new(alloc))),
        Some(schema) => {
            let refuses = Vec::from_slice(alloc, schema.refuses())?;
            Ok((judge(header.flags, Some(schema.flags())), refuses))
        }
    }
}
