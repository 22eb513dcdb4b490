//! Writing the files of changesets.
ghost use Rattle.std.specs.Prelude.{◌≡◌, ◌++◌, IfOk, OnErr, OnOk, length, take};
ghost use Rattle.cs_wire_entries.specs.Changeset.{IsHeader, header_bytes, group_bytes, file_bytes};

use crate::changeset::Changeset;
use crate::group::Group;
use cs_value::{NoMemory, varint_write};
use cs_wire_entries::{EntryRef, TABLE};
use std::alloc::Global;

/// Returns the file of a changeset.
///
/// # Errors
///
/// [`NoMemory`] if memory runs out.
pub fn write(alloc: Global, changeset: &Changeset) -> Result<Vec<u8>, NoMemory>
    ensures { IfOk result (λ out. out.items ≡ file_bytes changeset.now) }
{
    let mut out = Vec::new(alloc);
    for group in changeset.groups() {
        write_group(&mut out, group)?;
    }
    Ok(out)
}

fn write_group(out: &mut Vec<u8>, group: &Group) -> Result<(), NoMemory>
    ensures { OnOk result (out.new.items ≡ out.old.items ++ group_bytes group.now) }
{
    write_header(out, group.header().name(), group.flags())?;
    for entry in group.entries() {
        EntryRef::from_entry(group.flags(), entry).write_to(out)?;
    }
    Ok(())
}

#[tactic(auto, unfolding(cs_wire_entries::specs::Changeset::header_bytes, cs_wire_entries::specs::Changeset::flags_bytes))]
pub(crate) fn write_header(out: &mut Vec<u8>, name: &str, flags: &[u8]) -> Result<(), NoMemory>
    requires { IsHeader (record { name = name.now; flags = flags.now }) }
    ensures ok { OnOk result (out.new.items ≡ out.old.items ++ header_bytes (record { name = name.now; flags = flags.now })) }
    ensures err { OnErr result (take (length out.old.items) out.new.items ≡ out.old.items) }
{
    out.push(TABLE)?;
    varint_write(out, flags.len() as u32)?;
    out.extend_from_slice(flags)?;
    out.extend_from_slice(name.as_bytes())?;
    out.push(0)?;
    Ok(())
}
