//! Owned changesets, printed.
ghost use Rattle.std.specs.Prelude.{All};
ghost use Rattle.std.specs.List.{flat_map};
ghost use Rattle.cs_wire.specs.Entry.{IsEntry};
ghost use Rattle.cs_file_texts.specs.Gathering.{Gathers};
ghost use Rattle.cs_file_texts.specs.Forms.{entry_part, group_part, form_text};

use crate::fault::OutputFault;
use crate::gather::Gather;
use crate::texts::form::{Form, add_entry, add_header};
use crate::told::Told;
use cs_wire::{Entry, EntryRef, Group, HeaderRef};
use std::io::Write;

/// Appends the entries of the table with this name. They fit its flags.
fn add_entries<W: Write>(
    gather: &mut Gather,
    out: &mut Told<W>,
    form: Form,
    header: HeaderRef<'_>,
    entries: &[Entry],
) -> Result<(), OutputFault>
    requires { All (IsEntry header.flags.now) entries.now }
    ensures { Gathers W.contents result gather.old gather.new out.old out.new
        (flat_map (entry_part form header.entry.name.now) entries.now) }
{
    for entry in entries {
        let entry = EntryRef::from_entry(header.flags, entry);
        add_entry(gather, out, form, header.name, &entry)?;
    }
    Ok(())
}

/// Appends a group.
fn add_group<W: Write>(
    gather: &mut Gather,
    out: &mut Told<W>,
    form: Form,
    group: &Group,
) -> Result<(), OutputFault>
    ensures { Gathers W.contents result gather.old gather.new out.old out.new (group_part form group.now) }
{
    let header = HeaderRef {
        name: group.header().name(),
        flags: group.flags(),
    };
    add_header(gather, out, form, header)?;
    add_entries(gather, out, form, header, group.entries())
}

/// Appends groups in their order.
pub(super) fn add_groups<W: Write>(
    gather: &mut Gather,
    out: &mut Told<W>,
    form: Form,
    groups: &[Group],
) -> Result<(), OutputFault>
    ensures { Gathers W.contents result gather.old gather.new out.old out.new (form_text form groups.now) }
{
    for group in groups {
        add_group(gather, out, form, group)?;
    }
    Ok(())
}
