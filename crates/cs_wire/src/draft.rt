//! The tables of a file, item by item.
ghost use Rattle.std.specs.Prelude.{◌≡◌, IfErr, IfOk, OnOk};
ghost use Rattle.cs_value.specs.Refusals.{Refuses};
ghost use Rattle.cs_wire_entries.specs.Changeset.{IsChangeset, IsFileOf};
ghost use Rattle.cs_wire_entries.specs.ReadFaults.{ReadFails};
ghost use Rattle.cs_wire.specs.Cursor.{IsItem, IsNext, with_item};

use crate::cursor::Cursor;
use crate::group::Group;
use crate::header::Header;
use crate::item::Item;
use cs_value::NoMemory;
use cs_wire_entries::{Entry, ReadError};
use std::alloc::Global;
use std::marker::Model;

/// The header of a table, and those of its entries that were read.
#[derive(Drop)]
pub(crate) struct Draft {
    header: Header,
    entries: Vec<Entry>,
}

impl Model for Draft {
    ghost use Rattle.cs_wire_entries.specs.Changeset.{GroupData};

    ghost Value = { GroupData };

    ghost view = { λ d. record { header = d.header; entries = d.entries.items } };
}

/// Adds the next item.
fn add_item(alloc: Global, drafts: &mut Vec<Draft>, item: Item<'_>) -> Result<(), NoMemory>
    requires well_formed { IsItem item }
    requires next { IsNext drafts.old.items item }
    ensures { OnOk result (drafts.new.items ≡ with_item drafts.old.items item.entry) }
{
    match item {
        Item::Table(header) => {
            let header = header.to_header(alloc)?;
            let entries = Vec::new(alloc);
            Ok(drafts.push(Draft { header, entries })?)
        }
        Item::Entry(seen) => {
            let entry = seen.to_entry(alloc)?;
            match drafts.last_mut() {
                Some(draft) => Ok(draft.entries.push(entry)?),
                None => unreachable!(),
            }
        }
    }
}

/// Reads the tables of a changeset's file, with their entries.
pub(crate) fn read_drafts(alloc: Global, file: &[u8]) -> Result<Vec<Draft>, ReadError>
    ensures found { IfOk result (λ drafts. IsFileOf file.now drafts.items) }
    ensures refused { IfErr result (Refuses (λ f. ReadFails file.now f.kind f.place)) }
{
    let mut cursor = Cursor::new(alloc, file);
    let mut drafts = Vec::new(alloc);
    'items: while let Some(item) = cursor.next()? {
        add_item(alloc, &mut drafts, item)?;
    }
    Ok(drafts)
}

/// Returns the groups of tables that were read to their ends.
pub(crate) fn groups_of(alloc: Global, drafts: Vec<Draft>) -> Result<Vec<Group>, NoMemory>
    requires { IsChangeset drafts.items }
    ensures { IfOk result (λ groups. groups.items ≡ drafts.items) }
{
    let mut groups = Vec::new(alloc);
    for draft in drafts {
        let Draft { header, entries } = draft;
        groups.push(Group::from_entries(alloc, header, entries)?)?;
    }
    Ok(groups)
}
