//! Lists of items that are printed.
ghost use Rattle.std.specs.Prelude.{List, ℕ, ◌++◌, map, decimal};
ghost use Rattle.std.specs.List.{flat_map};
ghost use Rattle.cs_value.specs.Value.{field_of};
ghost use Rattle.cs_file_texts.specs.Gathering.{Gathers};
ghost use Rattle.cs_file_texts.specs.Texts.{literal, field_text, separated};

use crate::fault::OutputFault;
use crate::gather::Gather;
use crate::texts::literal::{add_literal, add_number};
use crate::told::Told;
use cs_value::{Field, OwnedValue};
use cs_wire::Fields;
use std::io::Write;

/// An item with a text.
pub(super) trait Print {
    ghost text: { Self → List ℕ };

    /// Appends the text.
    fn print<W: Write>(&self, gather: &mut Gather, out: &mut Told<W>) -> Result<(), OutputFault>
        ensures { Gathers W.contents result gather.old gather.new out.old out.new (text self.now) };
}

impl Print for u8 {
    ghost text = { decimal };

    fn print<W: Write>(&self, gather: &mut Gather, out: &mut Told<W>) -> Result<(), OutputFault> {
        add_number(gather, out, usize::from(*self))
    }
}

impl Print for OwnedValue {
    ghost text = { literal };

    fn print<W: Write>(&self, gather: &mut Gather, out: &mut Told<W>) -> Result<(), OutputFault> {
        add_literal(gather, out, self.as_value())
    }
}

#[tactic(auto, unfolding(crate::specs::Texts::field_text))]
impl Print for Field<'_> {
    ghost text = { λ field. field_text (field_of field) };

    fn print<W: Write>(&self, gather: &mut Gather, out: &mut Told<W>) -> Result<(), OutputFault> {
        match self {
            Field::Undefined => gather.add(out, b"-"),
            Field::Defined(value) => add_literal(gather, out, *value),
        }
    }
}

/// Appends the texts of items in their order.
pub(super) fn add_each<W: Write, T: Print>(
    gather: &mut Gather,
    out: &mut Told<W>,
    items: &[T],
) -> Result<(), OutputFault>
    ensures { Gathers W.contents result gather.old gather.new out.old out.new (flat_map T.text items.now) }
{
    for item in items {
        item.print(gather, out)?;
    }
    Ok(())
}

/// Appends a lead and the text of an item.
fn add_behind<W: Write, T: Print>(
    gather: &mut Gather,
    out: &mut Told<W>,
    lead: &[u8],
    item: &T,
) -> Result<(), OutputFault>
    ensures { Gathers W.contents result gather.old gather.new out.old out.new (lead.now ++ T.text item.now) }
{
    gather.add(out, lead)?;
    item.print(gather, out)
}

/// Appends the texts of items, with a separator between each two.
pub(super) fn add_separated<W: Write, T: Print>(
    gather: &mut Gather,
    out: &mut Told<W>,
    between: &[u8],
    items: &[T],
) -> Result<(), OutputFault>
    ensures { Gathers W.contents result gather.old gather.new out.old out.new
        (separated between.now (map T.text items.now)) }
{
    let mut lead: &[u8] = b"";
    for item in items {
        add_behind(gather, out, lead, item)?;
        lead = between;
    }
    Ok(())
}

/// Appends the texts of fields, with a separator between each two.
pub(super) fn add_fields<W: Write>(
    gather: &mut Gather,
    out: &mut Told<W>,
    between: &[u8],
    fields: Fields<'_>,
) -> Result<(), OutputFault>
    ensures { Gathers W.contents result gather.old gather.new out.old out.new
        (separated between.now (map field_text fields.entry)) }
{
    let mut lead: &[u8] = b"";
    let mut left = fields;
    'fields: while let Some(field) = left.next() {
        add_behind(gather, out, lead, &field)?;
        lead = between;
    }
    Ok(())
}
