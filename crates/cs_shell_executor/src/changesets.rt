//! What lines do with the changesets in slots.
ghost use Rattle.cs_shell_grammar.specs.Commands as lines;
ghost use Rattle.cs_shell_executor.specs.LineAnswers.{SlotsGive};
ghost use Rattle.cs_shell_replies.specs.Replies.{answer_of};

use crate::slots::Slots;
use cs_files::{concat_bytes, invert_bytes};
use cs_shell_replies::{Refusal, Reply};
use cs_wire::read;
use std::alloc::Global;

/// Puts the bytes of hexadecimal digits into a slot.
pub(crate) fn load(
    alloc: Global,
    slots: &mut Slots,
    slot: &[u8],
    digits: &[u8],
) -> Result<Reply, Refusal>
    ensures { SlotsGive slots.old (lines.Load slot.now digits.now) (answer_of result) slots.new }
{
    let bytes = hex::decode(alloc, digits)?;
    slots.insert(alloc, slot, bytes)?;
    Ok(Reply::Silent)
}

/// Returns the digits of a slot's bytes.
pub(crate) fn show(alloc: Global, slots: &Slots, slot: &[u8]) -> Result<Reply, Refusal>
    ensures { SlotsGive slots.now (lines.Hex slot.now) (answer_of result) slots.now }
{
    let bytes = slots.get(slot)?;
    Ok(Reply::Text(hex::encode(alloc, bytes)?))
}

/// Puts the inverse of one slot's changeset into another.
pub(crate) fn invert(
    alloc: Global,
    slots: &mut Slots,
    from: &[u8],
    into: &[u8],
) -> Result<Reply, Refusal>
    ensures { SlotsGive slots.old (lines.Invert from.now into.now) (answer_of result) slots.new }
{
    let inverse = invert_bytes(alloc, slots.get(from)?)?;
    slots.insert(alloc, into, inverse)?;
    Ok(Reply::Silent)
}

/// Puts the concatenation of two slots' changesets into a third.
pub(crate) fn join(
    alloc: Global,
    slots: &mut Slots,
    first: &[u8],
    second: &[u8],
    into: &[u8],
) -> Result<Reply, Refusal>
    ensures { SlotsGive slots.old
        (lines.Concat first.now second.now into.now) (answer_of result) slots.new }
{
    let file = slots.get(first)?;
    let other = slots.get(second)?;
    let joined = concat_bytes(alloc, file, other)?;
    slots.insert(alloc, into, joined)?;
    Ok(Reply::Silent)
}

/// Returns the changeset of a slot's bytes.
pub(crate) fn dump(alloc: Global, slots: &Slots, slot: &[u8]) -> Result<Reply, Refusal>
    ensures { SlotsGive slots.now (lines.Dump slot.now) (answer_of result) slots.now }
{
    Ok(Reply::Dump(read(alloc, slots.get(slot)?)?))
}
