//! The text of what an apply did.
ghost use Rattle.std.specs.Prelude.{string_bytes};
ghost use Rattle.std.specs.List.{flat_map};
ghost use Rattle.cs_apply_engine.specs.Report.{met_of};
ghost use Rattle.cs_files.specs.Calls.{Writes};
ghost use Rattle.cs_files.specs.Gathering.{Gathers};
ghost use Rattle.cs_shell_replies.specs.Report.{skip_text, met_text, counted_text, ignored_text, count_text, report_of};

use cs_apply::{Met, Summary};
use cs_files::{Gather, OutputFault, Piece, Told, add_pieces};
use cs_shell_grammar::{choice_name, kind_name};
use std::io::Write;

/// Adds the line of a table that was passed over.
#[tactic(auto, unfolding(crate::specs::Report::skip_text))]
fn add_skip<W: Write>(
    gather: &mut Gather,
    out: &mut Told<W>,
    table: &str,
) -> Result<(), OutputFault>
    ensures { Gathers W.contents result gather.old gather.new out.old out.new (skip_text table.now) }
{
    add_pieces(
        gather,
        out,
        &[
            Piece::Bytes(b"warning 17 skipped "),
            Piece::Quoted(table),
            Piece::Bytes(b"\n"),
        ],
    )
}

/// Adds the lines of tables that were passed over.
fn add_skips<W: Write>(
    gather: &mut Gather,
    out: &mut Told<W>,
    tables: &[String],
) -> Result<(), OutputFault>
    ensures { Gathers W.contents result gather.old gather.new out.old out.new
        (flat_map (λ table. skip_text (string_bytes table)) tables.now) }
{
    for table in tables {
        add_skip(gather, out, table.as_str())?;
    }
    Ok(())
}

/// Adds the line of a conflict.
#[tactic(auto, unfolding(crate::specs::Report::met_text))]
fn add_met<W: Write>(gather: &mut Gather, out: &mut Told<W>, met: &Met) -> Result<(), OutputFault>
    ensures { Gathers W.contents result gather.old gather.new out.old out.new (met_text (met_of met.now)) }
{
    let conflict = &met.conflict;
    add_pieces(
        gather,
        out,
        &[
            Piece::Bytes(b"conflict "),
            Piece::Number(usize::from(conflict.kind.number())),
            Piece::Bytes(b" "),
            Piece::Bytes(kind_name(conflict.kind).as_bytes()),
            Piece::Bytes(b" "),
            Piece::Bytes(choice_name(met.choice).as_bytes()),
            Piece::Bytes(b" "),
            Piece::Quoted(conflict.table.as_str()),
            Piece::Bytes(b"\n"),
        ],
    )
}

/// Adds the lines of conflicts.
fn add_conflicts<W: Write>(
    gather: &mut Gather,
    out: &mut Told<W>,
    conflicts: &[Met],
) -> Result<(), OutputFault>
    ensures { Gathers W.contents result gather.old gather.new out.old out.new
        (flat_map (λ met. met_text (met_of met)) conflicts.now) }
{
    for met in conflicts {
        add_met(gather, out, met)?;
    }
    Ok(())
}

/// Adds the line with the count of the entries that were ignored, where there are some.
#[tactic(auto, unfolding(crate::specs::Report::ignored_text))]
fn add_ignored<W: Write>(
    gather: &mut Gather,
    out: &mut Told<W>,
    count: usize,
) -> Result<(), OutputFault>
    ensures { Gathers W.contents result gather.old gather.new out.old out.new (ignored_text count) }
{
    if count == 0 {
        return Ok(());
    }
    add_counted(gather, out, b"ignored ", count)
}

/// Adds the line with the count of the entries that were carried out.
#[tactic(auto, unfolding(crate::specs::Report::count_text))]
fn add_count<W: Write>(
    gather: &mut Gather,
    out: &mut Told<W>,
    count: usize,
) -> Result<(), OutputFault>
    ensures { Gathers W.contents result gather.old gather.new out.old out.new (count_text count) }
{
    add_counted(gather, out, b"applied ", count)
}

/// Adds a line with a word and a count.
fn add_counted<W: Write>(
    gather: &mut Gather,
    out: &mut Told<W>,
    word: &[u8],
    count: usize,
) -> Result<(), OutputFault>
    ensures { Gathers W.contents result gather.old gather.new out.old out.new (counted_text word.now count) }
{
    add_pieces(
        gather,
        out,
        &[
            Piece::Bytes(word),
            Piece::Number(count),
            Piece::Bytes(b"\n"),
        ],
    )
}

/// Adds the lines of a report.
fn add_report<W: Write>(
    gather: &mut Gather,
    out: &mut Told<W>,
    report: &Summary,
) -> Result<(), OutputFault>
    ensures { Gathers W.contents result gather.old gather.new out.old out.new (report_of report.now) }
{
    add_skips(gather, out, &report.skipped)?;
    add_conflicts(gather, out, &report.conflicts)?;
    add_ignored(gather, out, report.ignored)?;
    add_count(gather, out, report.written)
}

/// Writes what an apply did: for each table that was passed over, in the order of the file, a line
/// `warning 17 skipped` with its name; then for each conflict, in that order, a line with the number and
/// the name of its kind, what was chosen for it, and the table; a line `ignored` with the count of the entries
/// that were ignored, where there are some; and then a line `applied` with the count of the entries that were
/// carried out. It takes no memory.
///
/// # Errors
///
/// [`OutputFault`] where a write fails, or takes no byte. Some front of the text is written then, and
/// the flag of `out` is set.
pub fn report_text<W: Write>(report: &Summary, out: &mut Told<W>) -> Result<(), OutputFault>
    ensures { Writes W.contents result out.old out.new (report_of report.now) }
{
    let mut gather = Gather::new();
    add_report(&mut gather, out, report)?;
    gather.flush(out)
}
