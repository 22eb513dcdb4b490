//! How replies are printed.
ghost use Rattle.cs_files.specs.Calls.{Writes};
ghost use Rattle.cs_files.specs.Gathering.{Gathers};
ghost use Rattle.cs_shell_replies.specs.ErrorLines.{refusal_text};
ghost use Rattle.cs_shell_replies.specs.Replies.{answer_of, line_text, reply_of, reply_text, rows_text};

use crate::refusal::{Detail, Refusal};
use crate::reply::Reply;
use crate::report::report_text;
use cs_files::{Gather, OutputFault, Piece, Told, add_pieces, dump_text};
use cs_shell_grammar::kind_name;
use cs_value::{Fault, Row};
use std::io::Write;

/// Adds the error line of a refusal.
#[tactic(auto, unfolding(crate::specs::ErrorLines::refusal_text))]
fn add_refusal<W: Write>(
    gather: &mut Gather,
    out: &mut Told<W>,
    refusal: &Refusal,
) -> Result<(), OutputFault>
    ensures { Gathers W.contents result gather.old gather.new out.old out.new (refusal_text refusal.now) }
{
    let error = Piece::Bytes(b"error ");
    let code = Piece::Number(usize::from(refusal.code()));
    let name = Piece::Bytes(refusal.name().as_bytes());
    let blank = Piece::Bytes(b" ");
    let end = Piece::Bytes(b"\n");
    match refusal.detail() {
        Detail::Nothing => add_pieces(gather, out, &[error, code, blank, name, end]),
        Detail::Number(number) => {
            let number = Piece::Number(number);
            add_pieces(gather, out, &[error, code, blank, name, blank, number, end])
        }
        Detail::Conflict(conflict) => {
            let kind = Piece::Bytes(kind_name(conflict.kind).as_bytes());
            let table = Piece::Quoted(conflict.table.as_str());
            add_pieces(
                gather,
                out,
                &[error, code, blank, name, blank, kind, blank, table, end],
            )
        }
    }
}

/// Writes the error line of a refusal. It takes no memory, and fails, with some front of the line
/// written, where a write fails or takes no byte.
pub fn write_refusal<W: Write>(out: &mut Told<W>, refusal: &Refusal) -> Result<(), OutputFault>
    ensures { Writes W.contents result out.old out.new (refusal_text refusal.now) }
{
    let mut gather = Gather::new();
    add_refusal(&mut gather, out, refusal)?;
    gather.flush(out)
}

/// Writes a line of text, and fails as `write_refusal` does.
fn write_line<W: Write>(out: &mut Told<W>, text: &str) -> Result<(), OutputFault>
    ensures { Writes W.contents result out.old out.new (line_text text.now) }
{
    let mut gather = Gather::new();
    add_pieces(
        &mut gather,
        out,
        &[Piece::Bytes(text.as_bytes()), Piece::Bytes(b"\n")],
    )?;
    gather.flush(out)
}

/// Adds a line for each row.
fn add_rows<W: Write>(
    gather: &mut Gather,
    out: &mut Told<W>,
    rows: &[Row],
) -> Result<(), OutputFault>
    ensures { Gathers W.contents result gather.old gather.new out.old out.new (rows_text rows.now) }
{
    for row in rows {
        add_pieces(gather, out, &[Piece::Listed(row), Piece::Bytes(b"\n")])?;
    }
    Ok(())
}

/// Writes a line for each row, and fails as `write_refusal` does. No text is gathered but what fits into an
/// array of fixed length.
fn write_rows<W: Write>(out: &mut Told<W>, rows: &[Row]) -> Result<(), OutputFault>
    ensures { Writes W.contents result out.old out.new (rows_text rows.now) }
{
    let mut gather = Gather::new();
    add_rows(&mut gather, out, rows)?;
    gather.flush(out)
}

/// Writes what is printed for a reply, and fails as `write_refusal` does.
#[tactic(auto, unfolding(crate::specs::Replies::reply_text))]
pub fn write_reply<W: Write>(out: &mut Told<W>, reply: &Reply) -> Result<(), OutputFault>
    ensures { Writes W.contents result out.old out.new (reply_text (reply_of reply.now)) }
{
    match reply {
        Reply::Silent => Ok(()),
        Reply::Text(text) => write_line(out, text.as_str()),
        Reply::Dump(changeset) => dump_text(changeset, out),
        Reply::Rows(rows) => write_rows(out, rows),
        Reply::Report(report) => report_text(report, out),
    }
}

/// Writes what is printed for an answer, and fails as `write_refusal` does.
#[tactic(auto, unfolding(crate::specs::Replies::reply_text))]
pub fn write_answer<W: Write>(
    out: &mut Told<W>,
    answer: &Result<Reply, Refusal>,
) -> Result<(), OutputFault>
    ensures { Writes W.contents result out.old out.new (reply_text (answer_of answer.now)) }
{
    match answer {
        Ok(reply) => write_reply(out, reply),
        Err(refusal) => write_refusal(out, refusal),
    }
}
