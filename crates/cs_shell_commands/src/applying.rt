//! The command that applies a file to a store.
ghost use Rattle.cs_files.specs.Calls.{Writes};
ghost use Rattle.cs_shell_replies.specs.Replies.{reply_of, reply_text};
ghost use Rattle.cs_shell_commands.specs.Applies.{Applies, AppliesInFolder, AppliesInMemory, EndsApply, TellsReply};

use crate::files::read_file;
use cs_apply::{Noop, Policy};
use cs_files::Told;
use cs_shell_command_line::IN_MEMORY;
use cs_shell_executor::apply_unnoted;
use cs_shell_replies::{Refusal, Reply, write_reply};
use cs_store::{Store, StoreError};
use cs_store_folder::{StoreFolder, Visitor};
use cs_store_memory::{memory_files_law, open_memory};
use sqlite::Alter;
use std::alloc::Global;
use std::io::Write;

/// Applies a file to the store, and keeps the reply.
#[derive(Drop)]
struct Applying<'a> {
    file: &'a [u8],
    policy: &'a Policy,
    noop: Noop,
    reply: Result<Reply, Refusal>,
}

impl Visitor for Applying<'_> {
    ghost use Rattle.cs_shell_executor.specs.LineAnswers.{AnswersApply};
    ghost use Rattle.cs_shell_replies.specs.Replies.{answer_of};
    ghost use Rattle.cs_shell_commands.specs.Applies.{FileGives};

    ghost does = { λ _ b. AnswersApply (answer_of b.reply) };

    ghost visits = { λ a b before after. FileGives a.policy.now a.noop a.file.now (answer_of b.reply) before after };

    fn visit<S: Alter>(&mut self, alloc: Global, store: &mut Store<S>) {
        self.reply = apply_unnoted(alloc, store, self.file, self.policy, self.noop);
    }
}

/// Applies a file to the store in another, or for `:memory:` to a new one in memory, and prints the report. A store in
/// a file is closed first: if that fails, the report is printed all the same.
///
/// # Errors
///
/// In this order: `Input` if the file cannot be read, `Store` if the store cannot be opened, the refusals of the apply,
/// which change no table, `Output` if the report cannot be printed, `Store` if the store cannot be closed. At any point
/// `NoMemory`.
pub fn apply<F: StoreFolder, W: Write>(
    alloc: Global,
    folder: &mut F,
    file: &str,
    store: &str,
    policy: &Policy,
    noop: Noop,
    out: &mut Told<W>,
) -> Result<(), Refusal>
    ensures { Applies W.contents policy.now noop (F.Folder.files folder.old) (F.Folder.files folder.new) file.now
        store.now out.old out.new result }
{
    match read_file(alloc, folder, file) {
        Ok(bytes) if store == IN_MEMORY => apply_in_memory(alloc, &bytes, policy, noop, out),
        Ok(bytes) => apply_in_folder(alloc, folder, &bytes, store, policy, noop, out),
        Err(refusal) => Err(refusal),
    }
}

/// Applies a file to a new store in memory, and prints the report.
fn apply_in_memory<W: Write>(
    alloc: Global,
    file: &[u8],
    policy: &Policy,
    noop: Noop,
    out: &mut Told<W>,
) -> Result<(), Refusal>
    ensures { AppliesInMemory W.contents policy.now noop file.now out.old out.new result }
{
    match open_memory(alloc) {
        Ok(mut store) => {
            let reply = apply_unnoted(alloc, &mut store, file, policy, noop);
            memory_files_law(&store);
            tell_reply(out, reply, Ok(()))
        }
        Err(error) => Err(Refusal::from(error)),
    }
}

/// Applies a file to the store in another, and prints the report.
fn apply_in_folder<F: StoreFolder, W: Write>(
    alloc: Global,
    folder: &mut F,
    file: &[u8],
    store: &str,
    policy: &Policy,
    noop: Noop,
    out: &mut Told<W>,
) -> Result<(), Refusal>
    ensures { AppliesInFolder W.contents policy.now noop (F.Folder.files folder.old) (F.Folder.files folder.new)
        file.now store.now out.old out.new result }
{
    let mut applying = Applying {
        file,
        policy,
        noop,
        reply: Err(Refusal::NoMemory),
    };
    match folder.visit_store(alloc, store, &mut applying) {
        Ok(closed) => tell_reply(out, applying.reply, closed),
        Err(error) => {
            drop(applying);
            Err(Refusal::from(error))
        }
    }
}

/// Prints the report of an apply, or returns why there is none.
fn tell_reply<W: Write>(
    out: &mut Told<W>,
    reply: Result<Reply, Refusal>,
    closed: Result<(), StoreError>,
) -> Result<(), Refusal>
    ensures { TellsReply W.contents reply closed result out.old out.new }
{
    match reply {
        Ok(reply) => tell_report(out, &reply, closed),
        Err(refusal) => Err(refusal),
    }
}

/// Prints a report, and returns why the store was not closed.
fn tell_report<W: Write>(
    out: &mut Told<W>,
    report: &Reply,
    closed: Result<(), StoreError>,
) -> Result<(), Refusal>
    ensures { (written : _) × Writes W.contents written out.old out.new (reply_text (reply_of report.now))
        × EndsApply written closed result }
{
    match (write_reply(out, report), closed) {
        (Err(fault), _) => Err(Refusal::Output(fault)),
        (Ok(()), Err(error)) => Err(Refusal::from(error)),
        (Ok(()), Ok(())) => Ok(()),
    }
}
