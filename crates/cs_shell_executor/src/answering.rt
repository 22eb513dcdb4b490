//! The answer to a line, over a store, slots and a session.
ghost use Rattle.std.specs.Prelude.{◌≡◌, ◌||◌, Bool, true, IfErr, OnOk, OnErr};
ghost use Rattle.sqlite.specs.Held.{state};
ghost use Rattle.cs_shell_grammar.specs.Commands.{command_of};
ghost use Rattle.cs_shell_replies.specs.Replies.{answer_of};
ghost use Rattle.cs_shell_executor.specs.LineAnswers.{CommandGives, LineGives, IsResource};
ghost use Rattle.cs_store.specs.Turns.{Shows, AreSame, Known, Stands, TurnsBetween};
ghost use Rattle.cs_shell_executor.specs.Works.{WorksOn};

use crate::workspace::Workspace;
use crate::{applying, changesets, sessions, statements};
use cs_shell_grammar::{Command, parse_line};
use cs_shell_replies::{Refusal, Reply};
use cs_store::Store;
use sqlite::Alter;
use std::alloc::Global;

/// Begins an empty batch and drops it. That fails while a batch is open.
fn check_at_rest<S: Alter>(store: &mut Store<S>) -> Result<(), Refusal>
    ensures at_rest { OnOk result (TurnsBetween (state S.Store store.old) (state S.Store store.new)
        (Shows (state S.Store store.old)) (Stands (state S.Store store.new)) AreSame) }
    ensures kept { OnErr result ((was : Bool) → TurnsBetween (state S.Store store.old) (state S.Store store.new)
        (Known was (state S.Store store.old)) (Known was (state S.Store store.new)) AreSame) }
    ensures named { IfErr result IsResource }
{
    let _batch = store.begin()?;
    Ok(())
}

/// Makes sure once that no batch is open in a store. The flag says whether that is known.
pub fn check_at_rest_once<S: Alter>(
    store: &mut Store<S>,
    is_at_rest: &mut bool,
) -> Result<(), Refusal>
    ensures at_rest { OnOk result (is_at_rest.new ≡ true) }
    ensures turns { (rests : Bool) → TurnsBetween (state S.Store store.old) (state S.Store store.new)
        (Known (rests || is_at_rest.old) (state S.Store store.old))
        (Known (rests || is_at_rest.new) (state S.Store store.new)) AreSame }
    ensures named { IfErr result IsResource }
{
    if *is_at_rest {
        return Ok(());
    }
    check_at_rest(store)?;
    *is_at_rest = true;
    Ok(())
}

/// Carries out a command.
fn run_command<S: Alter>(
    alloc: Global,
    store: &mut Store<S>,
    work: &mut Workspace,
    command: Command,
) -> Result<Reply, Refusal>
    ensures { WorksOn (state S.Store store.old) (state S.Store store.new) work.old.slots work.new.slots
        work.old.session work.new.session (λ old. CommandGives old (command_of command)) (answer_of result) }
{
    let Workspace { slots, session } = work;
    match command {
        Command::Create {
            name,
            columns,
            refuses,
            keys,
        } => { statements::create(alloc, store, name.as_str(), &columns, &refuses, &keys) }
        Command::Insert { table, values } => statements::insert(
            alloc, store, session, table, values,
        ),
        Command::Update {
            table,
            sets,
            conditions,
        } => { statements::update(alloc, store, session, table, &sets, &conditions) }
        Command::Delete { table, conditions } => {
            statements::delete(alloc, store, session, table, &conditions)
        }
        Command::Select { table } => statements::select(alloc, store, table.as_str()),
        Command::Load { slot, digits } => {
            changesets::load(alloc, slots, slot.as_bytes(), digits.as_bytes())
        }
        Command::Hex { slot } => changesets::show(alloc, slots, slot.as_bytes()),
        Command::Dump { slot } => changesets::dump(alloc, slots, slot.as_bytes()),
        Command::Invert { from, into } => {
            changesets::invert(alloc, slots, from.as_bytes(), into.as_bytes())
        }
        Command::Concat {
            first,
            second,
            into,
        } => changesets::join(
            alloc,
            slots,
            first.as_bytes(),
            second.as_bytes(),
            into.as_bytes(),
        ),
        Command::Apply { slot, policy, noop } => {
            let file = slots.get(slot.as_bytes())?;
            applying::apply_file(alloc, store, session, file, &policy, noop)
        }
        Command::Revert { slot } => {
            applying::revert_file(alloc, store, session, slots.get(slot.as_bytes())?)
        }
        Command::SessionOpen => sessions::open(alloc, session),
        Command::SessionAttach { table } => sessions::attach(alloc, store, session, table.as_str()),
        Command::SessionChangeset { slot } => {
            sessions::changeset(alloc, store, slots, session, slot.as_bytes())
        }
        Command::SessionIsEmpty => sessions::is_empty(alloc, session),
        Command::SessionUndo => sessions::undo(alloc, store, session),
        Command::SessionClose => sessions::close(session),
    }
}

/// Carries out a line, and returns its reply. No batch is open in the store: see [`check_at_rest_once`]. A refused line
/// changes nothing.
pub fn answer_line<S: Alter>(
    alloc: Global,
    store: &mut Store<S>,
    work: &mut Workspace,
    line: &[u8],
) -> Result<Reply, Refusal>
    ensures { WorksOn (state S.Store store.old) (state S.Store store.new) work.old.slots work.new.slots
        work.old.session work.new.session (λ old. LineGives old line.now) (answer_of result) }
{
    let Ok(line) = std::str::from_utf8(line) else {
        return Err(Refusal::LineText);
    };
    match parse_line(alloc, line)? {
        Some(command) => run_command(alloc, store, work, command),
        None => Ok(Reply::Silent),
    }
}
