//! Scripts over a store.
ghost use Rattle.std.specs.Prelude.{◌≡◌, ◌||◌, Bool};
ghost use Rattle.sqlite.specs.Held.{state};
ghost use Rattle.sqlite.specs.State.{HasCleanDisk};
ghost use Rattle.cs_value.specs.State.{State};
ghost use Rattle.cs_store.specs.Turns.{IsSettled, Shows, SparesStore, TellsFailures, Known, TurnsBetween};
ghost use Rattle.cs_shell_script.specs.Runs.{Runs};
ghost use Rattle.cs_shell_script.specs.Shells.{RunsShell};
ghost use Rattle.cs_shell_script.specs.StoreRuns.{HasReply, RunsScript};

use crate::script::{Interpreter, Status, run_interpreter};
use cs_files::Told;
use cs_shell_executor::{Workspace, answer_line, check_at_rest_once};
use cs_shell_replies::{Refusal, Reply};
use cs_store::Store;
use sqlite::Alter;
use std::alloc::Global;
use std::io::{Read, Write};

/// A store and the workspace of a script.
#[derive(Drop)]
pub(crate) struct Shell<'a, S: Alter> {
    pub(crate) store: &'a mut Store<S>,
    pub(crate) work: &'a mut Workspace,
    /// Whether it is known that no batch is open in the store.
    pub(crate) is_at_rest: bool,
}

impl<S: Alter> Interpreter for Shell<'_, S> {
    ghost use Rattle.std.proofs.Common.{refl};
    ghost use Rattle.cs_shell_script.specs.Laws.{loses_line};
    ghost use Rattle.cs_shell_script.specs.Shells.{Answers};

    ghost gives = { λ a line reply b. (b.store.ghost_name ≡ a.store.ghost_name)
        × Answers (state S.Store a.store.now) (state S.Store b.store.now) a.is_at_rest b.is_at_rest
        a.work.now b.work.now line reply };

    fn answer(&mut self, alloc: Global, line: &[u8]) -> Result<Reply, Refusal> {
        check_at_rest_once(self.store, &mut self.is_at_rest)?;
        answer_line(alloc, self.store, self.work, line)
    }

    ghost loses = { λ interpreter line. (
      refl,
      loses_line (state S.Store interpreter.store.now) interpreter.is_at_rest
          interpreter.work.now line,
    ) };
}

/// Runs a script over a store and a workspace.
fn run_shell<S: Alter, R: Read, W: Write>(
    alloc: Global,
    shell: &mut Shell<'_, S>,
    input: &mut Told<R>,
    out: &mut Told<W>,
) -> Status
    ensures kept { shell.new.store.ghost_name ≡ shell.old.store.ghost_name }
    ensures answered { Runs R.remaining W.contents HasReply result tt tt input.old input.new out.old out.new }
    ensures ran { (rests : Bool) → TurnsBetween (state S.Store shell.old.store.now) (state S.Store shell.new.store.now)
        (Known (rests || shell.old.is_at_rest) (state S.Store shell.old.store.now))
        (Known (rests || shell.new.is_at_rest) (state S.Store shell.new.store.now))
        (RunsShell R.remaining W.contents result shell.old.work.now shell.new.work.now
        input.old input.new out.old out.new) }
{
    run_interpreter(alloc, shell, input, out)
}

/// Runs a script on a store: reads its lines, answers them, and prints the replies. The lines that were read are
/// answered before more is read.
///
/// A line changes nothing if memory or the database refuses it. Once a failure of the disk has shut the store, each
/// line that asks for a table is refused. Before the first line an empty batch is begun and dropped. If that fails,
/// because a batch was left open in the store, the line is refused, and the next line tries again.
///
/// After 16777216 bytes one byte more ends the script: the lines that end before it are run, and an error line is
/// printed. The script also ends if a read or a write fails. The store keeps what the lines did. While it is open, all
/// else in its database is kept. The slots and the session end with the script.
pub fn run_script<S: Alter, R: Read, W: Write>(
    alloc: Global,
    store: &mut Store<S>,
    input: &mut Told<R>,
    out: &mut Told<W>,
) -> Status
    ensures answered { Runs R.remaining W.contents HasReply result tt tt input.old input.new out.old out.new }
    ensures ran { HasCleanDisk (state S.Store store.new) → (tables : State) → Shows (state S.Store store.old) tables
        → RunsScript R.remaining W.contents result input.old input.new out.old out.new tables
        (state S.Store store.new) }
    ensures at_rest { HasCleanDisk (state S.Store store.new) → IsSettled (state S.Store store.old)
        → IsSettled (state S.Store store.new) }
    ensures disk { TellsFailures (state S.Store store.old) (state S.Store store.new) }
    ensures others { HasCleanDisk (state S.Store store.new)
        → SparesStore (state S.Store store.old) (state S.Store store.new) }
{
    let mut work = Workspace::new(alloc);
    let mut shell = Shell {
        store,
        work: &mut work,
        is_at_rest: false,
    };
    run_shell(alloc, &mut shell, input, out)
}
