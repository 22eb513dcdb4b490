//! The script of a command line, which visits a store.
ghost use Rattle.std.specs.Prelude.{◌≡◌};

use cs_files::Told;
use cs_shell_script::{Status, run_script};
use cs_store::Store;
use cs_store_folder::Visitor;
use sqlite::Alter;
use std::alloc::Global;
use std::io::{Read, Write};

/// Runs the input as a script on the store, and keeps how it ended.
#[derive(Drop)]
pub(crate) struct Scripting<'a, R: Read, W: Write> {
    pub(crate) input: &'a mut Told<R>,
    pub(crate) out: &'a mut Told<W>,
    pub(crate) status: Status,
}

impl<R: Read, W: Write> Visitor for Scripting<'_, R, W> {
    ghost use Rattle.cs_shell_script.specs.Runs.{Runs};
    ghost use Rattle.cs_shell_script.specs.StoreRuns.{HasReply};
    ghost use Rattle.cs_shell.specs.Scripts.{ScriptGives};

    ghost does = { λ a b. (b.input.ghost_name ≡ a.input.ghost_name) × (b.out.ghost_name ≡ a.out.ghost_name)
        × Runs R.remaining W.contents HasReply b.status tt tt a.input.now b.input.now a.out.now b.out.now };

    ghost visits = { λ a b before after. ScriptGives R.remaining W.contents b.status a.input.now b.input.now a.out.now
        b.out.now before after };

    fn visit<S: Alter>(&mut self, alloc: Global, store: &mut Store<S>) {
        self.status = run_script(alloc, store, self.input, self.out);
    }
}
