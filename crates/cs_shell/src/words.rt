//! Command lines.
ghost use Rattle.std.specs.Prelude.{◌≡◌, ◌≢◌, ◌≤◌, None, Some, false, map, string_bytes};
ghost use Rattle.std.specs.Io.KnownBytes.{Appends};
ghost use Rattle.cs_files.specs.Told.{has_failed, known};
ghost use Rattle.cs_files.specs.Calls.{AppendsFront};
ghost use Rattle.cs_shell_command_line.specs.Words.{Asked, Refuses, Shell, asked, asked_of, in_memory};
ghost use Rattle.cs_shell_command_line.specs.declared.fault.WordsFault.TheVariants as fault;
ghost use Rattle.cs_shell_script.specs.Runs.{exit_of};
ghost use Rattle.cs_shell.specs.Outcomes.{CarriesOut, EndsAs};
ghost use Rattle.cs_shell.specs.Scripts.{EndsScript, Scripts};
ghost use Rattle.cs_shell.specs.CommandLine.{EndsUnasked, Helps, IsCommand};
ghost use Rattle.cs_shell.specs.CommandLine.{Reports, ReportsStatus, RunsInMemory};

use crate::scripting::Scripting;
use cs_files::{OutputFault, Told, write_whole};
use cs_folder::{Folder, HostFolder};
use cs_shell_command_line::{Action, IN_MEMORY, USAGE, WordsFault, parse_words};
use cs_shell_commands::{apply, concat, dump, invert, sql};
use cs_shell_replies::{Refusal, write_refusal};
use cs_shell_script::{Status, run_script};
use cs_store::StoreError;
use cs_store_folder::StoreFolder;
use cs_store_memory::{memory_files_law, open_memory};
use std::alloc::Global;
use std::io::{Read, Write};
use std::rt::HostRuntime;

/// Writes the error line of a refusal. A failure to write it is not reported.
fn report<E: Write>(err: &mut Told<E>, refusal: &Refusal)
    ensures { Reports E.contents refusal.now err.old err.new }
{
    let _ = write_refusal(err, refusal);
}

/// Returns the exit status of a script, and reports a stream that failed. The script has written its other errors.
fn end_script<E: Write>(err: &mut Told<E>, status: Status) -> u8
    ensures exit { result ≡ exit_of status }
    ensures told { ReportsStatus E.contents status err.old err.new }
{
    match status {
        Status::Done => return 0,
        Status::LinesRefused | Status::TooLong => {}
        Status::InputFault => report(err, &Refusal::Input),
        Status::OutputFault => report(err, &Refusal::Output(OutputFault)),
    }
    1
}

/// Runs the input as a script on a store in memory, and returns the exit status. If there is no memory for the store,
/// that is reported, and nothing is read.
fn run_input<R: Read, W: Write, E: Write>(
    alloc: Global,
    input: &mut Told<R>,
    out: &mut Told<W>,
    err: &mut Told<E>,
) -> u8
    ensures ran { RunsInMemory R.remaining W.contents E.contents result input.old input.new out.old out.new
        err.old err.new }
    ensures status { result ≤ 1 }
{
    match open_memory(alloc) {
        Ok(mut store) => {
            let status = run_script(alloc, &mut store, input, out);
            memory_files_law(&store);
            end_script(err, status)
        }
        Err(error) => {
            report(err, &Refusal::from(error));
            1
        }
    }
}

/// Writes the usage text, and returns the exit status of words that fit no command. If a write fails or accepts no
/// byte, a prefix of the text is written, and the flag of the stream is set.
pub fn print_usage<E: Write>(err: &mut Told<E>) -> u8
    ensures status { result ≡ 2 }
    ensures front { AppendsFront (known E.contents err.old) (known E.contents err.new) USAGE.now }
    ensures whole { has_failed err.new ≡ false →
        Appends (known E.contents err.old) (known E.contents err.new) USAGE.now }
{
    let _ = write_whole(err, USAGE.as_bytes());
    2
}

/// Writes the usage text for a command line that asks for it, and returns the exit status.
fn print_help<W: Write, E: Write>(out: &mut Told<W>, err: &mut Told<E>) -> u8
    ensures { Helps W.contents E.contents USAGE.now result out.old out.new err.old err.new }
{
    match write_whole(out, USAGE.as_bytes()) {
        Ok(()) => 0,
        Err(fault) => {
            report(err, &Refusal::Output(fault));
            1
        }
    }
}

/// Runs the input as a script on the store in a file, and returns the exit status. If the store cannot be opened, that
/// is reported, and nothing is read.
fn run_on_file<F: StoreFolder, R: Read, W: Write, E: Write>(
    alloc: Global,
    folder: &mut F,
    path: &str,
    input: &mut Told<R>,
    out: &mut Told<W>,
    err: &mut Told<E>,
) -> u8
    ensures status { result ≤ 1 }
    ensures ran { Scripts R.remaining W.contents E.contents (F.Folder.files folder.old) (F.Folder.files folder.new)
        path.now result input.old input.new out.old out.new err.old err.new }
{
    let mut scripting = Scripting {
        input,
        out,
        status: Status::Done,
    };
    match folder.visit_store(alloc, path, &mut scripting) {
        Ok(closed) => end_visit(err, closed, scripting.status),
        Err(error) => {
            report(err, &Refusal::from(error));
            1
        }
    }
}

/// Returns the exit status of a script on the store in a file, and reports a store that was not closed, or else a
/// stream that failed.
fn end_visit<E: Write>(err: &mut Told<E>, closed: Result<(), StoreError>, status: Status) -> u8
    ensures ends { EndsScript E.contents closed status result err.old err.new }
    ensures status { result ≤ 1 }
{
    match closed {
        Ok(()) => end_script(err, status),
        Err(error) => {
            report(err, &Refusal::from(error));
            1
        }
    }
}

/// Returns the exit status of a command. If it failed, writes the error line.
fn end_command<E: Write>(err: &mut Told<E>, done: Result<(), Refusal>) -> u8
    ensures { EndsAs E.contents done result err.old err.new }
{
    match done {
        Ok(()) => 0,
        Err(refusal) => {
            report(err, &refusal);
            1
        }
    }
}

/// Carries out an action, and returns the exit status: 0 if it is done, and 1 if it failed.
fn run_action<F: StoreFolder, R: Read, W: Write, E: Write>(
    alloc: Global,
    folder: &mut F,
    action: Action<'_>,
    input: &mut Told<R>,
    out: &mut Told<W>,
    err: &mut Told<E>,
) -> u8
    ensures status { result ≤ 1 }
    ensures script { asked_of action.entry ≡ Shell in_memory → RunsInMemory R.remaining W.contents E.contents result
        input.old input.new out.old out.new err.old err.new }
    ensures command { IsCommand (asked_of action.entry) → CarriesOut W.contents E.contents (F.Folder.files folder.old)
        (F.Folder.files folder.new) out.old out.new err.old err.new result (asked_of action.entry) }
    ensures unread { IsCommand (asked_of action.entry) → input.new ≡ input.old }
    ensures scripts { (file : _) → asked_of action.entry ≡ Shell file → file ≢ in_memory →
        Scripts R.remaining W.contents E.contents (F.Folder.files folder.old) (F.Folder.files folder.new) file result
        input.old input.new out.old out.new err.old err.new }
    ensures kept { asked_of action.entry ≡ Shell in_memory → F.Folder.files folder.new ≡ F.Folder.files folder.old }
{
    let done = match action {
        Action::Shell { file } if file == IN_MEMORY => {
            return run_input(alloc, input, out, err);
        }
        Action::Shell { file } => return run_on_file(alloc, folder, file, input, out, err),
        Action::Apply {
            file,
            store,
            policy,
            noop,
        } => apply(alloc, folder, file, store, &policy, noop, out),
        Action::Concat { file, second, out } => concat(alloc, folder, file, second, out),
        Action::Dump { file } => dump(alloc, folder, file, out),
        Action::Sql { file } => sql(alloc, folder, file, out),
        Action::Invert { file, out } => invert(alloc, folder, file, out),
    };
    end_command(err, done)
}

/// Carries out the words of a command line, the program's name first. Returns the exit status: 0 if the command is
/// done, 1 if it failed, and 2 if the words fit no command.
///
/// - No word after the name, and `:memory: shell`: runs the input as a script on a store in memory, as [`run_script`].
/// - `FILE shell`: runs it on the store in FILE. Creates the file if it does not exist.
/// - `FILE apply STORE`: applies FILE to the store in the file STORE, and prints the report, as `report_text`.
///   `--data C`, `--notfound C`, `--conflict C` and `--constraint C` set the choice for each kind of conflict: `omit`,
///   `replace` or `abort` (default). With `--ignore-noop` an entry that would change nothing is ignored.
/// - `FILE invert OUT`: writes the inverse of FILE into OUT.
/// - `FILE concat FILE2 OUT`: writes the concatenation of FILE and FILE2 into OUT.
/// - `FILE dump` and `FILE sql`: print FILE.
/// - `--help`: prints the usage text.
///
/// A file has at most 1073741824 bytes. OUT is replaced once all of its bytes are made, so it can be one of the inputs.
///
/// Errors of a command, and the usage text for words that fit no command, are written to `err`. Then OUT is unchanged
/// if it is a plain file or does not exist. Errors of the lines of a script are written to `out`. If the report of an
/// apply cannot be written, the command fails, but FILE is applied.
pub fn run_words<R: Read, W: Write, E: Write>(
    rt: &HostRuntime,
    words: &[String],
    input: &mut Told<R>,
    out: &mut Told<W>,
    err: &mut Told<E>,
) -> u8
    ensures status { result ≤ 2 }
    ensures script { asked (map string_bytes words.now) ≡ Some (Shell in_memory) →
        RunsInMemory R.remaining W.contents E.contents result input.old input.new out.old out.new err.old err.new }
    ensures command { (action : Asked) → asked (map string_bytes words.now) ≡ Some action → IsCommand action →
        CarriesOut W.contents E.contents None None out.old out.new err.old err.new result action }
    ensures scripts { (file : _) → asked (map string_bytes words.now) ≡ Some (Shell file) → file ≢ in_memory →
        Scripts R.remaining W.contents E.contents None None file result input.old input.new out.old out.new err.old
        err.new }
    ensures misfit { result ≡ 2 → Refuses (map string_bytes words.now) fault.Usage }
    ensures usage { result ≡ 2 → has_failed err.new ≡ false →
        Appends (known E.contents err.old) (known E.contents err.new) USAGE.now }
    ensures unprinted { result ≡ 2 → out.new ≡ out.old }
    ensures unasked { asked (map string_bytes words.now) ≡ None →
        EndsUnasked W.contents E.contents USAGE.now (map string_bytes words.now) result out.old out.new
        err.old err.new }
    ensures unread { asked (map string_bytes words.now) ≡ None → input.new ≡ input.old }
    ensures commands { (action : Asked) → asked (map string_bytes words.now) ≡ Some action → IsCommand action →
        input.new ≡ input.old }
{
    run_words_in(rt.alloc(), &mut HostFolder::new(rt), words, input, out, err)
}

/// Carries out the words of a command line as [`run_words`] does, on the files of a folder, which can be stores.
pub fn run_words_in<F: StoreFolder, R: Read, W: Write, E: Write>(
    alloc: Global,
    folder: &mut F,
    words: &[String],
    input: &mut Told<R>,
    out: &mut Told<W>,
    err: &mut Told<E>,
) -> u8
    ensures status { result ≤ 2 }
    ensures script { asked (map string_bytes words.now) ≡ Some (Shell in_memory) →
        RunsInMemory R.remaining W.contents E.contents result input.old input.new out.old out.new err.old err.new }
    ensures command { (action : Asked) → asked (map string_bytes words.now) ≡ Some action → IsCommand action →
        CarriesOut W.contents E.contents (F.Folder.files folder.old) (F.Folder.files folder.new) out.old out.new
        err.old err.new result action }
    ensures misfit { result ≡ 2 → Refuses (map string_bytes words.now) fault.Usage }
    ensures usage { result ≡ 2 → has_failed err.new ≡ false →
        Appends (known E.contents err.old) (known E.contents err.new) USAGE.now }
    ensures unprinted { result ≡ 2 → out.new ≡ out.old }
    ensures unasked { asked (map string_bytes words.now) ≡ None →
        EndsUnasked W.contents E.contents USAGE.now (map string_bytes words.now) result out.old out.new
        err.old err.new }
    ensures unread { asked (map string_bytes words.now) ≡ None → input.new ≡ input.old }
    ensures commands { (action : Asked) → asked (map string_bytes words.now) ≡ Some action → IsCommand action →
        input.new ≡ input.old }
    ensures scripts { (file : _) → asked (map string_bytes words.now) ≡ Some (Shell file) → file ≢ in_memory →
        Scripts R.remaining W.contents E.contents (F.Folder.files folder.old) (F.Folder.files folder.new) file result
        input.old input.new out.old out.new err.old err.new }
    ensures kept { asked (map string_bytes words.now) ≡ Some (Shell in_memory) →
        F.Folder.files folder.new ≡ F.Folder.files folder.old }
    ensures untouched { asked (map string_bytes words.now) ≡ None →
        F.Folder.files folder.new ≡ F.Folder.files folder.old }
{
    match parse_words(alloc, words) {
        Ok(action) => run_action(alloc, folder, action, input, out, err),
        Err(WordsFault::Help) => print_help(out, err),
        Err(WordsFault::Usage) => print_usage(err),
        Err(WordsFault::NoMemory) => {
            report(err, &Refusal::NoMemory);
            1
        }
    }
}
