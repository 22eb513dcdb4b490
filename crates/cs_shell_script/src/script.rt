//! Scripts: lines are read and answered, and the replies are printed.
ghost use Rattle.std.specs.Prelude.{◌≡◌, ◌<◌, ◌≤◌, ◌∷◌, [], ℕ, List, if◌then◌else◌, length, IsTrue};
ghost use Rattle.std.specs.Prelude.{IfOk, IfErr, OnOk, OnErr};
ghost use Rattle.std.specs.Io.KnownBytes.{Consumes, IsAtEnd, Keeps};
ghost use Rattle.cs_shell_replies.specs.declared.refusal.Refusal.TheVariants as refusal;
ghost use Rattle.cs_shell_script.specs.declared.script.Status.TheVariants.{Done as EndsDone, LinesRefused as EndsRefused};
ghost use Rattle.cs_shell_script.specs.declared.script.Interruption.TheVariants.{Output};
ghost use Rattle.cs_files.specs.Told.{has_failed, known};
ghost use Rattle.cs_shell_replies.specs.Replies.{Reply as ReplyData, Refused, answer_of};
ghost use Rattle.cs_shell_script.specs.Runs.{Runs};
ghost use Rattle.cs_shell_script.specs.Progress.{Holds, IsFresh, running, EndsLine, Advances, Breaks, Finishes};
ghost use Rattle.cs_shell_script.specs.Progress.{Unfinished, ReadsText, status_of};

use crate::reader::LineReader;
use cs_files::{OutputFault, Told};
use cs_shell_replies::{Refusal, Reply, write_answer, write_refusal};
use std::alloc::Global;
use std::io::{Read, Write};

/// What answers the lines of a script.
pub(crate) trait Interpreter {
    // What a line is answered, and what it makes of the interpreter.
    ghost gives: { Self → List ℕ → ReplyData → Self → Type 0 };

    // Any line may be refused because memory runs out. Then the interpreter is unchanged.
    ghost loses: { (interpreter : Self) (line : List ℕ) → gives interpreter line (Refused refusal.NoMemory) interpreter };

    /// Carries out a line, and returns the reply.
    fn answer(&mut self, alloc: Global, line: &[u8]) -> Result<Reply, Refusal>
        ensures { gives self.old line.now (answer_of result) self.new };
}

/// How a script ended.
#[derive(Clone, Copy, Debug, PartialEq, Eq)]
pub enum Status {
    /// Each line was read, and none was refused.
    Done,
    /// Each line was read, and some were refused.
    LinesRefused,
    /// The script has more than 16777216 bytes.
    TooLong,
    /// A read failed.
    InputFault,
    /// A write failed, or took no byte.
    OutputFault,
}

/// Why a script is not run to its end.
#[derive(Clone, Copy)]
enum Interruption {
    /// It has more than `SCRIPT_LIMIT` bytes.
    TooLong,
    /// A read failed.
    Input,
    /// A write failed, or took no byte.
    Output,
}

impl From<OutputFault> for Interruption {
    ghost from_gives = { λ _ stop. stop ≡ Output };

    fn from(_fault: OutputFault) -> Interruption {
        Interruption::Output
    }
}

/// The largest size of a script in bytes.
const SCRIPT_LIMIT: usize = 16_777_216;

/// The number of bytes that are read at once.
const CHUNK_LEN: usize = 4096;

/// Reads the next bytes into a chunk, up to a number. There are none only at the end.
fn next_piece<'a, R: Read>(
    input: &mut Told<R>,
    chunk: &'a mut [u8],
    most: usize,
) -> Result<&'a [u8], Interruption>
    requires { most ≤ length chunk.now }
    ensures piece { IfOk result (λ piece.
        Consumes (known R.remaining input.old) (known R.remaining input.new) piece.now) }
    ensures short { IfOk result (λ piece. length piece.now ≤ most) }
    ensures end { IfOk result (λ piece. length piece.now ≡ 0 → 0 < most →
        IsAtEnd (known R.remaining input.new)) }
    ensures err { IfErr result (λ stop. stop ≡ Interruption.Input) }
    ensures kept { OnErr result (Keeps (known R.remaining input.old) (known R.remaining input.new)) }
    ensures flagged { OnErr result (IsTrue (has_failed input.new)) }
{
    match input.read(&mut chunk[..most]) {
        Ok(count) => Ok(&chunk[..count]),
        Err(_) => Err(Interruption::Input),
    }
}

/// A running script: the line that is being read, and what is known of the lines before.
#[derive(Drop)]
struct RunningScript {
    line: LineReader,
    /// Whether a line was refused.
    has_refused: bool,
}

impl RunningScript {
    /// Returns a script that is not read yet.
    fn new(alloc: Global) -> RunningScript
        ensures { IsFresh result }
    {
        RunningScript {
            line: LineReader::new(alloc),
            has_refused: false,
        }
    }

    /// Returns the interpreter's reply to the line.
    fn answer_line<M: Interpreter>(
        &self,
        alloc: Global,
        interpreter: &mut M,
    ) -> Result<Reply, Refusal>
        ensures { (line : List ℕ) → Holds self.now.line line →
            M.gives interpreter.old line (answer_of result) interpreter.new }
    {
        match self.line.bytes() {
            Some(line) => interpreter.answer(alloc, line),
            None => Err(Refusal::NoMemory),
        }
    }

    /// Has the interpreter answer the line, prints the reply and begins the next line.
    fn end_line<M: Interpreter, W: Write>(
        &mut self,
        alloc: Global,
        interpreter: &mut M,
        out: &mut Told<W>,
    ) -> Result<(), OutputFault>
        ensures { EndsLine W.contents M.gives (running interpreter.old self.old) (running interpreter.new self.new)
            result out.old out.new }
    {
        let answer = self.answer_line(alloc, interpreter);
        self.has_refused |= answer.is_err();
        self.line.restart();
        write_answer(out, &answer)
    }

    /// Takes a byte of the script. Runs the line if the byte ends it.
    fn take<M: Interpreter, W: Write>(
        &mut self,
        alloc: Global,
        interpreter: &mut M,
        byte: u8,
        out: &mut Told<W>,
    ) -> Result<(), OutputFault>
        ensures ok { OnOk result (Advances W.contents M.gives (running interpreter.old self.old)
            (running interpreter.new self.new) out.old out.new (byte ∷ [])) }
        ensures broken { OnErr result (Breaks W.contents M.gives (running interpreter.old self.old)
            (running interpreter.new self.new) out.old out.new (byte ∷ [])) }
        ensures flagged { OnErr result (IsTrue (has_failed out.new)) }
    {
        if byte == b'\n' {
            return self.end_line(alloc, interpreter, out);
        }
        self.line.add(alloc, byte);
        Ok(())
    }

    /// Takes bytes of the script, and runs each line that ends in them.
    fn take_all<M: Interpreter, W: Write>(
        &mut self,
        alloc: Global,
        interpreter: &mut M,
        bytes: &[u8],
        out: &mut Told<W>,
    ) -> Result<(), OutputFault>
        ensures ok { OnOk result (Advances W.contents M.gives (running interpreter.old self.old)
            (running interpreter.new self.new) out.old out.new bytes.now) }
        ensures broken { OnErr result (Breaks W.contents M.gives (running interpreter.old self.old)
            (running interpreter.new self.new) out.old out.new bytes.now) }
        ensures flagged { OnErr result (IsTrue (has_failed out.new)) }
    {
        for byte in bytes {
            self.take(alloc, interpreter, *byte, out)?;
        }
        Ok(())
    }

    /// Runs the last line, if it has a byte and no line feed.
    fn finish<M: Interpreter, W: Write>(
        &mut self,
        alloc: Global,
        interpreter: &mut M,
        out: &mut Told<W>,
    ) -> Result<(), OutputFault>
        ensures ok { OnOk result (Finishes W.contents M.gives (running interpreter.old self.old)
            (running interpreter.new self.new) out.old out.new) }
        ensures broken { OnErr result (Unfinished W.contents M.gives (running interpreter.old self.old)
            (running interpreter.new self.new) out.old out.new) }
        ensures flagged { OnErr result (IsTrue (has_failed out.new)) }
    {
        if self.line.has_begun() {
            return self.end_line(alloc, interpreter, out);
        }
        Ok(())
    }

    /// Reads the input, and runs each line that ends with a line feed. Stops if the script is too long, or a read or a
    /// write fails.
    fn take_input<M: Interpreter, R: Read, W: Write>(
        &mut self,
        alloc: Global,
        interpreter: &mut M,
        input: &mut Told<R>,
        out: &mut Told<W>,
    ) -> Result<(), Interruption>
        requires { IsFresh self.old }
        ensures ok { OnOk result (ReadsText R.remaining W.contents M.gives (running interpreter.old self.old)
            (running interpreter.new self.new) input.old input.new out.old out.new) }
        ensures stopped { IfErr result (λ stop. Runs R.remaining W.contents M.gives (status_of stop)
            interpreter.old interpreter.new input.old input.new out.old out.new) }
    {
        let mut chunk = [0; CHUNK_LEN];
        let mut count = 0;
        loop {
            let left = SCRIPT_LIMIT - count;
            let wanted = CHUNK_LEN.min(left + 1);
            let piece = next_piece(input, &mut chunk, wanted)?;
            if piece.is_empty() {
                return Ok(());
            }
            if piece.len() > left {
                self.take_all(alloc, interpreter, &piece[..left], out)?;
                write_refusal(out, &Refusal::ScriptTooLong)?;
                return Err(Interruption::TooLong);
            }
            self.take_all(alloc, interpreter, piece, out)?;
            count += piece.len();
        }
    }

    /// Runs all of the input.
    fn run<M: Interpreter, R: Read, W: Write>(
        &mut self,
        alloc: Global,
        interpreter: &mut M,
        input: &mut Told<R>,
        out: &mut Told<W>,
    ) -> Result<(), Interruption>
        requires { IsFresh self.old }
        ensures ok { OnOk result (Runs R.remaining W.contents M.gives
            (if self.new.has_refused then EndsRefused else EndsDone)
            interpreter.old interpreter.new input.old input.new out.old out.new) }
        ensures stopped { IfErr result (λ stop. Runs R.remaining W.contents M.gives (status_of stop)
            interpreter.old interpreter.new input.old input.new out.old out.new) }
    {
        self.take_input(alloc, interpreter, input, out)?;
        self.finish(alloc, interpreter, out)?;
        Ok(())
    }
}

/// Runs a script by an interpreter: reads its lines, answers them, and prints the replies. The lines that were read are
/// answered before more is read. A line is refused if memory runs out for it. After 16777216 bytes one byte more ends
/// the script: the lines that end before it are run, and an error line is printed. The script also ends if a read or a
/// write fails. What its lines did remains.
pub(crate) fn run_interpreter<M: Interpreter, R: Read, W: Write>(
    alloc: Global,
    interpreter: &mut M,
    input: &mut Told<R>,
    out: &mut Told<W>,
) -> Status
    ensures { Runs R.remaining W.contents M.gives result interpreter.old interpreter.new
        input.old input.new out.old out.new }
{
    let mut script = RunningScript::new(alloc);
    match script.run(alloc, interpreter, input, out) {
        Ok(()) if script.has_refused => Status::LinesRefused,
        Ok(()) => Status::Done,
        Err(Interruption::TooLong) => Status::TooLong,
        Err(Interruption::Input) => Status::InputFault,
        Err(Interruption::Output) => Status::OutputFault,
    }
}
