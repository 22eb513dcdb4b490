//! A prompt for lines that are typed on a terminal.
ghost use Rattle.std.specs.Prelude.{◌≡◌, false};

use std::io;
use std::io::{IsTerminal, Read, Write};
use std::rt::HostRuntime;

/// The line before the first prompt.
const BANNER: &[u8] = b"changeset: one line is one command, Ctrl-D ends the script\n";

const PROMPT: &[u8] = b"changeset> ";

/// Returns whether a person types the lines and sees the prompts: standard input and standard error are terminals.
pub(crate) fn is_typed(rt: &HostRuntime) -> bool {
    rt.stdin().is_terminal() && rt.stderr().is_terminal()
}

/// A reader that writes a prompt before each read, and the banner before the first one, if the lines are typed. A
/// prompt that cannot be written is left out.
#[derive(Drop)]
pub(crate) struct Prompted<R, W> {
    input: R,
    screen: W,
    is_typed: bool,
    has_begun: bool,
}

impl<R: Read, W: Write> Prompted<R, W> {
    pub(crate) fn new(input: R, screen: W, is_typed: bool) -> Prompted<R, W> {
        Prompted {
            input,
            screen,
            is_typed,
            has_begun: false,
        }
    }

    /// Writes the prompt.
    fn write_prompt(&mut self) -> io::Result<()>
        ensures { self.new.input ≡ self.old.input }
    {
        if !self.has_begun {
            self.has_begun = true;
            self.screen.write_all(BANNER)?;
        }
        self.screen.write_all(PROMPT)?;
        self.screen.flush()
    }

    /// Writes the prompt, if the lines are typed.
    fn before_read(&mut self)
        ensures input { self.new.input ≡ self.old.input }
        ensures untyped { self.old.is_typed ≡ false → self.new ≡ self.old }
    {
        if self.is_typed {
            let _ = self.write_prompt();
        }
    }

    /// Ends the line of the last prompt, if the lines are typed and this is their end.
    fn after_read(&mut self, read: &io::Result<usize>)
        ensures input { self.new.input ≡ self.old.input }
        ensures untyped { self.old.is_typed ≡ false → self.new ≡ self.old }
    {
        if self.is_typed && matches!(read, Ok(0)) {
            let _ = self.screen.write_all(b"\n");
        }
    }
}

impl<R: Read, W: Write> Read for Prompted<R, W> {
    ghost remaining = { λ it. R.remaining it.input };

    fn read(&mut self, buf: &mut [u8]) -> io::Result<usize> {
        self.before_read();
        let result = self.input.read(buf);
        self.after_read(&result);
        result
    }
}
