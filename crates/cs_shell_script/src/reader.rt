//! The line of a script that is being read.
ghost use Rattle.std.specs.Prelude.{◌≡◌, ◌↔◌, List, ℕ, IfSome, IsTrue};
ghost use Rattle.cs_shell_script.specs.Progress.{Adds, HasBegun, Holds, IsAtStart};

use std::alloc::Global;

/// The bytes of a line so far. If memory runs out, the line is lost, and its other bytes are skipped.
#[derive(Drop)]
pub(crate) struct LineReader {
    bytes: Vec<u8>,
    is_lost: bool,
}

impl LineReader {
    /// Returns a line that is not read yet.
    pub(crate) fn new(alloc: Global) -> LineReader
        ensures { IsAtStart result }
    {
        LineReader {
            bytes: Vec::new(alloc),
            is_lost: false,
        }
    }

    /// Appends a byte to the line. The line is lost if memory runs out.
    pub(crate) fn add(&mut self, alloc: Global, byte: u8)
        ensures { Adds self.old self.new byte }
    {
        if !self.is_lost && self.bytes.push(byte).is_err() {
            self.bytes = Vec::new(alloc);
            self.is_lost = true;
        }
    }

    /// Returns whether the line has a byte, even if it is lost.
    pub(crate) fn has_begun(&self) -> bool
        ensures { IsTrue result ↔ HasBegun self.now }
    {
        self.is_lost || !self.bytes.is_empty()
    }

    /// Returns the bytes of the line, unless it is lost.
    pub(crate) fn bytes(&self) -> Option<&[u8]>
        ensures { (line : List ℕ) → Holds self.now line → IfSome result (λ bytes. bytes.now ≡ line) }
    {
        if self.is_lost {
            return None;
        }
        Some(&self.bytes)
    }

    /// Begins the next line.
    pub(crate) fn restart(&mut self)
        ensures { IsAtStart self.new }
    {
        self.bytes.clear();
        self.is_lost = false;
    }
}
