//! A buffer for text that is to be written.
ghost use Rattle.std.specs.Prelude.{◌≡◌, ◌+◌, ◌<◌, ◌≤◌, ◌++◌, [], length, OnOk};
ghost use Rattle.std.specs.List.{flat_map};
ghost use Rattle.cs_file_texts.specs.Calls.{Writes};
ghost use Rattle.cs_file_texts.specs.Gathering.{Gathers};

use crate::fault::OutputFault;
use crate::told::{Told, write_whole};
use std::io::Write;
use std::marker::Model;

/// The size of the buffer in bytes.
const ROOM_LEN: usize = 4096;

/// A buffer of some thousands of bytes that are still to be written. Contracts see it as a list. It allocates nothing.
#[derive(Drop)]
pub struct Gather {
    bytes: [u8; ROOM_LEN],
    count: usize,
}

impl Model for Gather {
    ghost use Rattle.std.specs.Prelude.{ℕ, List, take, ◌≤◌};

    ghost Value = { List ℕ };

    ghost view = { λ g. take g.count g.bytes };

    ghost invariant = { λ g. g.count ≤ 4096 };
}

impl Gather {
    /// Returns an empty buffer.
    pub fn new() -> Gather
        ensures { result ≡ [] }
    {
        Gather {
            bytes: [0; ROOM_LEN],
            count: 0,
        }
    }

    /// Writes the buffered bytes, and empties the buffer.
    ///
    /// # Errors
    ///
    /// [`OutputFault`] if a write fails or accepts no byte. Then a prefix of the buffered bytes is written, and the
    /// flag of `out` is set.
    pub fn flush<W: Write>(&mut self, out: &mut Told<W>) -> Result<(), OutputFault>
        ensures written { Writes W.contents result out.old out.new self.old }
        ensures emptied { self.new ≡ [] }
    {
        let written = write_whole(out, &self.bytes[..self.count]);
        self.count = 0;
        written
    }

    /// Makes room for this many bytes: writes the buffered bytes, unless there is room.
    fn make_room<W: Write>(&mut self, out: &mut Told<W>, len: usize) -> Result<(), OutputFault>
        ensures gathered { Gathers W.contents result self.old self.new out.old out.new [] }
        ensures room { OnOk result (len ≤ ROOM_LEN → length self.new + len ≤ ROOM_LEN) }
        ensures emptied { OnOk result (ROOM_LEN < len → self.new ≡ []) }
    {
        if len <= ROOM_LEN - self.count {
            return Ok(());
        }
        self.flush(out)
    }

    /// Appends a piece that fits into the buffer.
    fn push(&mut self, piece: &[u8])
        requires { length self.old + length piece.now ≤ ROOM_LEN }
        ensures { self.new ≡ self.old ++ piece.now }
    {
        let end = self.count + piece.len();
        self.bytes[self.count..end].copy_from_slice(piece);
        self.count = end;
    }

    /// Appends a piece. Writes the buffered bytes first if it does not fit.
    pub(crate) fn add<W: Write>(
        &mut self,
        out: &mut Told<W>,
        piece: &[u8],
    ) -> Result<(), OutputFault>
        ensures { Gathers W.contents result self.old self.new out.old out.new piece.now }
    {
        self.make_room(out, piece.len())?;
        if piece.len() > ROOM_LEN {
            return write_whole(out, piece);
        }
        self.push(piece);
        Ok(())
    }

    /// Appends pieces in their order.
    pub(crate) fn add_all<W: Write>(
        &mut self,
        out: &mut Told<W>,
        pieces: &[&[u8]],
    ) -> Result<(), OutputFault>
        ensures { Gathers W.contents result self.old self.new out.old out.new
            (flat_map (λ piece. piece.now) pieces.now) }
    {
        for piece in pieces {
            self.add(out, piece)?;
        }
        Ok(())
    }
}
