//! An entry of a table, and where its bytes are.
ghost use Rattle.std.specs.Prelude.{◌≡◌, ◌<◌, List, ℕ, length};
ghost use Rattle.cs_changegroup.specs.Slots.{IsTextAt};

use cs_file_scan::part;

/// Where the bytes of an entry are.
#[derive(Debug, Drop)]
pub(crate) enum Text {
    /// Between two byte offsets of the files.
    Within { start: usize, end: usize },
    /// In a buffer of their own.
    Own(Vec<u8>),
}

/// An entry that a table has, or had. It has those that are live.
#[derive(Debug, Drop)]
pub(crate) struct Slot {
    pub(crate) text: Text,
    pub(crate) live: bool,
}

impl Slot {
    /// Returns the bytes of the entry.
    pub(crate) fn bytes<'a>(&'a self, files: &'a [u8]) -> &'a [u8]
        ensures { (text : List ℕ) → IsTextAt files.now self.now.text text → 0 < length text → result.now ≡ text }
    {
        match &self.text {
            Text::Within { start, end } => part(files, *start, *end),
            Text::Own(bytes) => bytes,
        }
    }
}
