//! Sets of texts.
ghost use Rattle.std.specs.Prelude.{◌≡◌, ◌≢◌, ◌↔◌, ℕ, List, [], All, get_or, IfOk, IsTrue, OnOk, OnErr};
ghost use Rattle.std.specs.Cow.{cow_slice_items};
ghost use Rattle.cs_wire.specs.Seen as seen;

use cs_value::NoMemory;
use std::alloc::Global;
use std::borrow::CowSlice;
use std::collections::BTreeSet;
use std::marker::Model;

/// A text, and the word of its first bytes, by which most texts are compared.
#[derive(Debug, PartialEq, Eq, PartialOrd, Ord, Drop)]
struct Text<'a> {
    word: u64,
    bytes: CowSlice<'a, u8, Global>,
}

/// A set of texts, which are lists of bytes. Contracts see the list of them. They are ordered by
/// their words, and by their bytes where these are equal, so that mostly two numbers are compared and
/// no text is read. Adding one takes time proportional to the logarithm of their count, and to its
/// length where others have its word.
#[derive(Debug, Drop)]
pub(crate) struct Seen<'a> {
    texts: BTreeSet<Text<'a>>,
}

impl<'a> Model for Seen<'a> {
    ghost use Rattle.std.specs.Prelude.{◌≡◌, ℕ, List, All, map};
    ghost use Rattle.std.specs.Cow.{cow_slice_items};
    ghost use Rattle.cs_wire.specs.Seen.{word_of};

    ghost Value = { List (List ℕ) };

    ghost view = { λ s. map (λ t. cow_slice_items t.bytes) s.texts.keys };

    ghost invariant = { λ s. All (λ t. t.word ≡ word_of (cow_slice_items t.bytes)) s.texts.keys };
}

impl<'a> Seen<'a> {
    /// Returns the empty set.
    pub(crate) fn new(alloc: Global) -> Seen<'a>
        ensures { result ≡ [] }
    {
        Seen {
            texts: BTreeSet::new(alloc),
        }
    }

    /// Adds a text, and returns whether it is new. [`NoMemory`] leaves the set unchanged.
    pub(crate) fn insert(&mut self, text: CowSlice<'a, u8, Global>) -> Result<bool, NoMemory>
        ensures is_new { IfOk result (λ is_new. IsTrue is_new ↔ All (λ t. t ≢ cow_slice_items text.entry) self.old) }
        ensures added { OnOk result ((t : List ℕ) → All (λ s. s ≢ t) self.new ↔ ((cow_slice_items text.entry ≢ t) × All (λ s. s ≢ t) self.old)) }
        ensures err { OnErr result (self.new ≡ self.old) }
    {
        let word = word_of(text.as_slice());
        let is_new = self.texts.insert(Text { word, bytes: text })?;
        Ok(is_new)
    }

    /// Removes all texts.
    pub(crate) fn clear(&mut self)
        ensures { self.new ≡ [] }
    {
        self.texts.clear();
    }
}

/// Returns the eight bytes after the first of a text, as a big-endian number. A missing byte counts as 0.
pub fn word_of(text: &[u8]) -> u64
    ensures { result ≡ seen.word_of text.now }
{
    match text {
        [_, a, b, c, d, e, f, g, h, ..] => u64::from_be_bytes([*a, *b, *c, *d, *e, *f, *g, *h]),
        _ => short_word(text),
    }
}

/// Returns the number of [`word_of`], read byte by byte.
fn short_word(text: &[u8]) -> u64
    ensures { result ≡ seen.word_of text.now }
{
    u64::from_be_bytes([
        byte_at(text, 1),
        byte_at(text, 2),
        byte_at(text, 3),
        byte_at(text, 4),
        byte_at(text, 5),
        byte_at(text, 6),
        byte_at(text, 7),
        byte_at(text, 8),
    ])
}

/// Returns a byte of a text, or 0 after its end.
fn byte_at(text: &[u8], index: usize) -> u8
    ensures { result ≡ get_or text.now index 0 }
{
    if index < text.len() { text[index] } else { 0 }
}
