//! A changeset's file, one item after another.
ghost use Rattle.std.specs.Prelude.{◌≡◌, ◌<◌, ◌≤◌, [], length, IfErr, IfOk, IfSome, List, Ok, None};
ghost use Rattle.cs_value.specs.Refusals.{Refuses};
ghost use Rattle.cs_wire_entries.specs.Changeset.{GroupData};
ghost use Rattle.cs_wire_entries.specs.ReadFaults.{ReadFails};

use crate::ending::{Ending, ending_of};
use crate::item::Item;
use crate::walk::Walk;
use cs_wire_entries::ReadError;
use std::alloc::Global;
use std::marker::Model;

/// An iterator over the tables and entries of a file, which borrow from it. It keeps the names of the tables, and the
/// keys of the open table. Both borrow from the file, but a key whose columns are not adjacent is copied. Contracts see
/// the file, the byte offset after the last item, and how the cursor ended, if it did.
#[derive(Debug, Drop)]
pub struct Cursor<'a> {
    walk: Walk<'a>,
    over: Option<Ending>,
}

impl<'a> Model for Cursor<'a> {
    ghost use Rattle.cs_wire.specs.Cursor.{CursorData, IsEnd};

    ghost Value = { CursorData };

    ghost view = { λ c. record { file = c.walk.file; place = c.walk.place; over = c.over } };

    ghost invariant = { λ c. IsEnd c.walk.file c.walk.place c.over };
}

impl<'a> Cursor<'a> {
    ghost use Rattle.cs_wire.specs.Cursor.{Begins, IsItem, IsNext, answer_of, ending_of as ending_in, with_item};
    ghost use Rattle.cs_wire_entries.specs.Changeset.{IsFileOf};

    /// Returns a cursor before the first item of a file. It allocates nothing.
    pub fn new(alloc: Global, file: &'a [u8]) -> Cursor<'a>
        ensures before { result ≡ record { file = file.now; place = 0; over = None } }
        ensures begins { Begins file.now 0 [] }
    {
        Cursor {
            walk: Walk::new(alloc, file),
            over: None,
        }
    }

    /// Returns the next item, or None at the end of a changeset's file. The file begins with the items that were
    /// returned: tables, each with its entries. The last table may have none yet. After None, a fault or `NoMemory`,
    /// each further call returns the same.
    ///
    /// # Errors
    ///
    /// `Fault` if the file is not the file of a changeset: the first fault, in the order of the file. The items before
    /// it are returned first. `NoMemory` if memory runs out.
    pub fn next(&mut self) -> Result<Option<Item<'a>>, ReadError>
        ensures file { self.new.file ≡ self.old.file }
        ensures item { (groups : List GroupData) → Begins self.old.file self.old.place groups →
            IfOk result (λ next. IfSome next (λ item. IsNext groups item
            × Begins self.new.file self.new.place (with_item groups item))) }
        ensures well_formed { IfOk result (λ next. IfSome next IsItem) }
        ensures forward { IfOk result (λ next. IfSome next (λ _. (self.old.place < self.new.place)
            × (self.new.place ≤ length self.new.file))) }
        ensures end { (groups : List GroupData) → Begins self.old.file self.old.place groups →
            result ≡ Ok None → IsFileOf self.new.file groups }
        ensures fault { IfErr result (Refuses (λ f. ReadFails self.old.file f.kind f.place)) }
        ensures over { self.new.over ≡ ending_in result }
        ensures again { IfSome self.old.over (λ ending. (result ≡ answer_of ending) × (self.new ≡ self.old)) }
    {
        if let Some(ending) = self.over {
            return ending.answer();
        }
        let next = self.walk.advance();
        self.over = ending_of(&next);
        next
    }
}
