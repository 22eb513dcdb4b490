//! How a cursor ends.
ghost use Rattle.std.specs.Prelude.{◌≡◌};
ghost use Rattle.cs_wire.specs.Cursor.{answer_of, ending_of as ending_of_answer};

use crate::item::Item;
use cs_wire_entries::{ReadError, ReadFault};

/// Why a cursor has no next item.
#[derive(Clone, Copy, Debug)]
pub enum Ending {
    /// The file is at its end.
    Done,
    /// The file is not the file of a changeset.
    Fault(ReadFault),
    /// Memory runs out.
    NoMemory,
}

impl Ending {
    /// Returns what a cursor returns that ended so.
    pub(crate) fn answer<'a>(self) -> Result<Option<Item<'a>>, ReadError>
        ensures { result ≡ answer_of self }
    {
        match self {
            Ending::Done => Ok(None),
            Ending::Fault(fault) => Err(ReadError::Fault(fault)),
            Ending::NoMemory => Err(ReadError::NoMemory),
        }
    }
}

/// Returns how a cursor ends with a result, if it does.
pub(crate) fn ending_of(answer: &Result<Option<Item<'_>>, ReadError>) -> Option<Ending>
    ensures { result ≡ ending_of_answer answer.now }
{
    match answer {
        Ok(Some(_)) => None,
        Ok(None) => Some(Ending::Done),
        Err(ReadError::Fault(fault)) => Some(Ending::Fault(*fault)),
        Err(ReadError::NoMemory) => Some(Ending::NoMemory),
    }
}
