//! Handlers that go by the kind of a conflict.
ghost use Rattle.std.specs.Prelude.{◌≡◌};
ghost use Rattle.cs_apply_engine.specs.Report.{chosen};

use crate::conflict::Conflict;
use cs_apply_conflict_kinds::{Choice, Kind};

/// A choice for each kind of conflict.
#[derive(Clone, Copy, Debug, PartialEq, Eq)]
pub struct Policy {
    pub on_data: Choice,
    pub on_notfound: Choice,
    pub on_conflict: Choice,
    pub on_constraint: Choice,
}

impl Policy {
    /// Returns the choice for the kind of a conflict. It takes no memory.
    pub fn choose(&self, conflict: &Conflict) -> Choice
        ensures { result ≡ chosen self.now conflict.now.kind }
    {
        match conflict.kind {
            Kind::Data => self.on_data,
            Kind::NotFound => self.on_notfound,
            Kind::Conflict => self.on_conflict,
            Kind::Constraint => self.on_constraint,
        }
    }
}
