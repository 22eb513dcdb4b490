//! What a script has alongside its store.
ghost use Rattle.std.specs.Prelude.{◌≡◌, None};
ghost use Rattle.std.specs.FinMap as map;

use crate::slots::Slots;
use cs_session::Session;
use std::alloc::Global;

/// The slots of a script, and its session, if one is open.
#[derive(Drop)]
pub struct Workspace {
    pub slots: Slots,
    pub session: Option<Session>,
}

impl Workspace {
    /// Returns a workspace with no filled slot and no session.
    pub fn new(alloc: Global) -> Workspace
        ensures slots { result.slots ≡ map.empty }
        ensures session { result.session ≡ None }
    {
        Workspace {
            slots: Slots::new(alloc),
            session: None,
        }
    }
}
