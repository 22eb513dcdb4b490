//! A `&mut` to what a handle points to.
ghost use Rattle.std.specs.Prelude.{◌≡◌, Some, IsSome};
ghost use types.Logic.{sem};
ghost use Rattle.vollikash.specs.Follows.{handle_follows};

use crate::handle::Handle;
use crate::held::Held;

impl Handle {
    pub(crate) fn as_mut(&mut self) -> &mut Held
        requires { IsSome self.old.value }
        ensures* writes_back { sem 𝓛 (handle_follows self.entry result) }
        ensures value { Some result.now ≡ self.old.value }
    {
        unsafe { &mut *(self.at as *mut Held) }
    }
}
