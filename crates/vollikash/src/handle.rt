//! A pointer that C keeps.
ghost use Rattle.std.specs.Prelude.{◌≡◌, Option, None, Some, IsSome, is_none};
ghost use Rattle.vollikash.specs.declared.held.Held.{Held as HeldView};
ghost use Rattle.vollikash.specs.Owned.{held_at, held_code};

mod lent;

use crate::held::Held;
use std::alloc::Global;
use std::marker::Model;
use std::mem::replace;

/// What C points to, and does not look into.
#[repr(C)]
pub struct Opaque {
    unused: u8,
}

/// C's `struct vollikash_group` and `struct vollikash_store`: a pointer to what C keeps, or null if it keeps nothing.
#[repr(C)]
#[derive(Drop)]
pub struct Handle {
    pub(crate) at: *mut Opaque,
    ghost value: { Option HeldView } by { held_code },
}

impl Model for Handle {
    ghost also_owns = { λ h. held_at h.value h.at };
}

impl Handle {
    /// Returns a handle that is null.
    pub(crate) fn none() -> Handle
        ensures { result.value ≡ None }
    {
        Handle {
            at: std::ptr::null_mut(),
        }
    }

    /// Returns a handle that points to what C keeps.
    pub(crate) fn of(held: Box<Held>) -> Handle
        ensures { result.value ≡ Some held.value }
    {
        Handle {
            at: Box::into_raw(held) as *mut Opaque,
        }
    }

    /// Returns what a handle points to.
    pub(crate) fn into_box(self, alloc: Global) -> Box<Held>
        requires { IsSome self.value }
        ensures { Some result.value ≡ self.value }
    {
        unsafe { Box::from_raw(alloc, self.at as *mut Held) }
    }

    /// Frees what a handle points to. It is null then.
    pub(crate) fn free(&mut self, alloc: Global)
        ensures { self.new.value ≡ None }
    {
        if !self.is_null() {
            drop(replace(self, Handle::none()).into_box(alloc));
        }
    }

    /// Returns whether a handle is null.
    pub(crate) fn is_null(&mut self) -> bool
        ensures null { result ≡ is_none self.old.value }
        ensures same { self.new ≡ self.old }
    {
        self.at == std::ptr::null_mut()
    }
}
