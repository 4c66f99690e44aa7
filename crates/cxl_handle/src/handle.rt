//! What a program keeps of a session.

ghost use Rattle.std.specs.Prelude.{◌≡◌, Option, Some, None};
ghost use Rattle.std.specs.Option.{MatchOption};
ghost use Rattle.std.specs.Coded.{coded_option};
ghost use Rattle.cxl_held.specs.declared.held.Held.{Held};
ghost use Rattle.cxl_held.specs.contracts.held.Held.{the_row};
ghost use Rattle.cxl_held.specs.Sessions.{IsKept};

use crate::raw_box::RawBox;
use cxl_held::Held;
use std::alloc::Global;
use std::marker::Model;

/// The status where there is no session, or one already where one is to be opened: that of words which are no command.
pub(crate) const MISUSED: u8 = 1;

/// The address of a session, or null where there is none: for C a struct of one pointer, which begins null. The session goes with it,
/// also to another thread, and is closed where it is dropped.
#[repr(C)]
pub struct SessionHandle {
    at: *mut u8,
    alloc: Global,
    ghost held: { Option Held } by { coded_option the_row.coded },
}

impl Model for SessionHandle {
    ghost use Rattle.std.specs.Prelude.{Option, Some, None};
    ghost use Rattle.std.specs.Coded.{coded_option};
    ghost use Rattle.cxl_held.specs.declared.held.Held.{Held};
    ghost use Rattle.cxl_held.specs.contracts.held.Held.{the_row};
    ghost use Rattle.cxl_held.specs.Sessions.{IsKept};
    ghost use Rattle.cxl_handle.specs.Owned.{owned_at};

    ghost also_owns = { λ h. owned_at the_row IsKept h.alloc h.at h.held };
}

impl SessionHandle {
    /// Of no session. Takes no memory.
    pub fn empty(alloc: Global) -> SessionHandle
        ensures { result.held ≡ None }
    {
        SessionHandle {
            at: std::ptr::null_mut(),
            alloc,
        }
    }

    /// Of the session of a box.
    fn of(raw: RawBox<Held, Global>) -> SessionHandle
        requires { IsKept raw.value }
        ensures { result.held ≡ Some raw.value }
    {
        let RawBox { at, alloc } = raw;
        SessionHandle {
            at: at as *mut u8,
            alloc,
        }
    }

    /// The box of its session, if it has one.
    fn into_raw(self) -> Option<RawBox<Held, Global>>
        ensures { MatchOption result (self.held ≡ None) (λ raw. (self.held ≡ Some raw.value) × IsKept raw.value) }
    {
        let SessionHandle { at, alloc } = self;
        let at = at as *mut Held;
        if at.is_null() {
            None
        } else {
            Some(RawBox { at, alloc })
        }
    }

    /// Its session, if it has one, which leaves it with none.
    pub(crate) fn take(&mut self, alloc: Global) -> Option<Box<Held>>
        ensures taken { MatchOption result (self.old.held ≡ None) (λ held. (self.old.held ≡ Some held.value) × IsKept held.value) }
        ensures empty { self.new.held ≡ None }
    {
        match std::mem::replace(self, SessionHandle::empty(alloc)).into_raw() {
            Some(raw) => Some(raw.into_box()),
            None => None,
        }
    }

    /// Keeps a session. One that it had is closed.
    pub(crate) fn put(&mut self, held: Box<Held>)
        requires { IsKept held.value }
        ensures { self.new.held ≡ Some held.value }
    {
        *self = SessionHandle::of(RawBox::of(held));
    }

    /// Closes its session, if it has one.
    pub fn close(&mut self, alloc: Global)
        ensures { self.new.held ≡ None }
    {
        drop(self.take(alloc));
    }
}

impl Drop for SessionHandle {
    fn drop(self) {
        if let Some(raw) = self.into_raw() {
            drop(raw.into_box());
        }
    }
}

unsafe impl Send for SessionHandle {}
