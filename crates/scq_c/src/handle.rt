//! What C has of a port: a pointer that only this crate follows, or null.
ghost use Rattle.std.specs.Prelude.{◌≡◌, ◌≢◌, true, false, Some, None};
ghost use Rattle.std.specs.Coded.{coded_option};
ghost use Rattle.std.specs.Option.{MatchOption};
ghost use Rattle.std.specs.declared.option.Option.{Option};
ghost use Rattle.scq_port.specs.Exports.{PortStanding};
ghost use Rattle.scq_port.specs.contracts.port.Port.{the_row as port_row};
ghost use Rattle.scq_c.specs.Handles.{port_kept};

use crate::loose::Loose;
use scq_port::Port;
use std::alloc::Global;
use std::marker::Model;
use std::mem;
use std::ptr::null_mut;

/// A port, or null where it is closed. C begins with null.
#[repr(C)]
#[derive(Drop)]
pub struct Handle {
    at: *mut u8,
    pub ghost port: { Option PortStanding } by { coded_option port_row.coded },
}

impl Model for Handle {
    ghost also_owns = { λ h. port_kept h.at h.port };
}

// C may pass it to another thread, as its port may go.
unsafe impl Send for Handle {}

impl Handle {
    pub(crate) fn empty() -> Handle
        ensures { result.port ≡ None }
    {
        Handle { at: null_mut() }
    }

    pub(crate) fn of(port: Loose<Port, Global>) -> Handle
        ensures { result.port ≡ Some port.value }
    {
        let Loose { at, alloc: _ } = port;
        Handle { at: at as *mut u8 }
    }

    pub(crate) fn into_loose(self, alloc: Global) -> Option<Loose<Port, Global>>
        ensures { MatchOption result (self.port ≡ None) (λ l. self.port ≡ Some l.value) }
    {
        let Handle { at } = self;
        if at.is_null() {
            None
        } else {
            Some(Loose {
                at: at as *mut Port,
                alloc,
            })
        }
    }
}

/// Takes the port out of a handle, which is closed from then on.
#[inline(always)]
pub(crate) fn taken(handle: &mut Handle, alloc: Global) -> Option<Box<Port>>
    ensures taken { MatchOption result (handle.old.port ≡ None) (λ b.
        handle.old.port ≡ Some b.value) }
    ensures closed { handle.new.port ≡ None }
{
    match mem::replace(handle, Handle::empty()).into_loose(alloc) {
        Some(loose) => Some(loose.into_box()),
        None => None,
    }
}

/// Puts a port into a handle that is closed.
#[inline(always)]
pub(crate) fn put(handle: &mut Handle, port: Box<Port>)
    requires closed { handle.old.port ≡ None }
    ensures { handle.new.port ≡ Some port.value }
{
    *handle = Handle::of(Loose::of(port));
}

/// Whether a handle has a port.
pub(crate) fn is_open(handle: &mut Handle, alloc: Global) -> bool
    ensures same { handle.new.port ≡ handle.old.port }
    ensures open { (result ≡ true) → handle.old.port ≢ None }
    ensures closed { (result ≡ false) → handle.old.port ≡ None }
{
    match taken(handle, alloc) {
        Some(port) => {
            put(handle, port);
            true
        }
        None => false,
    }
}
