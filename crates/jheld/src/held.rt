//! A mount behind a pointer.

ghost use Rattle.std.specs.Prelude.{◌≡◌, true, false, Some, None, option_map, if◌then◌else◌};
ghost use Rattle.jmount.specs.Codes.{mount_code};
ghost use Rattle.jmount.specs.Mount.{Mount};
ghost use Rattle.jheld.specs.Owned.{held_owns};

use crate::loose::Loose;
use jmount::Mounted;
use std::alloc::Global;
use std::marker::Model;

/// A mount that is kept behind a pointer, or none.
#[repr(C)]
#[derive(Drop)]
pub struct Handle {
    pub(crate) at: *mut u8,
    pub is_open: bool,
    pub ghost value: { Mount } by { mount_code },
}

impl Model for Handle {
    ghost also_owns = { λ h. held_owns h.at h.is_open h.value };
}

impl Handle {
    /// One without a mount.
    pub fn closed() -> Handle
        ensures { result.is_open ≡ false }
    {
        Handle {
            at: std::ptr::null_mut(),
            is_open: false,
        }
    }

    fn of_loose(loose: Loose<Mounted<'static>, Global>) -> Handle
        ensures { (result.is_open ≡ true) × (result.value ≡ loose.entry.value) }
    {
        let Loose { at, alloc: _ } = loose;
        Handle {
            at: at as *mut u8,
            is_open: true,
        }
    }

    fn into_loose(self, alloc: Global) -> Option<Loose<Mounted<'static>, Global>>
        ensures { option_map (λ loose. loose.value) result
            ≡ (if self.is_open then Some self.value else None) }
    {
        let Handle { at, is_open } = self;
        if is_open {
            Some(Loose {
                at: at as *mut Mounted<'static>,
                alloc,
            })
        } else {
            None
        }
    }

    /// Keeps a mount.
    pub fn of(mounted: Box<Mounted<'static>>) -> Handle
        ensures opens { result.is_open ≡ true }
        ensures value { result.value ≡ mounted.entry.value }
    {
        Handle::of_loose(Loose::of(mounted))
    }

    /// The mount, if it has one.
    pub fn into_box(self, alloc: Global) -> Option<Box<Mounted<'static>>>
        ensures { option_map (λ mounted. mounted.value) result
            ≡ (if self.is_open then Some self.value else None) }
    {
        match self.into_loose(alloc) {
            Some(loose) => Some(loose.into_box()),
            None => None,
        }
    }
}
