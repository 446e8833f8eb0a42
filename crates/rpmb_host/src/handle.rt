//! The machine that a monitor holds between its calls.
ghost use Rattle.std.specs.Prelude.{◌≡◌, Option, None, Some, true, is_some};
ghost use Rattle.machine.specs.Machine.{MachineState};
ghost use Rattle.machine.specs.contracts.machine.Machine.{the_row};
ghost use Rattle.rpmb_host.specs.Held.{held};

use machine::Machine;
use std::alloc::Global;
use std::marker::Model;
use std::mem;

/// A machine that a monitor holds, or none. To C it is one pointer, which is null where there is
/// none, and which C neither follows nor copies.
///
/// A drop of it leaves the machine where it is: `rpmb_close` takes it out first.
#[repr(C)]
#[derive(Drop)]
pub struct Handle {
    at: *mut u8,
    pub ghost value: { Option MachineState },
}

impl Model for Handle {
    ghost also_owns = { λ h. held the_row h.at h.value };
}

impl Handle {
    fn none() -> Handle
        ensures { result.value ≡ None }
    {
        Handle {
            at: std::ptr::null_mut(),
        }
    }

    fn of(machine: Box<Machine>) -> Handle
        ensures { result.value ≡ Some machine.value }
    {
        let at = Box::into_raw(machine);
        Handle { at: at as *mut u8 }
    }

    fn into_box(self, alloc: Global) -> Box<Machine>
        requires { is_some self.value ≡ true }
        ensures { Some result.value ≡ self.value }
    {
        let Handle { at } = self;
        unsafe { Box::from_raw(alloc, at as *mut Machine) }
    }
}

/// Takes the machine out of a handle, which holds none then.
pub(crate) fn take(alloc: Global, host: &mut Handle) -> Box<Machine>
    requires { is_some host.old.value ≡ true }
    ensures machine { Some result.value ≡ host.old.value }
    ensures empty { host.new.value ≡ None }
{
    mem::replace(host, Handle::none()).into_box(alloc)
}

/// Puts a machine into a handle that holds none.
pub(crate) fn put(host: &mut Handle, machine: Box<Machine>)
    ensures { host.new.value ≡ Some machine.value }
{
    *host = Handle::of(machine);
}
