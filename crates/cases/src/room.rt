// The length of a buffer that is to be filled.
ghost use Rattle.std.specs.Prelude.{◌≡◌, ◌+◌, ◌≤◌, length, OnSome};

use crate::script::Script;

// At most MOST.
#[derive(Clone, Copy)]
pub struct Room<const MOST: usize> {
    pub len: usize,
    ghost bounded: { len ≤ MOST },
}

impl<const MOST: usize> Room<MOST> {
    pub fn read(script: &mut Script) -> Option<Room<MOST>>
        ensures falls { length script.new.rest.now ≤ length script.old.rest.now }
        ensures taken { OnSome result (length script.new.rest.now + 2 ≡ length script.old.rest.now) }
    {
        let len = usize::from(script.u16()?);
        if len <= MOST {
            Some(Room { len })
        } else {
            None
        }
    }
}
