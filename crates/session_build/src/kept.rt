ghost use Rattle.session_build.specs.Remembering.{IsEmpty};

use crate::late::Late;
use check_cache::Cache;
use iface_key::Keys;
use std::alloc::Global;
use std::collections::VecDeque;

/// The checks that a session keeps from build to build, with the numbers of the keys of what modules showed, and those of
/// cancelled builds that may still come.
pub struct Kept {
    pub(crate) alloc: Global,
    pub(crate) cache: Cache,
    pub(crate) keys: Keys,
    /// The oldest first.
    pub(crate) late: VecDeque<Late>,
}

impl Drop for Kept {
    fn drop(self) {
        let Self {
            alloc: _,
            cache: _,
            keys: _,
            late: _,
        } = self;
    }
}

impl Kept {
    /// Nothing is kept yet. Takes no memory.
    pub fn new(alloc: Global) -> Kept
        ensures { IsEmpty result }
    {
        Kept {
            alloc,
            cache: Cache::new(alloc),
            keys: Keys::new(alloc),
            late: VecDeque::new(alloc),
        }
    }
}
