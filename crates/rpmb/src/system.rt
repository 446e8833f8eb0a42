//! The files of the system, of which no contract says what they give.
use rpmb_commands::{Front, Source, SourceError, is_file, read_file, read_front};
use std::alloc::Global;

/// The files of the system.
#[derive(Drop)]
pub struct System<'a> {
    pub rt: &'a HostRuntime,
}

impl<'a> Source for System<'a> {
    ghost use Rattle.rpmb.specs.System.{any_file};

    ghost gives = { λ source. any_file };

    fn content(&self, _alloc: Global, name: &str, most: usize) -> Result<Vec<u8>, SourceError> {
        read_file(self.rt, name, most)
    }

    fn is_file(&self, name: &str) -> bool {
        is_file(self.rt, name)
    }

    fn front(&self, _alloc: Global, name: &str, most: u64) -> Front {
        read_front(self.rt, name, most)
    }
}
