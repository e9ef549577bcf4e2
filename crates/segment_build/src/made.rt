//! A segment's file as it is made.
ghost use Rattle.outside.specs.Seen.{seen};
ghost use Rattle.segment_build.specs.Made.{file_bytes};

use crate::Taker;
use crate::section::MadeSection;
use crate::taking::give_bytes;
use outside::Shelf;
use std::alloc::Global;

/// A segment's file as it is made: its front, and its sections in their order.
#[derive(Drop)]
pub struct MadeFile {
    pub front: Vec<u8>,
    pub sections: Vec<MadeSection>,
}

impl MadeFile {
    /// Gives the file to a taker. The sections are let go one after the other as they are taken.
    pub fn give<S: Shelf, T: Taker<S>>(
        self,
        alloc: Global,
        taker: &mut T,
        shelf: &mut S,
    ) -> Result<(), T::Fault>
        ensures { T.takes (file_bytes self) result taker.old (seen S.Shelf shelf.old)
            taker.new (seen S.Shelf shelf.new) }
    {
        let MadeFile { front, sections } = self;
        if let Err(fault) = give_bytes(alloc, taker, shelf, &front) {
            return Err(fault);
        }
        for section in sections {
            if let Err(fault) = section.give(alloc, taker, shelf) {
                return Err(fault);
            }
        }
        Ok(())
    }
}
