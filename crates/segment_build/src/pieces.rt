//! The part that a file is published by grows by pieces.
ghost use Rattle.outside.specs.Seen.{seen};

use crate::{INCOMING, Taker};
use outside::{Depot, DepotFault};
use std::alloc::Global;

/// Writes the bytes that it takes at the end of the part that files are published by.
#[derive(Drop)]
pub(crate) struct Appending;

impl<D: Depot> Taker<D> for Appending {
    ghost use Rattle.outside.specs.Calls.{AppendsToPart};
    ghost use Rattle.outside.specs.declared.depot.DepotFault.TheVariants as depot;
    ghost use Rattle.segment_build.specs.Publishing.{incoming};
    ghost use Rattle.segment_build.specs.PieceLaws.{appends_declined, appends_joined, appends_stopped};

    type Fault = DepotFault;

    ghost takes = { λ bytes result _ old _ new. AppendsToPart incoming bytes result old new };

    fn take(&mut self, alloc: Global, shelf: &mut D, piece: &[u8]) -> Result<(), DepotFault> {
        shelf.append(alloc, INCOMING, piece)
    }

    ghost no_memory = { depot.NoMemory };

    fn no_memory() -> DepotFault {
        DepotFault::NoMemory
    }

    ghost declines = { λ a _ s. appends_declined incoming a s };

    ghost joins = { λ a b r _ _ _ s t u. appends_joined incoming a b r s t u };

    ghost stops = { λ a b fault _ _ s t. appends_stopped incoming a b fault s t };
}
