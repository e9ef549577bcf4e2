//! Why a command has no reply.
use crate::fault::Fault;
use crate::note::Note;
use std::alloc::AllocError;

/// Why a command has no reply.
#[derive(Drop)]
pub enum Stop {
    Refused(Note),
    Fault(Fault),
}

impl From<AllocError> for Stop {
    ghost use Rattle.std.specs.Prelude.{◌≡◌};
    ghost use Rattle.command_words.specs.declared.fault.Fault.TheVariants.{Memory};
    ghost use Rattle.command_words.specs.declared.stop.Stop.TheVariants as stop;

    ghost from_gives = { λ _ s. s ≡ stop.Fault Memory };

    fn from(_: AllocError) -> Self {
        Stop::Fault(Fault::Memory)
    }
}
