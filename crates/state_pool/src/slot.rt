//! Slots.

use std::marker::Model;

/// A slot that an owner took from a pool. One that is dropped and not given back stays its owner's.
#[derive(Debug, Drop)]
pub struct Slot {
    pub(crate) owner: u16,
    pub(crate) number: u32,
}

impl Model for Slot {
    ghost use Rattle.state_pool.specs.Pool.{Place};

    ghost Value = { Place };

    ghost view = { λ s. record { owner = s.owner; number = s.number } };
}
