//! A law of pools. It is the contract of a function that does nothing.

ghost use Rattle.std.specs.Prelude.{◌≡◌, ℕ, List, Some};
ghost use Rattle.std.specs.FinMap as finite;
ghost use Rattle.agg_laws.specs.declared.states.AggState.{AggState};
ghost use Rattle.state_pool.specs.Pool.{Pool, slots_of};

/// Slots are disjoint: no two owners hold slots with one number.
pub fn pool_law()
    ensures disjoint { (pool : Pool) (a b number : ℕ) (one other : List AggState)
        → finite.get (slots_of pool a) number ≡ Some one
        → finite.get (slots_of pool b) number ≡ Some other → a ≡ b }
{}
