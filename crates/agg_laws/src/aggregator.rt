//! What each aggregate promises.

ghost use Rattle.std.specs.Prelude.{◌≡◌, ℕ, ℤ, List, [], ◌∷◌, length, IfOk, Ok};
ghost use Rattle.agg_laws.specs.Aggregates.{IsAggregate, IsStoredAs};
ghost use Rattle.agg_laws.specs.Numbers.{most_values};

/// A segment has at most so many rows, so a stored state stands for at most so many values.
pub const MOST_STORED: u64 = 1048576;

/// The bytes spell no stored state.
#[derive(Clone, Copy, Debug, PartialEq, Eq)]
pub struct BadState;

/// An aggregate: its states, and how they are made, merged and stored. No call takes memory.
pub trait Aggregator {
    /// What is kept of some values.
    type State: Copy;

    /// How many bytes a stored state takes.
    const WIDTH: usize;

    ghost WIDTH: { ℕ };

    /// The state of a list of whole numbers.
    ghost of: { List ℤ → Self.State };

    /// The state of no value.
    ghost empty: { Self.State };

    /// The state of the values of both.
    ghost merged: { Self.State → Self.State → Self.State };

    /// The state can come from at most so many signed 64-bit numbers.
    ghost fits: { Self.State → ℕ → Type 0 };

    /// The state can be stored: it stands for one value at least, and for no more than a segment
    /// has.
    ghost stored: { Self.State → Type 0 };

    /// The bytes of a stored state.
    ghost spelling: { Self.State → List ℕ };

    /// The state of no value.
    fn unit() -> Self::State
        ensures { result ≡ empty };

    /// One more value.
    fn add(state: &mut Self::State, value: i64)
        requires { fits (merged state.old (of (value ∷ []))) most_values }
        ensures { state.new ≡ merged state.old (of (value ∷ [])) };

    /// The values of another state too.
    fn merge(into: &mut Self::State, from: &Self::State)
        requires { fits (merged into.old from.now) most_values }
        ensures { into.new ≡ merged into.old from.now };

    /// Writes a stored state.
    fn put(state: &Self::State, out: &mut [u8])
        requires stored { stored state.now }
        requires width { length out.old ≡ WIDTH }
        ensures { out.new ≡ spelling state.now };

    /// Reads a stored state.
    fn take(bytes: &[u8]) -> Result<Self::State, BadState>
        requires { length bytes.now ≡ WIDTH }
        ensures found { IfOk result (λ v. stored v × (spelling v ≡ bytes.now)) }
        ensures again { (v : Self.State) → stored v → spelling v ≡ bytes.now → result ≡ Ok v };

    /// States go by the values alone, in any grouping and order.
    ghost aggregate: { IsAggregate Self.State of empty merged fits };

    /// Each stored state has one spelling.
    ghost storage: { IsStoredAs Self.State fits stored spelling WIDTH };
}
