//! Laws of spelled ids. Each is the contract of a function that does nothing.
ghost use Rattle.std.specs.Prelude.{◌≡◌, ◌≤◌, ◌<◌, ◌+◌, ◌-◌, ◌*◌, ◌^◌, ◌++◌, ℕ, List, All, length, map, take, drop, replicate, slice_index};
ghost use Rattle.bit_column.specs.Bits.{bits_of};
ghost use Rattle.bit_column.specs.Column.{IsWidth, width_of, bytes_for, spelled, id_at, ids_between};
ghost use Rattle.bit_column.specs.Postings.{places_of, postings, entry_at, bucket_of, buckets_for};
ghost use Rattle.bit_column.specs.Sections.{Readable};
ghost use Rattle.bit_column.specs.SortedRuns.{sorted_runs, run_at};
ghost use Rattle.std.specs.List.Sorted.{IsNonDecreasing, IsStrictlyIncreasing};

/// What is written are the bits of the ids and less than eight zero bits, in no more bytes than
/// these take, and what is written is read back: no range of it is refused.
pub fn reads_back()
    ensures length { (width : ℕ) (ids : List ℕ) →
        length (spelled width ids) ≡ bytes_for (length ids * width) }
    ensures bits { (width : ℕ) (ids : List ℕ) → (zeros : ℕ) × (zeros < 8)
        × (bits_of 8 (spelled width ids) ≡ bits_of width ids ++ replicate zeros 0) }
    ensures at { (width index : ℕ) (ids : List ℕ) → All (λ id. id < 2 ^ width) ids →
        index < length ids → id_at width index (spelled width ids) ≡ slice_index ids index }
    ensures between { (width from to : ℕ) (ids : List ℕ) → All (λ id. id < 2 ^ width) ids →
        from ≤ to → to ≤ length ids →
        ids_between width from to (spelled width ids) ≡ take (to - from) (drop from ids) }
    ensures readable { (width count from to : ℕ) (ids : List ℕ) → All (λ id. id < 2 ^ width) ids →
        All (λ id. id < count) ids → from ≤ to → to ≤ length ids →
        Readable width count from to (spelled width ids) }
{}

/// The width for a number of ids is the least that tells them apart.
pub fn widths_are_least()
    ensures { (count : ℕ) → count < 2 ^ 32 → IsWidth count (width_of count) }
{}

/// Postings by keys are as long as one offset a key, one more, and one entry a row, and what they
/// say of a key are its places, ascending.
pub fn postings_read_back()
    ensures length { (count : ℕ) (keys : List ℕ) → All (λ key. key < count) keys →
        length (postings count keys) ≡ 4 * (count + 1 + length keys) }
    ensures entry { (count key : ℕ) (keys : List ℕ) → All (λ key. key < count) keys →
        length keys < 2 ^ 32 → key < count →
        entry_at count key (postings count keys) ≡ places_of key keys }
    ensures ascending { (key : ℕ) (keys : List ℕ) → IsStrictlyIncreasing (places_of key keys) }
    // The keys of a range index are in range where the ids are.
    ensures buckets { (count : ℕ) (ids : List ℕ) → All (λ id. id < count) ids →
        All (λ bucket. bucket < buckets_for count) (map bucket_of ids) }
{}

/// The section of a sorted column has eight bytes a key, and what it says of a key are its places.
pub fn sorted_reads_back()
    ensures length { (count : ℕ) (keys : List ℕ) → length (sorted_runs count keys) ≡ 8 * count }
    ensures run { (count key : ℕ) (keys : List ℕ) → IsNonDecreasing keys →
        length keys < 2 ^ 32 → key < count →
        run_at key (sorted_runs count keys) ≡ places_of key keys }
{}
