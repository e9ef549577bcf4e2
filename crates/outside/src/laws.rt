//! Laws of the words that contracts speak in. Each is the contract of a function that does nothing.
ghost use Rattle.std.specs.Prelude.{All, ◌≡◌, ◌≢◌, ◌≤◌, ◌+◌, ◌++◌, ◌⊎◌, ℕ, List};
ghost use Rattle.outside.specs.Counts.{Rose};
ghost use Rattle.outside.specs.Reads.{Entry, Consecutive, overlap, read_by, read_in};

/// Over calls that never lower a count, a rise in one is a rise in all, and where there is no rise
/// in all there is none in each, and the count is what it was.
pub fn rises_compose()
    ensures first { (before between after : ℕ) → before ≤ between → between ≤ after →
        Rose before between → Rose before after }
    ensures second { (before between after : ℕ) → before ≤ between → between ≤ after →
        Rose between after → Rose before after }
    ensures none { (before between after : ℕ) → before ≤ between → between ≤ after →
        ¬ Rose before after → (¬ Rose before between) × (¬ Rose between after) }
    ensures unchanged { (before after : ℕ) → before ≤ after → ¬ Rose before after →
        after ≡ before }
{}

/// The bytes that reads gave of a file add up: over joined lists, with nothing from a read of
/// another file or apart from the stretch that is asked for. Reads that go back to back from one
/// offset to another give just what is common to the two stretches.
pub fn reads_add_up()
    ensures joined { (earlier later : List Entry) (file : List ℕ) (from to : ℕ) →
        read_in (earlier ++ later) file from to
        ≡ read_in earlier file from to + read_in later file from to }
    ensures other_file { (entry : Entry) (file : List ℕ) (from to : ℕ) → entry.file ≢ file →
        read_by entry file from to ≡ 0 }
    ensures other_files { (entries : List Entry) (file : List ℕ) (from to : ℕ) →
        All (λ entry. entry.file ≢ file) entries → read_in entries file from to ≡ 0 }
    ensures apart { (entry : Entry) (file : List ℕ) (from to : ℕ) →
        (entry.offset + entry.count ≤ from) ⊎ (to ≤ entry.offset) →
        read_by entry file from to ≡ 0 }
    ensures through { (entries : List Entry) (file : List ℕ) (a b from to : ℕ) →
        Consecutive file a b entries → read_in entries file from to ≡ overlap a b from to }
    ensures through_other { (entries : List Entry) (file other : List ℕ) (a b from to : ℕ) →
        Consecutive other a b entries → other ≢ file → read_in entries file from to ≡ 0 }
{}
