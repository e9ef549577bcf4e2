//! Words of marks.

ghost use Rattle.std.specs.Prelude.{◌≡◌, ◌<◌, ◌&&◌, ◌||◌, ℕ, Bool, false, length, get_or};
ghost use Rattle.coded_scan.specs.Marks.{AreMarks};

/// Leaves the marks that others have too.
pub fn keep_both(words: &mut [u64], others: &[u64])
    requires { length others.now ≡ length words.old }
    ensures { (many : ℕ) (holds other : ℕ → Bool) → AreMarks many holds words.old
        → AreMarks many other others.now → AreMarks many (λ row. holds row && other row) words.new }
{
    for at in 0..words.len() {
        words[at] &= others[at];
    }
}

/// Adds the marks that others have.
pub fn keep_either(words: &mut [u64], others: &[u64])
    requires { length others.now ≡ length words.old }
    ensures { (many : ℕ) (holds other : ℕ → Bool) → AreMarks many holds words.old
        → AreMarks many other others.now → AreMarks many (λ row. holds row || other row) words.new }
{
    for at in 0..words.len() {
        words[at] |= others[at];
    }
}

/// Whether there is a mark.
pub fn has_mark(words: &[u64]) -> bool
    ensures { result ≡ false → (j : ℕ) → j < length words.now → get_or words.now j 0 ≡ 0 }
{
    let mut all = 0;
    for at in 0..words.len() {
        all |= words[at];
    }
    all != 0
}
