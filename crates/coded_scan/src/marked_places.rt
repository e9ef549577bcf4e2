//! The places of the rows of a block that are marked.

ghost use Rattle.std.specs.Prelude.{◌≡◌, ◌<◌, ◌≤◌, ◌+◌, ◌-◌, ◌*◌, ◌^◌, ℕ, Bool, ◌++◌, length, take, bit_and};
ghost use Rattle.coded_scan.specs.Marks.{AreMarks, HaveMarks, ones};
ghost use Rattle.coded_scan.specs.RowFilters.{passing};

/// Puts the places of the rows that are marked to the front, where the first row has this place,
/// and says how many they are.
pub fn put_marked(from: u32, words: &[u64], out: &mut [u32]) -> usize
    requires fits { from + 64 * length words.now < 2 ^ 32 }
    requires marks { HaveMarks (length out.old) words.now }
    ensures count { result ≤ length out.old }
    ensures places { (holds : ℕ → Bool)
        → AreMarks (length out.old) (λ at. holds (from + at)) words.now
        → take result out.new ≡ passing holds from (length out.old) }
{
    let mut n = 0;
    for at in 0..words.len() {
        n = push_ones(words[at], from + 64 * at as u32, out, n);
    }
    n
}

// Puts the places of the ones of a word after others.
#[inline(always)]
fn push_ones(word: u64, from: u32, out: &mut [u32], after: usize) -> usize
    requires fits { from + 64 < 2 ^ 32 }
    requires room { after + length (ones from 64 word) ≤ length out.old }
    ensures count { result ≡ after + length (ones from 64 word) }
    ensures places { take result out.new ≡ take after out.old ++ ones from 64 word }
{
    let mut n = after;
    let mut left = word;
    while left != 0 {
        out[n] = from + left.trailing_zeros();
        n += 1;
        left = without_lowest(left);
    }
    n
}

// A number without its lowest one.
#[inline(always)]
#[tactic(auto, using(std::proofs::lemmas::Nat::and_le_r))]
fn without_lowest(word: u64) -> u64
    requires { 0 < word }
    ensures value { result ≡ bit_and word (word - 1) }
    ensures less { result < word }
{
    word & (word - 1)
}
