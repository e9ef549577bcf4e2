//! Cells that are seen to be numbers by their bytes alone.
ghost use Rattle.std.specs.Prelude.{◌≡◌, ◌<◌, true, length};
ghost use Rattle.csv_ingest.specs.Plain.{ArePlain, AreShort, is_break, is_plain};
ghost use Rattle.data_types.specs.Numbers.{is_digit};

// The most bytes from the start of a cell to the next one's.
const MOST_STEP: u32 = 19;

/// Whether each byte of a text up to this place may come after the one before it.
#[inline(never)]
pub fn are_plain(text: &[u8], end: usize) -> bool
    requires { end < length text.now }
    ensures { result ≡ true → ArePlain text.now end }
{
    let mut all = true;
    'bytes: for i in 0..end {
        all = all & is_plain(text[i], text[i + 1]);
    }
    all
}

/// Whether no cell between these places, up to the one of this number, has more bytes than the
/// digits and the sign of a number that fits.
#[inline(never)]
pub fn are_short(places: &[u32], last: usize) -> bool
    requires { last < length places.now }
    ensures { result ≡ true → AreShort places.now last }
{
    let mut all = true;
    'places: for i in 0..last {
        all = all & (places[i + 1].saturating_sub(places[i]) <= MOST_STEP);
    }
    all
}

#[inline(always)]
fn is_digit(byte: u8) -> bool
    ensures { result ≡ is_digit byte }
{
    byte >= b'0' && byte <= b'9'
}

#[inline(always)]
fn is_break(byte: u8) -> bool
    ensures { result ≡ is_break byte }
{
    byte == b',' || byte == b'\n' || byte == b'\r'
}

#[inline(always)]
fn is_plain(before: u8, here: u8) -> bool
    ensures { result ≡ is_plain before here }
{
    is_digit(here) || is_break(here) && before != b'-' || here == b'-' && before < b'-'
}
