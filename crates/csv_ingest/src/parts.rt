//! Lines of one shape, by the places of the separators of a text.
ghost use Rattle.std.specs.Prelude.{◌≡◌, ◌<◌, ◌≤◌, ◌+◌, ◌-◌, ◌*◌, ◌⊎◌, ℕ, true, length, take, drop, get_or, IfSome, Ok};
ghost use Rattle.data_types.specs.Numbers.{whole_of};
ghost use Rattle.csv_ingest.specs.Parts.{AreMarks, IsLineAt, IsPart, cell_at, mark_at};
ghost use Rattle.csv_ingest.specs.Plain.{HasPlainCells};

use crate::digits::whole_between;
use crate::lines::is_blank;
use crate::plain::{are_plain, are_short};
use crate::records::from_place;
use data_types::FieldKind;

/// Some lines at the start of a text that begins with a line's end.
#[derive(Clone, Copy)]
pub struct Part<'a> {
    pub text: &'a [u8],
    /// The places of the first separators of the text.
    pub places: &'a [u32],
    /// How many cells a line has.
    pub width: usize,
    /// How many separators a line has.
    pub step: usize,
    /// How many lines there are.
    pub rows: usize,
    /// Which of the places is the end of the last line.
    pub last: usize,
}

/// The lines at the start of a text that have so many cells and no quotes, if there are some: at
/// most so many, with all their separators among these places.
pub fn part_of<'a>(text: &'a [u8], places: &'a [u32], width: usize, most: usize) -> Option<Part<'a>>
    requires { AreMarks text.now places.now }
    ensures is { IfSome result IsPart }
    ensures text { IfSome result (λ part. part.text.now ≡ text.now) }
    ensures width { IfSome result (λ part. part.width ≡ width) }
    ensures some { IfSome result (λ part. 0 < part.rows) }
    ensures at_most { IfSome result (λ part. part.rows ≤ most) }
{
    if width == 0 || places.is_empty() || places[0] != 0 {
        return None;
    }
    let step = step_of(text, places, width);
    let (rows, last) = rows_of(text, places, width, step, most);
    if rows == 0 {
        return None;
    }
    Some(Part {
        text,
        places,
        width,
        step,
        rows,
        last,
    })
}

impl<'a> Part<'a> {
    /// The cell after one of the places.
    #[inline(always)]
    pub fn cell(self, i: usize) -> &'a [u8]
        requires marks { AreMarks self.text.now self.places.now }
        requires within { i + 1 < length self.places.now }
        ensures { result.now ≡ cell_at self.entry.text.now self.entry.places.now i }
    {
        between(
            self.text,
            self.places[i] as usize + 1,
            self.places[i + 1] as usize,
        )
    }

    /// The whole number of a kind that is the cell after one of the places, if it is a `-` or none
    /// and sixteen digits or fewer.
    #[inline(always)]
    pub fn whole(self, kind: FieldKind, i: usize) -> Option<i64>
        requires marks { AreMarks self.text.now self.places.now }
        requires within { i + 1 < length self.places.now }
        ensures { IfSome result (λ number. whole_of kind
            (cell_at self.entry.text.now self.entry.places.now i) ≡ Ok number) }
    {
        whole_between(
            kind,
            self.text,
            self.places[i] as usize + 1,
            self.places[i + 1] as usize,
        )
    }

    /// Whether each cell is seen to be empty, or a `-` or none and few digits.
    pub fn is_plain(self) -> bool
        requires is { IsPart self }
        requires some { 0 < self.rows }
        ensures { result ≡ true → HasPlainCells self.entry }
    {
        are_short(self.places, self.last) && are_plain(self.text, self.len())
    }

    /// How much of the text is before the end of the last line.
    pub fn len(self) -> usize
        requires is { IsPart self }
        requires some { 0 < self.rows }
        ensures { result ≡ get_or self.entry.places.now self.entry.last 0 }
    {
        self.places[self.last] as usize
    }
}

// The bytes of a text between two places.
#[inline(always)]
fn between(text: &[u8], start: usize, end: usize) -> &[u8]
    requires ordered { start ≤ end }
    requires within { end ≤ length text.now }
    ensures { result.now ≡ take (end - start) (drop start text.now) }
{
    &text[start..end]
}

// The separator at one of the places.
#[inline(always)]
fn mark(text: &[u8], places: &[u32], i: usize) -> u8
    requires marks { AreMarks text.now places.now }
    requires within { i < length places.now }
    ensures { result ≡ mark_at text.now places.now i }
{
    text[places[i] as usize]
}

// How many separators the first line has, where it has so many cells.
fn step_of(text: &[u8], places: &[u32], width: usize) -> usize
    requires marks { AreMarks text.now places.now }
    ensures { width ≤ result }
{
    if width < places.len() && mark(text, places, width) == b'\r' {
        width + 1
    } else {
        width
    }
}

// Whether commas are between the cells of a line.
#[inline(always)]
fn has_commas(text: &[u8], places: &[u32], width: usize, at: usize) -> bool
    requires marks { AreMarks text.now places.now }
    requires within { at + width < length places.now }
    ensures { result ≡ true
        → (k : ℕ) → 0 < k → k < width → mark_at text.now places.now (at + k) ≡ 44 }
{
    'cells: for k in 1..width {
        if mark(text, places, at + k) != b',' {
            return false;
        }
    }
    true
}

// Whether a line ends by a line feed, or by a carriage return and a line feed where it has one
// separator more than cells.
#[inline(always)]
fn ends_line(text: &[u8], places: &[u32], width: usize, step: usize, at: usize) -> bool
    requires marks { AreMarks text.now places.now }
    requires step { width ≤ step }
    requires within { at + step < length places.now }
    ensures { result ≡ true → ((step ≡ width) × (mark_at text.now places.now (at + width) ≡ 10))
        ⊎ ((step ≡ width + 1) × (mark_at text.now places.now (at + width) ≡ 13)
        × (mark_at text.now places.now (at + step) ≡ 10)
        × (get_or places.now (at + step) 0 ≡ get_or places.now (at + width) 0 + 1)) }
{
    if step == width {
        return mark(text, places, at + width) == b'\n';
    }
    step == width + 1
        && mark(text, places, at + width) == b'\r'
        && mark(text, places, at + step) == b'\n'
        && places[at + step] as usize == places[at + width] as usize + 1
}

// Whether a line of this shape comes after a place.
#[inline(always)]
fn is_line(text: &[u8], places: &[u32], width: usize, step: usize, at: usize) -> bool
    requires marks { AreMarks text.now places.now }
    requires some { 0 < width }
    requires step { width ≤ step }
    requires within { at + step < length places.now }
    ensures { result ≡ true → IsLineAt text.now places.now width step at }
{
    mark(text, places, at) == b'\n'
        && !is_blank(from_place(text, places[at] as usize + 1))
        && has_commas(text, places, width, at)
        && ends_line(text, places, width, step, at)
}

// How many lines of this shape there are at the start of a text, up to so many, and which of the
// places is the end of the last.
fn rows_of(text: &[u8], places: &[u32], width: usize, step: usize, most: usize) -> (usize, usize)
    requires marks { AreMarks text.now places.now }
    requires some { 0 < width }
    requires step { width ≤ step }
    ensures at_most { result.0 ≤ most }
    ensures lines { (r : ℕ) → r < result.0
        → IsLineAt text.now places.now width step (r * step) }
    ensures last { result.1 ≡ result.0 * step }
{
    let end = places.len().saturating_sub(step);
    let mut at = 0;
    'rows: for i in 0..most {
        if at >= end || !is_line(text, places, width, step, at) {
            return (i, at);
        }
        at += step;
    }
    (most, at)
}
