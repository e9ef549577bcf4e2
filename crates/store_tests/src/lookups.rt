//! Look-ups in the dictionaries of the segment `V1`, each where its file has them as they are and
//! where they are damaged after the head was opened. Each has to end, with an answer or with the
//! refusal of its dictionary, or of the head where a file that was cut has no count; of one that is
//! as it was with the right answer; and to read no more than the count, and of each value that it
//! looks at what a text takes at most.
ghost use Rattle.segment_head.specs.Heads.{IsHeadOf};
ghost use Rattle.table_schema.specs.ValidTable.{IsValidTable};

use crate::cases::Report;
use crate::counting::CountingShelf;
use outside::{Name, Place, Seq};
use segment_file::{HeadFault, Part, is_segment_name};
use segment_head::{Head, open_head};
use std::alloc::{AllocError, Global};
use table_schema::Table;
use values::{CompareOp, Test, Value};

// The most bytes of a look at a value: where a text begins and ends, and the text.
const MOST_OF_ONE: u64 = 520;

// The most values at which the cut of a bound looks, among seven.
const MOST_LOOKS: u64 = 3;

// What is added to a byte.
const CHANGES: &[u8] = &[1, 16, 128, 255];

// What is asked of a dictionary.
#[derive(Clone, Copy)]
enum Asked {
    Equal(&'static str),
    Between(&'static str, &'static str),
    OneOf(&'static [&'static str]),
    Values(&'static [&'static str]),
}

// A question of a column, and the ids that answer it, or of which these are the values.
#[derive(Clone, Copy)]
struct Lookup {
    column: u16,
    asked: Asked,
    ids: &'static [u32],
}

// Questions of columns, with their ids. The values of the columns are CA, MX and USA; Chrome,
// Firefox and Safari; en, es and fr; 100, 200, 300, 400 and 600.
const LOOKUPS: &[(u16, Asked, &[u32])] = &[
    (0, Asked::Equal("MX"), &[1]),
    (0, Asked::Between("CB", "USA"), &[1, 2]),
    (0, Asked::OneOf(&["CA", "UK", "USA"]), &[0, 2]),
    (0, Asked::Values(&["CA", "MX", "USA"]), &[0, 1, 2]),
    (1, Asked::Equal("Opera"), &[]),
    (1, Asked::Between("Chrome", "Firefox"), &[0, 1]),
    (1, Asked::OneOf(&["Safari", "Chrome"]), &[0, 2]),
    (1, Asked::Values(&["Firefox", "Safari"]), &[1, 2]),
    (2, Asked::Equal("fr"), &[2]),
    (2, Asked::Between("eo", "et"), &[1]),
    (2, Asked::OneOf(&["de", "en", "it"]), &[0]),
    (2, Asked::Values(&["en", "fr"]), &[0, 2]),
    (3, Asked::Equal("300"), &[2]),
    (3, Asked::Between("150", "400"), &[1, 2, 3]),
    (3, Asked::OneOf(&["600", "100", "500"]), &[0, 4]),
    (3, Asked::Values(&["200", "600"]), &[1, 4]),
];

// What came of a question.
#[derive(Clone, Copy)]
enum Outcome {
    Right,
    Other,
    Refused,
    Ended,
    Failed,
}

// A number, or a text that is none.
fn value_of(alloc: Global, text: &str) -> Result<Value, AllocError> {
    match text.parse::<i64>() {
        Ok(number) => Ok(Value::Whole(number)),
        Err(_) => Ok(Value::Text(Name::from_text(alloc, text)?)),
    }
}

fn values_of(alloc: Global, texts: &[&'static str]) -> Result<Seq<Value>, AllocError> {
    let mut values = Seq::new(alloc);
    for text in texts {
        values.push(value_of(alloc, text)?)?;
    }
    Ok(values)
}

impl Asked {
    // The test of a question; one of values has none.
    fn test(self, alloc: Global) -> Result<Option<Test>, AllocError> {
        match self {
            Asked::Equal(text) => {
                let bound = value_of(alloc, text)?;
                Ok(Some(Test::Compare(CompareOp::Equal, bound)))
            }
            Asked::Between(low, high) => {
                let low = value_of(alloc, low)?;
                Ok(Some(Test::Between(low, value_of(alloc, high)?, false)))
            }
            Asked::OneOf(texts) => Ok(Some(Test::OneOf(values_of(alloc, texts)?, false))),
            Asked::Values(_) => Ok(None),
        }
    }

    // The most bytes that an answer may read.
    fn most(self) -> u64 {
        let looks = match self {
            Asked::Equal(_) => MOST_LOOKS,
            Asked::Between(_, _) => 2 * MOST_LOOKS,
            Asked::OneOf(_) => 3 * MOST_LOOKS,
            Asked::Values(_) => 5,
        };
        4 + looks * MOST_OF_ONE
    }
}

fn are_values(alloc: Global, found: &[Value], texts: &[&'static str]) -> Result<bool, AllocError> {
    let right = values_of(alloc, texts)?;
    Ok(found == right.as_slice())
}

// What a right or another answer is.
fn answered(right: bool) -> Outcome {
    if right {
        Outcome::Right
    } else {
        Outcome::Other
    }
}

impl Lookup {
    fn ask(
        &self,
        alloc: Global,
        shelf: &mut CountingShelf,
        table: &Table,
        head: &Head,
    ) -> Result<Outcome, HeadFault>
        requires { IsHeadOf table.now head.now }
    {
        if self.column as usize >= table.schema.fields.len() {
            return Ok(Outcome::Failed);
        }
        if let Some(test) = self.asked.test(alloc)? {
            let matched = head.matched(alloc, shelf, table, self.column, &test)?;
            return Ok(answered(matched.ids.as_slice() == self.ids));
        }
        let values = head.values(alloc, shelf, table, self.column, self.ids)?;
        match self.asked {
            Asked::Values(texts) => Ok(answered(are_values(alloc, values.as_slice(), texts)?)),
            _ => Ok(Outcome::Failed),
        }
    }

    // The same, with the refusals of the column's dictionary.
    fn outcome(
        &self,
        alloc: Global,
        shelf: &mut CountingShelf,
        table: &Table,
        head: &Head,
    ) -> Outcome
        requires { IsHeadOf table.now head.now }
    {
        match self.ask(alloc, shelf, table, head) {
            Ok(outcome) => outcome,
            Err(HeadFault::NotASegment(Part::Head)) => Outcome::Ended,
            Err(HeadFault::NotASegment(Part::Dictionary(column))) => {
                if column == self.column {
                    Outcome::Refused
                } else {
                    Outcome::Failed
                }
            }
            Err(_) => Outcome::Failed,
        }
    }
}

// A file that is damaged at a place: cut there, or with something added to the byte.
#[derive(Clone, Copy)]
enum Damage {
    Cut(usize),
    Altered(usize, u8),
}

impl Damage {
    fn done(self, alloc: Global, file: &[u8]) -> Result<Vec<u8>, AllocError> {
        match self {
            Damage::Cut(at) => file.get(..at).unwrap_or(b"").to_vec(alloc),
            Damage::Altered(at, change) => {
                let mut bytes = file.to_vec(alloc)?;
                if at < bytes.len() {
                    bytes[at] = bytes[at].wrapping_add(change);
                }
                Ok(bytes)
            }
        }
    }

    // Whether it leaves the bytes of a place as they are.
    fn spares(self, place: &Place) -> bool {
        let end = place.offset.saturating_add(place.length);
        match self {
            Damage::Cut(at) => end <= at as u64,
            Damage::Altered(at, _) => (at as u64) < place.offset || end <= at as u64,
        }
    }

    fn spares_column(self, head: &Head, column: u16) -> bool {
        match head.place(Part::Dictionary(column)) {
            Some(place) => self.spares(place),
            None => false,
        }
    }

    // Whether this may come of a question, of a dictionary that it leaves as it is or not.
    fn allows(self, outcome: Outcome, spared: bool) -> bool {
        match outcome {
            Outcome::Right => true,
            Outcome::Other | Outcome::Refused => !spared,
            Outcome::Ended => !spared && matches!(self, Damage::Cut(_)),
            Outcome::Failed => false,
        }
    }

    fn line(self, alloc: Global, column: u16) -> Result<String, AllocError> {
        match self {
            Damage::Cut(at) => format!(in alloc; "column {column}, cut {at}"),
            Damage::Altered(at, by) => format!(in alloc; "column {column}, {at} altered by {by}"),
        }
    }
}

impl Report {
    // Tries all look-ups over a file that is damaged.
    fn look_up(
        &mut self,
        alloc: Global,
        table: &Table,
        head: &Head,
        file: &[u8],
        damage: Damage,
    ) -> Result<(), AllocError>
        requires { IsHeadOf table.now head.now }
    {
        let mut shelf = CountingShelf::new(damage.done(alloc, file)?);
        for &(column, asked, ids) in LOOKUPS {
            let lookup = Lookup { column, asked, ids };
            let outcome = lookup.outcome(alloc, &mut shelf, table, head);
            let beyond = shelf.taken() > lookup.asked.most();
            let spared = damage.spares_column(head, lookup.column);
            self.count = self.count.saturating_add(1);
            if beyond || !damage.allows(outcome, spared) {
                self.wrong.push(damage.line(alloc, lookup.column)?)?;
            }
        }
        Ok(())
    }
}

// Tries all look-ups with each byte altered from one place to another, and with each cut there.
fn damaged(
    alloc: Global,
    table: &Table,
    head: &Head,
    file: &[u8],
    ends: (usize, usize),
) -> Result<Report, AllocError>
    requires { IsHeadOf table.now head.now }
{
    let (from, to) = ends;
    let mut report = Report {
        count: 0,
        wrong: Vec::new(alloc),
    };
    for at in from..to {
        report.look_up(alloc, table, head, file, Damage::Cut(at))?;
        for change in CHANGES {
            let damage = Damage::Altered(at, *change);
            report.look_up(alloc, table, head, file, damage)?;
        }
    }
    report.look_up(alloc, table, head, file, Damage::Cut(to))?;
    Ok(report)
}

/// Tries all look-ups in a segment of the table V, whose dictionaries have the bytes from one place
/// to another.
pub fn look_up_damaged(
    alloc: Global,
    table: &Table,
    name: &str,
    file: &[u8],
    ends: (usize, usize),
) -> Result<Option<Report>, AllocError>
    requires { IsValidTable table.now }
{
    if !is_segment_name(name) {
        return Ok(None);
    }
    let mut shelf = CountingShelf::new(file.to_vec(alloc)?);
    match open_head(alloc, &mut shelf, name, name, table) {
        Ok(head) => Ok(Some(damaged(alloc, table, &head, file, ends)?)),
        Err(_) => Ok(None),
    }
}
