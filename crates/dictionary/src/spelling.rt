//! How a dictionary is written: the number of its values, and then numbers of eight bytes, or the
//! offsets of texts and their bytes.

ghost use Rattle.std.specs.Prelude.{◌≡◌, ◌≤◌, ◌<◌, ◌*◌, ◌++◌, List, ℕ, OnOk, OnErr, get_or, length, map, pos};
ghost use Rattle.std.specs.List.{All};
ghost use Rattle.values.specs.declared.value.Value.TheVariants as value;
ghost use Rattle.value_ids.specs.Dictionary.{Distinct, Fits, IsDictionary, most_values};
ghost use Rattle.dictionary.specs.Spelling.{IsExtended, numbers, number_bytes, offsets, spelling, text_bytes, texts};

use crate::Dictionary;
use data_types::FieldKind;
use value_ids::ValueList;
use values::NoMemory;

impl Dictionary {
    /// Appends the spelling.
    pub fn write(&self, out: &mut Vec<u8>) -> Result<(), NoMemory>
        ensures ok { OnOk result (out.new.items ≡ out.old.items ++ spelling self.now) }
        ensures err { OnErr result (out.new.items ≡ out.old.items) }
    {
        let start = out.len();
        match push_spelling(self.kind, &self.values, out) {
            Ok(()) => Ok(()),
            Err(error) => {
                out.truncate(start);
                Err(error)
            }
        }
    }
}

fn push_spelling(kind: FieldKind, values: &ValueList, out: &mut Vec<u8>) -> Result<(), NoMemory>
    requires { IsDictionary (record { kind = kind; values = values.now }) }
    ensures ok { OnOk result (out.new.items ≡
        out.old.items ++ spelling (record { kind = kind; values = values.now })) }
    ensures kept { IsExtended out.old.items out.new.items }
{
    out.extend_from_slice(&(values.len() as u32).to_be_bytes())?;
    match kind {
        FieldKind::Int | FieldKind::Long => push_numbers(values, out),
        FieldKind::Text => {
            push_offsets(values, out)?;
            push_texts(values, out)
        }
    }
}

fn push_numbers(values: &ValueList, out: &mut Vec<u8>) -> Result<(), NoMemory>
    requires { length values.now ≤ most_values }
    ensures ok { OnOk result (out.new.items ≡ out.old.items ++ numbers values.now) }
    ensures kept { IsExtended out.old.items out.new.items }
{
    match values.as_numbers() {
        Some(wholes) => push_wholes(wholes, out),
        None => Ok(()),
    }
}

fn push_wholes(wholes: &[i64], out: &mut Vec<u8>) -> Result<(), NoMemory>
    requires { length wholes.now ≤ most_values }
    ensures ok { OnOk result
        (out.new.items ≡ out.old.items ++ numbers (map value.Whole wholes.now)) }
    ensures kept { IsExtended out.old.items out.new.items }
{
    out.reserve(8 * wholes.len())?;
    for number in wholes {
        push_number(number, out)?;
    }
    Ok(())
}

#[inline(always)]
fn push_number(number: &i64, out: &mut Vec<u8>) -> Result<(), NoMemory>
    ensures ok { OnOk result
        (out.new.items ≡ out.old.items ++ number_bytes (value.Whole number.now)) }
    ensures err { OnErr result (out.new.items ≡ out.old.items) }
{
    out.extend_from_slice(&number.to_be_bytes())
}

fn push_offsets(values: &ValueList, out: &mut Vec<u8>) -> Result<(), NoMemory>
    requires at_most { length values.now ≤ most_values }
    requires fit { All (Fits FieldKind.Text) values.now }
    ensures ok { OnOk result (out.new.items ≡ out.old.items ++ offsets 0 values.now) }
    ensures kept { IsExtended out.old.items out.new.items }
{
    let count = values.len();
    out.reserve(4 * count + 4)?;
    let mut start: u32 = 0;
    'places: for at in 0..count {
        out.extend_from_slice(&start.to_be_bytes())?;
        start += text_at(values, at).len() as u32;
    }
    out.extend_from_slice(&start.to_be_bytes())
}

fn push_texts(values: &ValueList, out: &mut Vec<u8>) -> Result<(), NoMemory>
    requires { All (Fits FieldKind.Text) values.now }
    ensures ok { OnOk result (out.new.items ≡ out.old.items ++ texts values.now) }
    ensures kept { IsExtended out.old.items out.new.items }
{
    let count = values.len();
    'places: for at in 0..count {
        out.extend_from_slice(text_at(values, at))?;
    }
    Ok(())
}

// The bytes of the text at a place; none of a number.
#[inline(always)]
fn text_at(values: &ValueList, at: usize) -> &[u8]
    requires within { at < length values.now }
    requires fit { All (Fits FieldKind.Text) values.now }
    ensures text { result.now ≡ text_bytes (get_or values.now at (value.Whole (pos 0))) }
    ensures short { length result.now ≤ 512 }
{
    match values.text_at(at) {
        Some(text) => text,
        None => &[],
    }
}
