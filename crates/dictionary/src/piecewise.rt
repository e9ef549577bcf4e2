//! Numbers of a dictionary that is read piece by piece.

ghost use Rattle.std.specs.Prelude.{◌≡◌, ◌≢◌, ◌*◌, ◌++◌, ◌∷◌, [], List, ℕ, length, map, IfErr, OnOk};
ghost use Rattle.values.specs.declared.value.Value.TheVariants as value;
ghost use Rattle.dictionary.specs.Pieces.{AreNumbersOf, NoNumbers};
ghost use Rattle.dictionary.specs.Reading.{is_above_last};
ghost use Rattle.value_ids.specs.Dictionary.{IsDictionary};

use crate::{DictFault, Dictionary, is_in_range, number_of};
use data_types::FieldKind;
use value_ids::ValueList;

/// Appends the numbers that these bytes spell, which follow those of the numbers that are there.
pub fn push_numbers(kind: FieldKind, bytes: &[u8], numbers: &mut Vec<i64>) -> Result<(), DictFault>
    requires numbers { kind ≢ FieldKind.Text }
    requires eights { (n : ℕ) × (length bytes.now ≡ 8 * n) }
    ensures ok { OnOk result ((before : List ℕ) →
        AreNumbersOf kind before (map value.Whole numbers.old.items) →
        AreNumbersOf kind (before ++ bytes.now) (map value.Whole numbers.new.items)) }
    ensures bad { IfErr result (λ fault. fault ≡ DictFault.BadDictionary →
        (before after : List ℕ) → AreNumbersOf kind before (map value.Whole numbers.old.items) →
        NoNumbers kind (before ++ (bytes.now ++ after))) }
{
    let mut rest = bytes;
    while let Some((chunk, following)) = rest.split_first_chunk::<8>() {
        let number = number_of(chunk);
        if !is_in_range(kind, number) || !is_greater(numbers, number) {
            return Err(DictFault::BadDictionary);
        }
        keep(numbers, number)?;
        rest = following;
    }
    Ok(())
}

impl Dictionary {
    /// The dictionary of these numbers, which are one.
    pub fn of_numbers(kind: FieldKind, numbers: Vec<i64>) -> Dictionary
        requires { IsDictionary (record { kind = kind; values = map value.Whole numbers.items }) }
        ensures { result ≡ record { kind = kind; values = map value.Whole numbers.items } }
    {
        Dictionary {
            kind,
            values: ValueList::of_numbers(numbers),
        }
    }
}

// Whether a number is greater than the last one, if there is one.
#[inline(always)]
fn is_greater(numbers: &[i64], number: i64) -> bool
    ensures { result ≡ is_above_last (map value.Whole numbers.now) (value.Whole number) }
{
    match numbers.last() {
        None => true,
        Some(last) => *last < number,
    }
}

#[inline(always)]
fn keep(numbers: &mut Vec<i64>, number: i64) -> Result<(), DictFault>
    ensures ok { OnOk result (numbers.new.items ≡ numbers.old.items ++ number ∷ []) }
    ensures err { IfErr result (λ fault. fault ≡ DictFault.NoMemory) }
{
    match numbers.push(number) {
        Ok(()) => Ok(()),
        Err(_) => Err(DictFault::NoMemory),
    }
}
