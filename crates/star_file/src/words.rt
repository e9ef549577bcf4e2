//! Numbers and states as bytes.

ghost use Rattle.std.specs.Prelude.{◌∷◌, []};
ghost use Rattle.agg_laws.specs.States.{spelling, IsStored};
ghost use Rattle.star_file.specs.Bytes.{words, Adds};

use crate::NoMemory;
use agg_laws::AggState;

/// Appends a number of four bytes.
pub(crate) fn push_word(word: u32, out: &mut Vec<u8>) -> Result<(), NoMemory>
    ensures { Adds (words (word ∷ [])) out.old.items out.new.items result }
{
    out.extend_from_slice(&word.to_be_bytes())
}

/// Appends numbers of four bytes.
pub(crate) fn push_words(numbers: &[u32], out: &mut Vec<u8>) -> Result<(), NoMemory>
    ensures { Adds (words numbers.now) out.old.items out.new.items result }
{
    for i in 0..numbers.len() {
        push_word(numbers[i], out)?;
    }
    Ok(())
}

/// Appends a state.
pub(crate) fn push_state(state: &AggState, out: &mut Vec<u8>) -> Result<(), NoMemory>
    requires { IsStored state.now }
    ensures { Adds (spelling state.now) out.old.items out.new.items result }
{
    let mut room = [0u8; 24];
    let spelled = &mut room[..state.kind().width()];
    state.put(spelled);
    out.extend_from_slice(spelled)
}
