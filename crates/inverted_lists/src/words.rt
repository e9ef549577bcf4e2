//! Numbers in 32 bits each.
ghost use Rattle.std.specs.Prelude.{◌≡◌, ◌++◌, OnOk, OnErr};
ghost use Rattle.bit_column.specs.Column.{spelled};
ghost use Rattle.inverted_lists.specs.Words.{IsExtended};

use outside::NoMemory;

/// Appends numbers, each in four bytes with the most significant first.
pub fn write_words(words: &[u32], out: &mut Vec<u8>) -> Result<(), NoMemory>
    ensures ok { OnOk result (out.new.items ≡ out.old.items ++ spelled 32 words.now) }
    ensures err { OnErr result (out.new.items ≡ out.old.items) }
{
    let start = out.len();
    match push_words(words, out) {
        Ok(()) => Ok(()),
        Err(error) => {
            out.truncate(start);
            Err(error)
        }
    }
}

fn push_words(words: &[u32], out: &mut Vec<u8>) -> Result<(), NoMemory>
    ensures ok { OnOk result (out.new.items ≡ out.old.items ++ spelled 32 words.now) }
    ensures kept { IsExtended out.old.items out.new.items }
{
    out.reserve(words.len().saturating_mul(4))?;
    for word in words {
        out.extend_from_slice(&word.to_be_bytes())?;
    }
    Ok(())
}
