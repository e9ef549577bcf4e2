//! Input files, which are read whole.
ghost use Rattle.std.specs.Prelude.{◌≡◌, ◌≤◌, ℕ, List, IfOk, IfErr, IsErrOf, length};
ghost use Rattle.outside.specs.Counts.{Rose};
ghost use Rattle.outside.specs.Seen.{seen};
ghost use Rattle.outside.specs.Whole.{IsWhole};
ghost use Rattle.json_keys.specs.declared.fault.KeyKind.{KeyKind};
ghost use Rattle.command_model.specs.Gives.{StopsRead};
ghost use Rattle.command_model.specs.Touched.{ReadsFront};

use command_words::{Counted, Fault, Note, Stop};
use outside::{Bytes, ReadAllFault, Seq, Shelf, read_all};
use std::alloc::{AllocError, Global};

/// The bytes of an input file, which may have so many.
pub fn read_input<I: Shelf>(
    alloc: Global,
    file: &str,
    what: Counted,
    limit: u64,
    inputs: &mut I,
) -> Result<Bytes, Stop>
    ensures whole { IfOk result (IsWhole (I.held inputs.old) file.now limit) }
    ensures short { IfOk result (λ bytes. length bytes ≤ limit) }
    ensures stops { IfErr result (StopsRead file.now what limit (I.held inputs.old)
        (Rose (I.read_faults inputs.old) (I.read_faults inputs.new))) }
    ensures no_schema { (wrong : KeyKind) (path : List ℕ) →
        ¬ IsErrOf result (Stop.Refused (Note.BadSchema wrong path)) }
    ensures unchanged { ¬ IsErrOf result (Stop.Fault Fault.Read) →
        I.read_faults inputs.new ≡ I.read_faults inputs.old }
    ensures reads { ReadsFront file.now limit (seen I.Shelf inputs.old) (seen I.Shelf inputs.new) }
{
    match read_all(alloc, inputs, file, limit) {
        Ok(bytes) => Ok(bytes),
        Err(ReadAllFault::Missing) => Err(Stop::Refused(Note::NoInput(name_of(alloc, file)?))),
        Err(ReadAllFault::TooLong) => Err(Stop::Refused(Note::TooLarge(what, limit))),
        Err(ReadAllFault::Failed) => Err(Stop::Fault(Fault::Read)),
        Err(ReadAllFault::NoMemory) => Err(Stop::Fault(Fault::Memory)),
    }
}

/// The name of a file, to be kept.
pub(crate) fn name_of(alloc: Global, file: &str) -> Result<Bytes, AllocError>
    ensures { IfOk result (λ name. name ≡ file.now) }
{
    Ok(Seq::from_vec(file.as_bytes().to_vec(alloc)?))
}
