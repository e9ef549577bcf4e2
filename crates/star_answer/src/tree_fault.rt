//! What the fault of the answer from a star-tree is for its segment.

ghost use Rattle.std.specs.Prelude.{◌≡◌};
ghost use Rattle.segment_file.specs.declared.part.Part.{Part};
ghost use Rattle.segment_file.specs.declared.part.Part.TheVariants as parts;
ghost use Rattle.segment_head.specs.declared.fault.EngineFault.TheVariants as segments;
ghost use Rattle.star_reader.specs.declared.fault.AnswerFault.TheVariants as trees;

use segment_file::Part;
use segment_head::EngineFault;
use star_reader::AnswerFault;

/// What a fault of the answer from a tree is for the segment.
pub(crate) fn of_tree(fault: AnswerFault, tree: u8) -> EngineFault
    ensures bad { (part : Part) → result ≡ segments.NotASegment part → fault ≡ trees.BadDocs }
    ensures part { fault ≡ trees.BadDocs → result ≡ segments.NotASegment (parts.Star tree) }
    ensures full { result ≡ segments.TooManyGroups → fault ≡ trees.TooManyGroups }
    ensures read { fault ≡ trees.ReadFault → result ≡ segments.ReadFault }
    ensures only_read { result ≡ segments.ReadFault → fault ≡ trees.ReadFault }
{
    match fault {
        AnswerFault::TooManyGroups => EngineFault::TooManyGroups,
        AnswerFault::BadDocs => EngineFault::NotASegment(Part::Star(tree)),
        AnswerFault::ReadFault => EngineFault::ReadFault,
        AnswerFault::NoMemory => EngineFault::NoMemory,
    }
}
