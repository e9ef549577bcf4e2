//! Whether an index tells the rows of a conjunct, and for which documents.

ghost use Rattle.std.specs.Prelude.{◌≡◌, IfOk};
ghost use Rattle.segment_plan.specs.RowsLeft as left;
ghost use Rattle.segment_plan.specs.Served as spec;

use crate::plans::IndexChoice;
use std::alloc::Global;
use table_schema::Conjunct;
use values::NoMemory;

/// The choice of the conjunct at a place.
pub fn choice_at(choices: &[IndexChoice], at: usize) -> IndexChoice
    ensures { result ≡ spec.choice_at choices.now at }
{
    match choices.get(at) {
        Some(choice) => *choice,
        None => IndexChoice::Unindexed,
    }
}

/// An index tells just the rows of the conjunct.
pub fn is_served(choice: IndexChoice, conjunct: &Conjunct) -> bool
    ensures { result ≡ spec.is_served choice conjunct.now }
{
    match (choice, conjunct) {
        (IndexChoice::Sorted | IndexChoice::Inverted, Conjunct::One(_, _)) => true,
        (_, _) => false,
    }
}

/// The choices for documents that are not to be checked.
pub fn sure_choices(alloc: Global, choices: &[IndexChoice]) -> Result<Vec<IndexChoice>, NoMemory>
    ensures { IfOk result (λ sure. sure.items ≡ left.sure_choices choices.now) }
{
    let mut sure = Vec::with_capacity(alloc, choices.len())?;
    for choice in choices {
        sure.push(sure_choice(*choice))?;
    }
    Ok(sure)
}

// A range index tells just the rows of its conjunct, but for those to be checked.
fn sure_choice(choice: IndexChoice) -> IndexChoice
    ensures { result ≡ left.sure_choice choice }
{
    match choice {
        IndexChoice::Range => IndexChoice::Sorted,
        _ => choice,
    }
}
