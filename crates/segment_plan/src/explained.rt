//! How the plan of a segment is written.
ghost use Rattle.std.specs.Prelude.{◌≡◌, ◌∷◌, ◌++◌, OnOk, flat_map, slice_get};
ghost use Rattle.std.specs.Fmt.{decimal};
ghost use Rattle.table_schema.specs.ValidTable.{IsValidTable};
ghost use Rattle.segment_plan.specs.Explained as spec;
ghost use Rattle.segment_plan.specs.declared.plans.SegmentPlan.TheVariants.{StarTree};

use crate::{IndexChoice, NoMemory, SegmentPlan, factors};
use segment_head::Head;
use std::alloc::Global;
use table_schema::{BoundQuery, Table};

/// Appends a plan and its detail: how the rows of each conjunct are found; or the bound on the
/// documents that are read of a tree, as the product that it is.
pub fn push_plan(
    alloc: Global,
    query: &BoundQuery,
    table: &Table,
    head: &Head,
    plan: &SegmentPlan,
    text: &mut Vec<u8>,
) -> Result<(), NoMemory>
    requires valid { IsValidTable table.now }
    requires detailed { spec.IsDetailed query.now table.now head.now plan.now }
    ensures { OnOk result (text.new.items
        ≡ text.old.items ++ spec.plan_text query.now table.now head.now plan.now) }
{
    push_word(alloc, plan, text)?;
    text.push(b',')?;
    match plan {
        SegmentPlan::Pruned => text.extend_from_slice(b"-"),
        SegmentPlan::Empty => text.extend_from_slice(b"-"),
        SegmentPlan::StarTree(tree) => push_tree(alloc, query, table, head, *tree, text),
        SegmentPlan::Scan(plan) => push_choices(plan.choices.as_slice(), text),
    }
}

/// Appends the word for a plan; a tree counts from 1.
pub fn push_word(alloc: Global, plan: &SegmentPlan, text: &mut Vec<u8>) -> Result<(), NoMemory>
    ensures { OnOk result (text.new.items ≡ text.old.items ++ spec.plan_word plan.now) }
{
    match plan {
        SegmentPlan::Pruned => text.extend_from_slice(b"pruned"),
        SegmentPlan::Empty => text.extend_from_slice(b"empty"),
        SegmentPlan::StarTree(tree) => {
            text.extend_from_slice(b"startree ")?;
            push_number(alloc, u32::from(*tree) + 1, text)
        }
        SegmentPlan::Scan(_) => text.extend_from_slice(b"scan"),
    }
}

// Appends the word for each choice, with a space between them.
fn push_choices(choices: &[IndexChoice], text: &mut Vec<u8>) -> Result<(), NoMemory>
    ensures { OnOk result (text.new.items ≡ text.old.items ++ spec.choices_text choices.now) }
{
    match choices {
        [] => text.extend_from_slice(b"-"),
        [first, others @ ..] => {
            text.extend_from_slice(choice_word(*first).as_bytes())?;
            push_others(others, text)
        }
    }
}

// Appends the word for each of these choices after a space.
fn push_others(choices: &[IndexChoice], text: &mut Vec<u8>) -> Result<(), NoMemory>
    ensures { OnOk result (text.new.items
        ≡ text.old.items ++ flat_map (λ choice. 32 ∷ spec.choice_word choice) choices.now) }
{
    for choice in choices {
        text.push(b' ')?;
        text.extend_from_slice(choice_word(*choice).as_bytes())?;
    }
    Ok(())
}

// The word for how the rows of a conjunct are found.
fn choice_word(choice: IndexChoice) -> &'static str
    ensures { result.now ≡ spec.choice_word choice }
{
    match choice {
        IndexChoice::Unindexed => "none",
        IndexChoice::Sorted => "sorted",
        IndexChoice::Inverted => "inverted",
        IndexChoice::Range => "range",
    }
}

// Appends the most documents of a leaf of a tree, and its factors.
fn push_tree(
    alloc: Global,
    query: &BoundQuery,
    table: &Table,
    head: &Head,
    tree: u8,
    text: &mut Vec<u8>,
) -> Result<(), NoMemory>
    requires valid { IsValidTable table.now }
    requires detailed { spec.IsDetailed query.now table.now head.now (StarTree tree) }
    ensures { OnOk result (text.new.items ≡ text.old.items
        ++ spec.tree_text query.now head.now (slice_get table.now.settings.trees tree)) }
{
    let factors = factors(alloc, query, table, head, tree)?;
    let leaf = table.settings.trees.at(tree as usize).shape.leaf;
    push_number(alloc, leaf, text)?;
    push_factors(alloc, factors.as_slice(), text)
}

// Appends each factor after a star.
fn push_factors(alloc: Global, factors: &[u32], text: &mut Vec<u8>) -> Result<(), NoMemory>
    ensures { OnOk result (text.new.items
        ≡ text.old.items ++ flat_map (λ factor. 42 ∷ decimal factor) factors.now) }
{
    for factor in factors {
        text.push(b'*')?;
        push_number(alloc, *factor, text)?;
    }
    Ok(())
}

// Appends a number in decimal.
fn push_number(alloc: Global, number: u32, text: &mut Vec<u8>) -> Result<(), NoMemory>
    ensures { OnOk result (text.new.items ≡ text.old.items ++ decimal number) }
{
    let digits = number.to_string(alloc)?;
    text.extend_from_slice(digits.as_bytes())
}
