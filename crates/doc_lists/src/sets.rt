//! The documents that two lists have in common or apart.
ghost use Rattle.std.specs.Prelude.{◌≡◌, ◌≤◌, ◌<◌, ◌+◌, ◌&&◌, ◌||◌, ◌^◌, ◌⊎◌, ℕ, Bool, not, nat_le, All, drop, take, get_or, length, IfOk, OnOk};
ghost use Rattle.doc_lists.specs.Docs.{Apart, has_doc, next_from};
ghost use Rattle.doc_lists.specs.Marks.{SweepsMarks, is_marked};
ghost use Rattle.doc_lists.specs.Sets.{RemainFrom, AreThose, IsSooner, SameFrom, Swept, SweepsRuns, ends_before, first_in, in_runs};

use crate::doc_list::next_after;
use crate::marks::is_marked;
use crate::{DocList, NoMemory, Run};
use std::alloc::Global;

// Runs are left out by steps that double where so many end too soon, and else one by one.
const MANY: usize = 8;

/// The documents that are in both lists.
pub fn meet(alloc: Global, a: &DocList, b: &DocList) -> Result<DocList, NoMemory>
    ensures { IfOk result (AreThose (λ doc. has_doc a.now doc && has_doc b.now doc)) }
{
    let mut docs = DocList::new(alloc);
    let mut ours = a.runs();
    let mut theirs = b.runs();
    let mut start = 0;
    while !ours.is_empty() && !theirs.is_empty() {
        let one = ours[0];
        let other = theirs[0];
        if ends_before(ours, MANY, other.first as u64) {
            start = other.first as u64;
            ours = left_from(ours, start);
        } else if ends_before(theirs, MANY, one.first as u64) {
            start = one.first as u64;
            theirs = left_from(theirs, start);
        } else {
            let first = start.max(one.first.max(other.first) as u64);
            let end = one.last.min(other.last) as u64 + 1;
            push_from(&mut docs, start, first, end)?;
            ours = without_first(ours, end);
            theirs = without_first(theirs, end);
            start = end;
        }
    }
    Ok(docs)
}

/// The documents of a list that are marked, each of which is looked at.
pub fn marked(alloc: Global, a: &DocList, marks: &[u64]) -> Result<DocList, NoMemory>
    ensures { IfOk result (AreThose (λ doc. has_doc a.now doc && is_marked marks.now doc)) }
{
    let mut docs = DocList::new(alloc);
    let mut ours = a.runs();
    let mut start = 0u64;
    while !ours.is_empty() {
        let first = start.max(ours[0].first as u64);
        let end = ours[0].last as u64 + 1;
        push_marked_from(&mut docs, first, end, marks)?;
        ours = without_first(ours, end);
        start = end;
    }
    Ok(docs)
}

/// The documents that are in one of the lists or in both.
pub fn join(alloc: Global, a: &DocList, b: &DocList) -> Result<DocList, NoMemory>
    ensures { IfOk result (AreThose (λ doc. has_doc a.now doc || has_doc b.now doc)) }
{
    let mut ours = a.runs();
    let mut theirs = b.runs();
    let mut docs = DocList::with_room(alloc, ours.len())?;
    let mut start = 0;
    while !ours.is_empty() || !theirs.is_empty() {
        let count = count_before(ours, first_of(theirs));
        if count > 0 {
            // Nearly all runs, where the first list has many more.
            let alone = preceding(ours, count);
            let end = push_runs_from(&mut docs, start, alone)?;
            ours = following(ours, count);
            start = end;
        } else {
            let run = sooner(ours, theirs);
            let end = run.last as u64 + 1;
            push_from(&mut docs, start, start.max(run.first as u64), end)?;
            ours = left_from(ours, end);
            theirs = left_from(theirs, end);
            start = end;
        }
    }
    Ok(docs)
}

/// The documents of the first list that are not in the second.
pub fn without(alloc: Global, a: &DocList, b: &DocList) -> Result<DocList, NoMemory>
    ensures { IfOk result (AreThose (λ doc. has_doc a.now doc && not (has_doc b.now doc))) }
{
    let mut ours = a.runs();
    if b.is_empty() {
        let all = a.copied(alloc)?;
        return Ok(all);
    }
    let mut docs = DocList::with_room(alloc, ours.len())?;
    let mut theirs = b.runs();
    let mut start = 0u64;
    while !ours.is_empty() {
        let count = count_before(ours, first_of(theirs));
        if count > 0 {
            // Nearly all runs, where the first list has many more.
            let alone = preceding(ours, count);
            let end = push_runs_from(&mut docs, start, alone)?;
            ours = following(ours, count);
            start = end;
        } else {
            let run = ours[0];
            let first = start.max(run.first as u64);
            theirs = left_from(theirs, first);
            let end = end_of_stretch(theirs, first).min(run.last as u64 + 1);
            let kept = if reaches(theirs, first) { end } else { first };
            push_from(&mut docs, start, kept, end)?;
            ours = left_from(ours, end);
            theirs = left_from(theirs, end);
            start = end;
        }
    }
    Ok(docs)
}

// How many runs come first that end before a document.
fn count_before(runs: &[Run], doc: u64) -> usize
    ensures within { result ≤ length runs.now }
    ensures before { next_from 0 (take result runs.now) ≤ doc }
{
    let mut count = 0;
    while count < runs.len() && (runs[count].last as u64) < doc {
        count += 1;
    }
    count
}

// The first document of runs, or one past all where there is none.
fn first_of(runs: &[Run]) -> u64
    ensures { result ≡ first_in runs.now }
{
    match runs {
        [] => 1 << 32,
        [run, ..] => run.first as u64,
    }
}

// The run that begins sooner, of the first runs of two lists.
fn sooner(ours: &[Run], theirs: &[Run]) -> Run
    requires some { (0 < length ours.now) ⊎ (0 < length theirs.now) }
    ensures { (start : ℕ) → RemainFrom start ours.now → RemainFrom start theirs.now →
        IsSooner start ours.now theirs.now result }
{
    if theirs.is_empty() {
        return ours[0];
    }
    if ours.is_empty() {
        return theirs[0];
    }
    if ours[0].first <= theirs[0].first {
        ours[0]
    } else {
        theirs[0]
    }
}

// Whether a document is in runs that do not end before it.
fn reaches(runs: &[Run], doc: u64) -> bool
    requires { RemainFrom doc runs.now }
    ensures { result ≡ in_runs runs.now doc }
{
    match runs {
        [] => false,
        [run, ..] => run.first as u64 <= doc,
    }
}

// Up to where the documents from one on are all in the runs, or all of them are not.
fn end_of_stretch(runs: &[Run], start: u64) -> u64
    requires remain { RemainFrom start runs.now }
    requires within { start < 2 ^ 32 }
    ensures onwards { start < result }
    ensures within { result ≤ 2 ^ 32 }
    ensures stretch { (doc : ℕ) → start ≤ doc → doc < result →
        in_runs runs.now doc ≡ in_runs runs.now start }
{
    match runs {
        [] => 1 << 32,
        [run, ..] if start < run.first as u64 => run.first as u64,
        [run, ..] => run.last as u64 + 1,
    }
}

// The runs from the first on that does not end before a document. It skips twice as many runs each
// time, and half as many where that is too far.
fn left_from(runs: &[Run], doc: u64) -> &[Run]
    requires { Apart 0 runs.now }
    ensures remain { RemainFrom doc result.now }
    ensures same { SameFrom doc runs.now result.now }
{
    let mut left = runs;
    let mut step = 1;
    while ends_before(left, 1, doc) {
        if ends_before(left, step, doc) {
            left = following(left, step);
            step = step.saturating_mul(2);
        } else {
            step /= 2;
        }
    }
    left
}

// The runs after so many.
fn following(runs: &[Run], count: usize) -> &[Run]
    requires { count ≤ length runs.now }
    ensures { result.now ≡ drop count runs.now }
{
    &runs[count..]
}

// The first so many runs.
fn preceding(runs: &[Run], count: usize) -> &[Run]
    requires { count ≤ length runs.now }
    ensures { result.now ≡ take count runs.now }
{
    &runs[..count]
}

// Whether there are so many runs and the last of them ends before a document.
fn ends_before(runs: &[Run], count: usize, doc: u64) -> bool
    requires { 1 ≤ count }
    ensures { result ≡ ends_before runs.now count doc }
{
    count <= runs.len() && (runs[count - 1].last as u64) < doc
}

// The runs without the first, where it ends before a document.
fn without_first(runs: &[Run], doc: u64) -> &[Run]
    requires some { 0 < length runs.now }
    requires apart { Apart 0 runs.now }
    requires near { (d : Run) → doc ≤ (get_or runs.now 0 d).last + 1 }
    ensures remain { RemainFrom doc result.now }
    ensures same { SameFrom doc runs.now result.now }
{
    &runs[((runs[0].last as u64) < doc) as usize..]
}

// Adds the documents of a stretch from one of them on, where it has any.
fn push_from(docs: &mut DocList, start: u64, first: u64, end: u64) -> Result<(), NoMemory>
    requires order { start ≤ first }
    requires onwards { start ≤ end }
    requires within { end ≤ 2 ^ 32 }
    requires above { All (λ doc. doc < start) docs.old }
    ensures below { OnOk result (All (λ doc. doc < end) docs.new) }
    ensures swept { OnOk result ((test : ℕ → Bool) → Swept test start docs.old →
        ((doc : ℕ) → start ≤ doc → doc < end → test doc ≡ nat_le first doc) →
        Swept test end docs.new) }
{
    if end <= first {
        return Ok(());
    }
    let run = Run {
        first: first as u32,
        last: (end - 1) as u32,
    };
    docs.push_run(run)
}

// Adds the documents from one up to another that are marked.
fn push_marked_from(docs: &mut DocList, first: u64, end: u64, marks: &[u64]) -> Result<(), NoMemory>
    requires order { first ≤ end }
    requires within { end ≤ 2 ^ 32 }
    requires above { All (λ doc. doc < first) docs.old }
    ensures { OnOk result (SweepsMarks first end marks.now docs.old docs.new) }
{
    for doc in first..end {
        if is_marked(marks, doc) {
            docs.push(doc as u32)?;
        }
    }
    Ok(())
}

// Adds the documents of runs from one of them on, and says up to where they are.
fn push_runs_from(docs: &mut DocList, start: u64, runs: &[Run]) -> Result<u64, NoMemory>
    requires some { 0 < length runs.now }
    requires remain { RemainFrom start runs.now }
    requires above { All (λ doc. doc < start) docs.old }
    ensures end { IfOk result (λ end. end ≡ next_from 0 runs.now) }
    ensures swept { OnOk result (SweepsRuns start runs.now docs.old docs.new) }
{
    let first = runs[0];
    let end = first.last as u64 + 1;
    push_from(docs, start, start.max(first.first as u64), end)?;
    let rest = following(runs, 1);
    docs.push_runs(rest)?;
    Ok(next_after(runs))
}
