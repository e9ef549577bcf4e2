//! Marks for documents: words with a bit for each.
ghost use Rattle.std.specs.Prelude.{◌≡◌, ◌≤◌, ◌<◌, ◌+◌, ◌*◌, ◌^◌, ◌&&◌, ◌||◌, ℕ, Bool, All, IfOk, OnOk, not, length};
ghost use Rattle.doc_lists.specs.Docs.{Apart, has_doc, next_from};
ghost use Rattle.doc_lists.specs.Marks.{AreMarksOf, Marked, MarkedBelow, has_bit, is_marked, marked_docs};
ghost use Rattle.doc_lists.specs.Sets.{Swept, in_run, in_runs};

use crate::doc_list::next_after;
use crate::{DocList, NoMemory, Run};
use std::alloc::Global;

// So many marks are one word.
const MARKS: u64 = 64;

/// Marks for documents in any order.
pub fn marks_of_docs(alloc: Global, rows: u32, docs: &[u32]) -> Result<Vec<u64>, NoMemory>
    requires { All (λ doc. doc < rows) docs.now }
    ensures { IfOk result (λ marks. AreMarksOf (has_doc docs.now) marks.items) }
{
    let mut marks = no_marks(alloc, rows as u64)?;
    mark_all(docs, &mut marks);
    Ok(marks)
}

// Words with a bit for each document below one, none of them set.
fn no_marks(alloc: Global, end: u64) -> Result<Vec<u64>, NoMemory>
    requires { end ≤ 2 ^ 32 }
    ensures size { IfOk result (λ marks. end ≤ 64 * length marks.items) }
    ensures at_most { IfOk result (λ marks. length marks.items ≤ 2 ^ 26) }
    ensures none { IfOk result (λ marks. MarkedBelow 0 marks.items) }
{
    vec![in alloc; 0; end.div_ceil(MARKS) as usize]
}

// Marks these documents.
fn mark_all(docs: &[u32], marks: &mut [u64])
    requires { All (λ doc. doc < 64 * length marks.old) docs.now }
    ensures { Marked docs.now marks.old marks.new }
{
    for doc in docs {
        let place = *doc as u64;
        let word = &mut marks[(place / MARKS) as usize];
        *word |= 1 << (place % MARKS);
    }
}

/// Marks for the documents of runs.
pub fn marks_of_runs(alloc: Global, runs: &[Run]) -> Result<Vec<u64>, NoMemory>
    requires { Apart 0 runs.now }
    ensures { IfOk result (λ marks. AreMarksOf (in_runs runs.now) marks.items) }
{
    let mut marks = no_marks(alloc, next_after(runs))?;
    mark_runs(runs, &mut marks);
    Ok(marks)
}

// Marks the documents of runs.
fn mark_runs(runs: &[Run], marks: &mut [u64])
    requires apart { Apart 0 runs.now }
    requires room { next_from 0 runs.now ≤ 64 * length marks.old }
    ensures { (doc : ℕ) →
        is_marked marks.new doc ≡ is_marked marks.old doc || in_runs runs.now doc }
{
    for run in runs {
        mark_run(*run, marks);
    }
}

// Marks the documents of a run, whole words at once.
fn mark_run(run: Run, marks: &mut [u64])
    requires order { run.first ≤ run.last }
    requires room { run.last < 64 * length marks.old }
    ensures { (doc : ℕ) → is_marked marks.new doc ≡ is_marked marks.old doc || in_run doc run }
{
    let end = run.last as u64 + 1;
    let mut doc = run.first as u64;
    while doc < end {
        let word = &mut marks[(doc / MARKS) as usize];
        if doc % MARKS == 0 && doc + MARKS <= end {
            *word = u64::MAX;
            doc += MARKS;
        } else {
            *word |= 1 << (doc % MARKS);
            doc += 1;
        }
    }
}

/// Whether a document is marked.
#[inline(always)]
pub fn is_marked(marks: &[u64], doc: u64) -> bool
    ensures { result ≡ is_marked marks.now doc }
{
    match marks.get((doc / MARKS) as usize) {
        Some(word) => (*word >> (doc % MARKS)) & 1 == 1,
        None => false,
    }
}

/// Leaves the marks that others have too.
pub fn keep_both(marks: &mut Vec<u64>, others: &[u64])
    ensures size { length marks.new.items ≤ length marks.old.items }
    ensures those { (doc : ℕ) →
        is_marked marks.new.items doc ≡ is_marked marks.old.items doc && is_marked others.now doc }
{
    marks.truncate(others.len());
    keep_marks(&mut *marks, others);
}

// Leaves the marks that others have too, in as many words at least.
fn keep_marks(marks: &mut [u64], others: &[u64])
    requires { length marks.old ≤ length others.now }
    ensures { (doc : ℕ) →
        is_marked marks.new doc ≡ is_marked marks.old doc && is_marked others.now doc }
{
    for at in 0..marks.len() {
        marks[at] &= others[at];
    }
}

/// Adds the marks that others have, in as many words at most.
pub fn add_marks(marks: &mut [u64], others: &[u64])
    requires { length others.now ≤ length marks.old }
    ensures { (doc : ℕ) →
        is_marked marks.new doc ≡ is_marked marks.old doc || is_marked others.now doc }
{
    for at in 0..others.len() {
        marks[at] |= others[at];
    }
}

/// Takes the marks away that others have.
pub fn take_marks(marks: &mut [u64], others: &[u64])
    ensures { (doc : ℕ) →
        is_marked marks.new doc ≡ is_marked marks.old doc && not (is_marked others.now doc) }
{
    for at in 0..marks.len().min(others.len()) {
        marks[at] &= !others[at];
    }
}

/// The documents that are marked.
pub fn docs_marked(alloc: Global, marks: &[u64]) -> Result<DocList, NoMemory>
    requires { length marks.now ≤ 2 ^ 26 }
    ensures { IfOk result (λ docs. docs ≡ marked_docs marks.now) }
{
    let mut docs = DocList::new(alloc);
    for (i, word) in marks.iter().enumerate() {
        push_marked(&mut docs, *word, 64 * i as u32)?;
    }
    Ok(docs)
}

// Adds the documents that the bits of a word mark, the first of which is that of `first`.
fn push_marked(docs: &mut DocList, word: u64, first: u32) -> Result<(), NoMemory>
    requires at_most { first + 64 ≤ 2 ^ 32 }
    requires above { All (λ doc. doc < first) docs.old }
    ensures { OnOk result ((test : ℕ → Bool) → Swept test first docs.old →
        ((k : ℕ) → k < 64 → test (first + k) ≡ has_bit word k) →
        Swept test (first + 64) docs.new) }
{
    let mut left = word;
    while left != 0 {
        let place = left.trailing_zeros();
        docs.push(first + place)?;
        left &= !(1 << place);
    }
    Ok(())
}
