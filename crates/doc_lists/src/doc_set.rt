//! Sets of documents, as runs or with a bit for each document.
ghost use Rattle.std.specs.Prelude.{◌≡◌, ◌<◌, ◌+◌, ◌&&◌, ◌||◌, [], All, not, true, length, IfOk, IfSome};
ghost use Rattle.std.specs.List.Sorted.{IsStrictlyIncreasing};
ghost use Rattle.doc_lists.specs.Docs.{has_doc};
ghost use Rattle.doc_lists.specs.Marks.{AreMarksOf};
ghost use Rattle.doc_lists.specs.Sets.{AreThose};

use crate::marks::{add_marks, docs_marked, keep_both, marks_of_docs, marks_of_runs, take_marks};
use crate::{DocList, NoMemory, sets};
use std::alloc::Global;
use std::marker::Model;

// Two lists are met run by run where one of them has so few runs.
const FEW_RUNS: usize = 1024;

// So few documents of a list are looked at one by one in the words of the set that it is met with.
const FEW_DOCS: usize = 32_768;

/// A set of documents, which contracts see as a list of them, ascending and without repeats. It is
/// kept as runs, or as words with a bit for each document, which two sets are met by without a look
/// at each document.
#[derive(Drop)]
pub struct DocSet {
    kept: Kept,
}

/// How the documents of a set are kept.
#[derive(Drop)]
pub enum Kept {
    Runs(DocList),
    Words(Vec<u64>),
}

impl Model for DocSet {
    ghost use Rattle.std.specs.Prelude.{List, ℕ};
    ghost use Rattle.doc_lists.specs.Kept.{IsKept, docs_kept};

    ghost Value = { List ℕ };

    ghost view = { λ set. docs_kept set.kept };

    ghost invariant = { λ set. IsKept set.kept };
}

impl DocSet {
    /// The documents of a list, as runs.
    pub fn of_list(list: DocList) -> DocSet
        ensures { result ≡ list }
    {
        let _ = list.runs();
        DocSet {
            kept: Kept::Runs(list),
        }
    }

    /// Documents in any order, each below a number of rows, as words with a bit for each.
    pub fn of_docs(alloc: Global, rows: u32, docs: &[u32]) -> Result<DocSet, NoMemory>
        requires { All (λ doc. doc < rows) docs.now }
        ensures those { IfOk result (AreThose (has_doc docs.now)) }
        ensures within { IfOk result (λ set. All (λ doc. doc < rows) set) }
    {
        let marks = marks_of_docs(alloc, rows, docs)?;
        Ok(DocSet {
            kept: Kept::Words(marks),
        })
    }

    /// The documents as a list.
    pub fn into_list(self, alloc: Global) -> Result<DocList, NoMemory>
        ensures { IfOk result (λ docs. docs ≡ self) }
    {
        match self.kept {
            Kept::Runs(list) => Ok(list),
            Kept::Words(marks) => docs_marked(alloc, marks.as_slice()),
        }
    }

    // The documents as a list of its own.
    fn listed(&self, alloc: Global) -> Result<DocList, NoMemory>
        ensures { IfOk result (λ docs. docs ≡ self.now) }
    {
        match &self.kept {
            Kept::Runs(list) => list.copied(alloc),
            Kept::Words(marks) => docs_marked(alloc, marks.as_slice()),
        }
    }

    // Whether it is a list of no documents.
    fn has_none(&self) -> bool
        ensures { result ≡ true → self.now ≡ [] }
    {
        match &self.kept {
            Kept::Runs(list) => list.is_empty(),
            Kept::Words(_) => false,
        }
    }

    // A set ascends.
    fn ascends(&self)
        ensures { IsStrictlyIncreasing self.now }
    {
        let _ = &self.kept;
    }

    // Words with a bit for each document.
    fn words(&self, alloc: Global) -> Result<Vec<u64>, NoMemory>
        ensures { IfOk result (λ marks. AreMarksOf (has_doc self.now) marks.items) }
    {
        match &self.kept {
            Kept::Runs(list) => {
                let marks = marks_of_runs(alloc, list.runs())?;
                Ok(marks)
            }
            Kept::Words(marks) => {
                let marks = Vec::from_slice(alloc, marks.as_slice())?;
                Ok(marks)
            }
        }
    }
}

/// The documents that are in both sets.
pub fn meet(alloc: Global, a: &DocSet, b: &DocSet) -> Result<DocSet, NoMemory>
    ensures { IfOk result (AreThose (λ doc. has_doc a.now doc && has_doc b.now doc)) }
{
    if let (Kept::Runs(ours), Kept::Runs(theirs)) = (&a.kept, &b.kept) {
        if ours.runs().len().min(theirs.runs().len()) <= FEW_RUNS {
            return Ok(DocSet::of_list(sets::meet(alloc, ours, theirs)?));
        }
    }
    if let Some(both) = met_by_one(alloc, a, b)? {
        return Ok(both);
    }
    if let Some(both) = met_by_one(alloc, b, a)? {
        return Ok(both);
    }
    let mut marks = a.words(alloc)?;
    let others = b.words(alloc)?;
    keep_both(&mut marks, others.as_slice());
    Ok(DocSet {
        kept: Kept::Words(marks),
    })
}

// The documents that are in both sets, where the first is a list of few.
fn met_by_one(alloc: Global, a: &DocSet, b: &DocSet) -> Result<Option<DocSet>, NoMemory>
    ensures { IfOk result (λ found. IfSome found
        (AreThose (λ doc. has_doc a.now doc && has_doc b.now doc))) }
{
    match (&a.kept, &b.kept) {
        (Kept::Runs(list), Kept::Words(marks)) if list.len() <= FEW_DOCS => {
            let both = sets::marked(alloc, list, marks.as_slice())?;
            Ok(Some(DocSet::of_list(both)))
        }
        (Kept::Runs(list), Kept::Runs(_)) if list.len() <= FEW_DOCS => {
            let marks = b.words(alloc)?;
            let both = sets::marked(alloc, list, marks.as_slice())?;
            Ok(Some(DocSet::of_list(both)))
        }
        _ => Ok(None),
    }
}

/// The documents that are in one of the sets or in both.
pub fn join(alloc: Global, a: &DocSet, b: &DocSet) -> Result<DocSet, NoMemory>
    ensures { IfOk result (AreThose (λ doc. has_doc a.now doc || has_doc b.now doc)) }
{
    if let (Kept::Runs(ours), Kept::Runs(theirs)) = (&a.kept, &b.kept) {
        return Ok(DocSet::of_list(sets::join(alloc, ours, theirs)?));
    }
    let mut ours = a.words(alloc)?;
    let mut theirs = b.words(alloc)?;
    if ours.len() < theirs.len() {
        add_marks(&mut theirs, ours.as_slice());
        return Ok(DocSet {
            kept: Kept::Words(theirs),
        });
    }
    add_marks(&mut ours, theirs.as_slice());
    Ok(DocSet {
        kept: Kept::Words(ours),
    })
}

/// The documents of the first set that are not in the second.
pub fn without(alloc: Global, a: &DocSet, b: &DocSet) -> Result<DocSet, NoMemory>
    ensures { IfOk result (AreThose (λ doc. has_doc a.now doc && not (has_doc b.now doc))) }
{
    if let (Kept::Runs(ours), Kept::Runs(theirs)) = (&a.kept, &b.kept) {
        return Ok(DocSet::of_list(sets::without(alloc, ours, theirs)?));
    }
    let mut marks = a.words(alloc)?;
    let others = b.words(alloc)?;
    take_marks(&mut marks, others.as_slice());
    Ok(DocSet {
        kept: Kept::Words(marks),
    })
}

/// The documents of a set that are in another too, and those that are not.
pub fn parted(alloc: Global, docs: &DocSet, others: &DocSet) -> Result<(DocList, DocList), NoMemory>
    ensures both { IfOk result
        (λ parts. AreThose (λ doc. has_doc docs.now doc && has_doc others.now doc) parts.0) }
    ensures alone { IfOk result
        (λ parts. AreThose (λ doc. has_doc docs.now doc && not (has_doc others.now doc)) parts.1) }
    ensures count { IfOk result (λ parts. length parts.0 + length parts.1 ≡ length docs.now) }
{
    docs.ascends();
    if others.has_none() {
        let all = docs.listed(alloc)?;
        return Ok((DocList::new(alloc), all));
    }
    let both = meet(alloc, docs, others)?;
    let alone = without(alloc, docs, others)?;
    let both = both.into_list(alloc)?;
    let alone = alone.into_list(alloc)?;
    Ok((both, alone))
}
