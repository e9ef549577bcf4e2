//! Tables of documents.

ghost use Rattle.std.specs.Prelude.{◌≡◌, ◌+◌, ◌-◌, ◌<◌, ◌≤◌, ◌==◌, max, [], ◌∷◌, ◌++◌, length};
ghost use Rattle.std.specs.Prelude.{take, drop, List, slice_get, Some, None, IsTrue, OnOk, OnErr};
ghost use Rattle.std.specs.Prelude.{IfOk, vec_capacity, map, All};
ghost use Rattle.std.specs.List.Sorted.{IsSortedBy, IsPermutation};
ghost use Rattle.std.specs.Ordering.{is_lt, is_gt};
ghost use Rattle.std.specs.FinMap.{is_sorted};
ghost use Rattle.agg_laws.specs.Numbers.{most_stored, AreWhole};
ghost use Rattle.agg_laws.specs.Rows.{kinds_of, merged_rows, row_of, row_weight};
ghost use Rattle.agg_laws.specs.Rows.{RowStored};
ghost use Rattle.agg_laws.specs.Merged.{add, rekey, total, weights};
ghost use Rattle.agg_laws.specs.Tree.{dim, dims_order, merged_docs, set_star};
ghost use Rattle.state_columns.specs.Docs.{Doc, doc_of, doc_at, HaveShape, AreStored};
ghost use Rattle.state_columns.specs.Documents.{aggregated, AreAlike};
ghost use Rattle.state_columns.specs.Region.{range, numbers};
ghost use Rattle.state_columns.specs.Packing.{place, IsWord};
ghost use Rattle.state_columns.specs.Grouping.{starred_docs, with_states, AreGroups};
ghost use Rattle.std.specs.Option.{IfSome};
ghost use Rattle.star_table.specs.Tables.{AreMergeable, FitMerged};

use agg_laws::{AggState, Kinds, NoMemory, TreeShape};
use state_columns::{
    Groups, STAR, Span, StarRow, StateColumn, add_values_at, combinations, compare_starred,
    compare_to, first_numbers, merge_places, new_columns, packed, places, push_copies, push_states,
    push_values, put_again, put_all, reserve_columns, slots_of, split_words, tail_columns, tail_of,
    word_key, word_place,
};
use std::alloc::{AllocError, Global};
use std::cmp::Ordering;
use std::marker::Model;

/// Documents of one shape: each has one id for each split dimension, and one state of each kind.
/// Their ids are one after the other, their states pair by pair.
#[derive(Drop)]
pub struct StarTable {
    dims: u8,
    kinds: Kinds,
    count: usize,
    spare: usize,
    ids: Vec<u32>,
    columns: Vec<StateColumn>,
}

impl Model for StarTable {
    ghost use Rattle.std.specs.Prelude.{length, vec_capacity};
    ghost use Rattle.state_columns.specs.Docs.{Docs};
    ghost use Rattle.state_columns.specs.Region.{docs_in, IsRegion};

    ghost Value = { Docs };

    ghost view = { λ t. record {
      dims = t.dims;
      kinds = t.kinds;
      docs = docs_in t.count t.dims t.ids.items t.columns.items;
      spare = t.spare;
    } };

    ghost invariant = { λ t. IsRegion t.count t.dims t.kinds t.ids.items t.columns.items t.spare
        (vec_capacity t.ids) };
}

/// Each item of a list of 64-bit numbers is one. It is known of an item that is read, so they are
/// read; it costs nothing.
#[inline(always)]
fn are_whole(values: &[i64])
    ensures { AreWhole values.now }
{
    for i in 0..values.len() {
        let _ = values[i];
    }
}

impl StarTable {
    /// No documents, of the shape.
    pub fn new(alloc: Global, shape: &TreeShape) -> Result<StarTable, NoMemory>
        requires { length shape.now.kinds ≤ 16 }
        ensures { IfOk result (λ table. table
            ≡ record { dims = shape.now.dims; kinds = shape.now.kinds; docs = []; spare = 0 }) }
    {
        Ok(StarTable {
            dims: shape.dims,
            kinds: shape.kinds.copy(alloc)?,
            count: 0,
            spare: 0,
            ids: Vec::new(alloc),
            columns: new_columns(alloc, shape.kinds.as_slice())?,
        })
    }

    pub fn len(&self) -> usize
        ensures count { result ≡ length self.now.docs }
        ensures shape { HaveShape self.now.dims self.now.kinds self.now.docs }
        ensures stored { AreStored self.now.docs }
    {
        self.count
    }

    pub fn is_empty(&self) -> bool
        ensures { result ≡ (length self.now.docs == 0) }
    {
        self.count == 0
    }

    /// How many ids each document has.
    pub fn dims(&self) -> u8
        ensures { result ≡ self.now.dims }
    {
        self.dims
    }

    /// The kinds of each document's states, in order.
    pub fn kinds(&self) -> &Kinds
        ensures { result.now ≡ self.now.kinds }
    {
        &self.kinds
    }

    /// The id of a document in a split dimension.
    pub fn dim(&self, at: u32, level: u8) -> u32
        requires at { at < length self.now.docs }
        requires level { level < self.now.dims }
        ensures { result ≡ dim level (doc_at self.now.docs at).0 }
    {
        let place = at as usize * self.dims as usize + level as usize;
        self.ids[place]
    }

    /// The state of a document for a pair.
    pub fn state(&self, at: u32, pair: u8) -> AggState
        requires at { at < length self.now.docs }
        requires pair { pair < length self.now.kinds }
        ensures { slice_get (doc_at self.now.docs at).1 pair ≡ Some result }
    {
        self.columns[pair as usize].at(at as usize)
    }

    /// Makes room for more documents.
    pub fn reserve(&mut self, more: u32) -> Result<(), NoMemory>
        ensures ok { OnOk result (self.new ≡ record self.old { spare = max self.old.spare more }) }
        ensures err { OnErr result (self.new ≡ self.old) }
    {
        let more = more as usize;
        if more <= self.spare {
            return Ok(());
        }
        if usize::MAX - self.count < more {
            return Err(AllocError);
        }
        self.ids.reserve(more * self.dims as usize)?;
        reserve_columns(self.columns.as_mut_slice(), more)?;
        self.spare = more;
        Ok(())
    }

    /// Adds a document of the table's shape, for which there is room. It takes no memory.
    pub fn append(&mut self, row: &StarRow)
        requires spare { 1 ≤ self.old.spare }
        requires dims { length row.now.dims ≡ self.old.dims }
        requires kinds { kinds_of row.now.states ≡ self.old.kinds }
        requires stored { RowStored row.now.states }
        ensures { self.new ≡ record self.old {
          docs = self.old.docs
              ++ doc_of row.now ∷ [];
          spare = self.old.spare - 1;
        } }
    {
        self.append_parts(row.dims.as_slice(), row.states.as_slice());
    }

    /// Adds the document of some ids and states, of the table's shape, for which there is room. It
    /// takes no memory.
    pub fn append_parts(&mut self, ids: &[u32], states: &[AggState])
        requires spare { 1 ≤ self.old.spare }
        requires dims { length ids.now ≡ self.old.dims }
        requires kinds { kinds_of states.now ≡ self.old.kinds }
        requires stored { RowStored states.now }
        ensures { self.new ≡ record self.old {
          docs = self.old.docs
              ++ (ids.now, states.now) ∷ [];
          spare = self.old.spare - 1;
        } }
    {
        put_all(&mut self.ids, ids);
        push_states(self.columns.as_mut_slice(), states, self.count);
        self.count += 1;
        self.spare -= 1;
    }

    /// Adds the document of one row: its ids, and a value for each pair. There is room for it, and
    /// it takes no memory.
    pub fn append_values(&mut self, ids: &[u32], values: &[i64])
        requires spare { 1 ≤ self.old.spare }
        requires dims { length ids.now ≡ self.old.dims }
        requires values { length values.now ≡ length self.old.kinds }
        ensures appended { self.new ≡ record self.old {
          docs = self.old.docs
              ++ (ids.now, row_of self.old.kinds (values.now ∷ [])) ∷ [];
          spare = self.old.spare - 1;
        } }
        ensures weight_fits { row_weight (row_of self.old.kinds (values.now ∷ [])) ≤ 1 }
    {
        are_whole(values);
        put_all(&mut self.ids, ids);
        push_values(self.columns.as_mut_slice(), values, self.count);
        self.count += 1;
        self.spare -= 1;
    }

    /// Adds a document that is there already once more.
    fn repeat(&mut self, from: u32)
        requires from { from < length self.old.docs }
        requires spare { 1 ≤ self.old.spare }
        ensures { self.new ≡ record self.old {
          docs = self.old.docs
              ++ doc_at self.old.docs from ∷ [];
          spare = self.old.spare - 1;
        } }
    {
        let dims = self.dims as usize;
        put_again(&mut self.ids, from as usize * dims, dims);
        push_copies(self.columns.as_mut_slice(), from as usize, self.count);
        self.count += 1;
        self.spare -= 1;
    }

    /// Sets a dimension of the last document to star. Past the last dimension it sets none.
    fn star_last(&mut self, level: usize)
        requires some { 0 < length self.old.docs }
        ensures { (front : List Doc) (e : Doc) → self.old.docs ≡ front ++ e ∷ []
            → self.new ≡ record self.old { docs = front ++ (set_star level e.0, e.1) ∷ [] } }
    {
        if level >= self.dims as usize {
            return;
        }
        let place = (self.count - 1) * self.dims as usize + level;
        self.ids[place] = STAR;
    }

    /// Merges the states of a document into those of another one.
    fn merge_at(&mut self, into: usize, from: u32)
        requires into { into < length self.old.docs }
        requires from { from < length self.old.docs }
        requires weight_fits { row_weight (doc_at self.old.docs into).1
            + row_weight (doc_at self.old.docs from).1 ≤ most_stored }
        ensures { self.new ≡ record self.old {
          docs = with_states into (merged_rows (doc_at self.old.docs into).1
              (doc_at self.old.docs from).1) self.old.docs;
        } }
    {
        merge_places(self.columns.as_mut_slice(), into, from as usize, self.count);
    }

    /// Merges the states of a document into those of the last one.
    fn merge_last(&mut self, from: u32)
        requires from { from + 1 < length self.old.docs }
        requires weight_fits { (front : List Doc) (e : Doc) → self.old.docs ≡ front ++ e ∷ []
            → row_weight e.1 + row_weight (doc_at self.old.docs from).1 ≤ most_stored }
        ensures { (front : List Doc) (e : Doc) → self.old.docs ≡ front ++ e ∷ []
            → self.new ≡ record self.old {
              docs = front
                  ++ (e.0, merged_rows e.1 (doc_at self.old.docs from).1) ∷ [];
            } }
    {
        let last = self.count - 1;
        merge_places(self.columns.as_mut_slice(), last, from as usize, self.count);
    }

    /// Adds a row of values to the last document. It takes no memory.
    pub fn add_last(&mut self, values: &[i64])
        requires some { 0 < length self.old.docs }
        requires values { length values.now ≡ length self.old.kinds }
        requires weight_fits { (front : List Doc) (e : Doc) → self.old.docs ≡ front ++ e ∷ []
            → row_weight e.1 + 1 ≤ most_stored }
        ensures { (front : List Doc) (e : Doc) → self.old.docs ≡ front ++ e ∷ []
            → self.new ≡ record self.old {
              docs = front
                  ++ (e.0, merged_rows e.1 (row_of self.old.kinds (values.now ∷ []))) ∷ [];
            } }
    {
        are_whole(values);
        let last = self.count - 1;
        add_values_at(self.columns.as_mut_slice(), last, values, self.count);
    }

    /// Adds the aggregated document of a range, whose documents have the same ids below the level.
    /// There is room for it, and it takes no memory.
    pub fn append_total(&mut self, start: u32, end: u32, level: u8)
        requires range { AreMergeable start end self.old.docs }
        requires level { level ≤ self.old.dims }
        requires alike { AreAlike level (range start end self.old.docs) }
        requires spare { 1 ≤ self.old.spare }
        ensures { self.new ≡ record self.old {
          docs = self.old.docs
              ++ aggregated merged_rows level (range start end self.old.docs);
          spare = self.old.spare
              - 1;
        } }
    {
        self.repeat(start);
        for at in level..self.dims {
            self.star_last(at as usize);
        }
        for from in start + 1..end {
            self.merge_last(from);
        }
    }

    /// The ids of a document, or none where there is no such document.
    fn ids_of(&self, at: usize) -> &[u32]
        ensures { result.now ≡ (doc_at self.now.docs at).0 }
    {
        if at >= self.count {
            return &[];
        }
        let dims = self.dims as usize;
        &self.ids[at * dims..at * dims + dims]
    }

    /// The order of two documents, where a dimension is starred in both.
    fn starred_cmp(&self, a: &u32, b: &u32, level: u8) -> Ordering
        ensures { result ≡ dims_order (set_star level (doc_at self.now.docs a.now).0) (set_star
            level (doc_at self.now.docs b.now).0) }
    {
        let a = self.ids_of(*a as usize);
        let b = self.ids_of(*b as usize);
        compare_starred(a, b, level as usize)
    }

    /// What the ids of a dimension lie within, in a range where a dimension is starred.
    fn span(&self, start: u32, end: u32, dim: u8, level: u8) -> Span
        requires end { end ≤ length self.now.docs }
        requires dim { dim < self.now.dims }
    {
        let mut least = u32::MAX;
        let mut most = 0;
        if dim == level {
            return Span { least, above: 0 };
        }
        for at in start..end {
            let id = self.dim(at, dim);
            least = least.min(id);
            most = most.max(id);
        }
        Span {
            least,
            above: most.wrapping_sub(least),
        }
    }

    /// What the ids of each dimension lie within.
    fn spans(&self, start: u32, end: u32, level: u8) -> Result<Vec<Span>, NoMemory>
        requires { end ≤ length self.now.docs }
    {
        let mut spans = Vec::with_capacity(*self.ids.allocator(), self.dims as usize)?;
        for dim in 0..self.dims {
            spans.push(self.span(start, end, dim, level))?;
        }
        Ok(spans)
    }

    /// A word for each document of a range, where a dimension is starred: its combination above its
    /// place in the range. None where they take more bits than a word has.
    fn words(
        &self,
        start: u32,
        end: u32,
        level: u8,
        spans: &[Span],
    ) -> Result<Option<Vec<u64>>, NoMemory>
        requires { start ≤ end }
        ensures { IfOk result (λ found. IfSome found (λ words. (map (place start) words.items
            ≡ numbers start end)
            × All (IsWord spans.now level start self.now.docs) words.items)) }
    {
        if end - start > 1048576 {
            return Ok(None);
        }
        let mut words = Vec::with_capacity(*self.ids.allocator(), (end - start) as usize)?;
        for at in start..end {
            match packed(self.ids_of(at as usize), spans, level as usize) {
                None => return Ok(None),
                Some(key) => {
                    if key >= 17592186044416 {
                        return Ok(None);
                    }
                    words.push(key * 1048576 + (at - start) as u64)?;
                }
            }
        }
        Ok(Some(words))
    }

    /// The numbers of a range in the ascending order of their documents once a dimension is
    /// starred, by comparing them.
    fn compared_order(&self, start: u32, end: u32, level: u8) -> Result<Vec<u32>, NoMemory>
        requires { start ≤ end }
        ensures { IfOk result (λ order. IsPermutation (numbers start end) order.items
            × IsSortedBy (λ a b. is_lt (dims_order (set_star level (doc_at self.now.docs a).0)
            (set_star level (doc_at self.now.docs b).0))) order.items) }
    {
        let mut order: Vec<u32> = Vec::with_capacity(
            *self.ids.allocator(),
            (end - start) as usize,
        )?;
        for at in start..end {
            order.push(at)?;
        }
        order.sort_by(|a, b| self.starred_cmp(a, b, level))?;
        Ok(order)
    }

    /// The numbers of a range, in the ascending order of their documents once a dimension is
    /// starred.
    fn starred_order(
        &self,
        start: u32,
        end: u32,
        level: u8,
        spans: &[Span],
    ) -> Result<Vec<u32>, NoMemory>
        requires order { start ≤ end }
        requires within { end ≤ length self.now.docs }
        ensures { IfOk result (λ order. IsPermutation (numbers start end) order.items
            × IsSortedBy (λ a b. is_lt (dims_order (set_star level (doc_at self.now.docs a).0)
            (set_star level (doc_at self.now.docs b).0))) order.items) }
    {
        match self.words(start, end, level, spans)? {
            None => self.compared_order(start, end, level),
            Some(mut words) => {
                words.sort()?;
                places(*self.ids.allocator(), words.as_slice(), start)
            }
        }
    }

    /// Adds a document with a dimension starred: its states to the last document, where that is not
    /// one of the first `before` and has the same ids; else at the end.
    fn add_starred(&mut self, before: usize, from: u32, level: u8)
        requires from { from < before }
        requires before { before ≤ length self.old.docs }
        requires spare { 1 ≤ self.old.spare }
        requires weight_fits { weights row_weight (drop before self.old.docs) + row_weight (doc_at
            self.old.docs from).1 ≤ most_stored }
        requires ascending { IsTrue (is_sorted dims_order (drop before self.old.docs)) }
        requires none_above { total merged_rows (λ x. is_gt (dims_order x (set_star level (doc_at
            self.old.docs from).0))) (drop before self.old.docs) ≡ None }
        ensures docs { self.new.docs ≡ take before self.old.docs
            ++ add dims_order merged_rows (set_star level (doc_at self.old.docs from).0) (doc_at
            self.old.docs from).1 (drop before self.old.docs) }
        ensures room { self.new.spare + length self.new.docs
            ≡ self.old.spare + length self.old.docs }
        ensures dims { self.new.dims ≡ self.old.dims }
        ensures kinds { self.new.kinds ≡ self.old.kinds }
    {
        if self.count > before {
            let last = self.ids_of(self.count - 1);
            if compare_to(last, self.ids_of(from as usize), level as usize).is_eq() {
                self.merge_last(from);
                return;
            }
        }
        self.repeat(from);
        self.star_last(level as usize);
    }

    /// Adds the documents of a range with a dimension starred, merged, given their numbers in the
    /// ascending order that they have then.
    fn append_ordered(&mut self, start: u32, end: u32, level: u8, order: &[u32])
        requires range { FitMerged start end self.old }
        requires all { IsPermutation (numbers start end) order.now }
        requires ascending { IsSortedBy (λ a b. is_lt (dims_order (set_star level (doc_at
            self.old.docs a).0) (set_star level (doc_at self.old.docs b).0))) order.now }
        ensures { self.new ≡ record self.old {
          docs = self.old.docs ++ merged_docs merged_rows (rekey (set_star level) (range start
              end self.old.docs));
          spare = self.old.spare - length (merged_docs merged_rows (rekey (set_star level) (range
              start end self.old.docs)));
        } }
    {
        let before = self.count;
        for i in 0..order.len() {
            self.add_starred(before, order[i], level);
        }
    }

    /// The documents of a range by combination, once a dimension is starred. None where there may
    /// be more combinations than documents, or they take more bits than a word has.
    fn groups(
        &self,
        start: u32,
        end: u32,
        level: u8,
        spans: &[Span],
    ) -> Result<Option<Groups>, NoMemory>
        requires { start ≤ end }
        ensures { IfOk result (λ found. IfSome found (λ groups. AreGroups start end level
            self.now.docs groups.firsts.items groups.slots.items groups.others.items)) }
    {
        let Some(keys) = combinations(spans, end - start) else {
            return Ok(None);
        };
        let Some(words) = self.words(start, end, level, spans)? else {
            return Ok(None);
        };
        let alloc = *self.ids.allocator();
        let Some(parts) = split_words(alloc, words, keys)? else {
            return Ok(None);
        };
        let firsts = first_numbers(alloc, parts.table.as_slice(), start)?;
        let slots = slots_of(alloc, parts.table.as_slice())?;
        Ok(Some(Groups {
            firsts,
            slots,
            others: parts.others,
        }))
    }

    /// Adds documents with a dimension starred, one by one.
    fn append_firsts(&mut self, firsts: &[u32], level: u8)
        requires there { All (λ i. i < length self.old.docs) firsts.now }
        requires spare { length firsts.now ≤ self.old.spare }
        ensures { self.new ≡ record self.old {
          docs = self.old.docs ++ starred_docs level self.old.docs firsts.now;
          spare = self.old.spare - length firsts.now;
        } }
    {
        for i in 0..firsts.len() {
            self.repeat(firsts[i]);
            self.star_last(level as usize);
        }
    }

    /// Adds the documents of a range with a dimension starred, merged, given by combination.
    fn append_groups(&mut self, start: u32, end: u32, level: u8, groups: &Groups)
        requires range { FitMerged start end self.old }
        requires groups { AreGroups start end level self.old.docs groups.now.firsts.items
            groups.now.slots.items groups.now.others.items }
        ensures { self.new ≡ record self.old {
          docs = self.old.docs ++ merged_docs merged_rows (rekey (set_star level) (range start
              end self.old.docs));
          spare = self.old.spare - length (merged_docs merged_rows (rekey (set_star level) (range
              start end self.old.docs)));
        } }
    {
        let before = self.count;
        self.append_firsts(groups.firsts.as_slice(), level);
        for i in 0..groups.others.len() {
            let word = groups.others[i];
            let slot = groups.slots[word_key(word)];
            self.merge_at(before + slot as usize - 1, word_place(word, start));
        }
    }

    /// Adds the documents of a range with a dimension starred, merged and ascending, and answers
    /// how many they are. There is room for as many as the range has. Past the last dimension none
    /// is starred.
    pub fn append_starred(&mut self, start: u32, end: u32, level: u8) -> Result<u32, NoMemory>
        requires { FitMerged start end self.old }
        ensures ok { OnOk result (self.new ≡ record self.old {
          docs = self.old.docs ++ merged_docs merged_rows (rekey (set_star level) (range start
              end self.old.docs));
          spare = self.old.spare - length (merged_docs merged_rows (rekey (set_star level) (range
              start end self.old.docs)));
        }) }
        ensures count { IfOk result (λ n. n
            ≡ length (merged_docs merged_rows (rekey (set_star level) (range start end
            self.old.docs)))) }
        ensures err { OnErr result (self.new ≡ self.old) }
    {
        let before = self.count;
        let spans = self.spans(start, end, level)?;
        let spans = spans.as_slice();
        match self.groups(start, end, level, spans)? {
            Some(groups) => self.append_groups(start, end, level, &groups),
            None => {
                let order = self.starred_order(start, end, level, spans)?;
                self.append_ordered(start, end, level, order.as_slice());
            }
        }
        Ok((self.count - before) as u32)
    }

    /// Adds the documents of a range, merged and ascending, and answers how many they are. There is
    /// room for as many as the range has.
    pub fn append_merged(&mut self, start: u32, end: u32) -> Result<u32, NoMemory>
        requires { FitMerged start end self.old }
        ensures ok { OnOk result (self.new ≡ record self.old {
          docs = self.old.docs ++ merged_docs merged_rows (range start end self.old.docs);
          spare = self.old.spare - length (merged_docs merged_rows (range start end
              self.old.docs));
        }) }
        ensures count { IfOk result (λ n. n
            ≡ length (merged_docs merged_rows (range start end self.old.docs))) }
        ensures err { OnErr result (self.new ≡ self.old) }
    {
        let level = self.dims;
        self.append_starred(start, end, level)
    }

    /// The documents from a number on, as a table of their own.
    pub fn tail(&self, from: u32) -> Result<StarTable, NoMemory>
        requires { from ≤ length self.now.docs }
        ensures { IfOk result (λ table. table
            ≡ record self.now { docs = drop from self.now.docs; spare = 0 }) }
    {
        let alloc = *self.ids.allocator();
        let from = from as usize;
        Ok(StarTable {
            dims: self.dims,
            kinds: self.kinds.copy(alloc)?,
            count: self.count - from,
            spare: 0,
            ids: tail_of(alloc, &self.ids, from * self.dims as usize)?,
            columns: tail_columns(alloc, self.columns.as_slice(), from, self.count)?,
        })
    }
}
