//! What a query asks of each split dimension of a star-tree.

ghost use Rattle.std.specs.Prelude.{◌≡◌, ◌<◌, ◌≤◌, ◌-◌, ◌||◌, length};
ghost use Rattle.star_tree.specs.Picks.{are_unconstrained, is_selected};
ghost use Rattle.star_walk.specs.Walking.{task_of, is_tested, passes, is_grouped, HasEach};

use data_types::Seq;
use state_columns::STAR;
use value_ids::IdSet;

/// The ids that pass the tests of each split dimension, where it is tested, and whether the
/// dimension is grouped.
#[derive(Drop)]
pub struct Task {
    pub matched: Seq<Option<IdSet>>,
    pub grouped: Seq<bool>,
}

impl Task {
    /// Whether ids of the dimension are tested.
    pub(crate) fn is_tested(&self, dim: usize) -> bool
        requires { dim < length self.now.matched }
        ensures { result ≡ is_tested self.now.matched dim }
    {
        self.matched.at(dim).is_some()
    }

    /// Whether an id of the dimension passes its tests.
    pub fn passes(&self, dim: usize, id: u32) -> bool
        requires { dim < length self.now.matched }
        ensures { result ≡ passes self.now.matched dim id }
    {
        match self.matched.at(dim) {
            Some(ids) => ids.contains(id),
            None => true,
        }
    }

    /// Whether a query groups by the dimension.
    pub fn is_grouped(&self, dim: usize) -> bool
        requires { dim < length self.now.grouped }
        ensures { result ≡ is_grouped self.now.grouped dim }
    {
        *self.grouped.at(dim)
    }

    /// Whether a dimension is tested or grouped.
    fn constrains(&self, dim: usize) -> bool
        requires each { HasEach self.now.matched self.now.grouped }
        requires dim { dim < length self.now.matched }
        ensures { result ≡ (is_tested self.now.matched dim || is_grouped self.now.grouped dim) }
    {
        self.is_tested(dim) || self.is_grouped(dim)
    }

    /// Whether no dimension from a level on is tested or grouped.
    pub(crate) fn is_unconstrained(&self, level: usize) -> bool
        requires each { HasEach self.now.matched self.now.grouped }
        requires level { level ≤ length self.now.matched }
        ensures { result ≡ are_unconstrained (task_of self.now.matched self.now.grouped)
            (length self.now.matched - level) level }
    {
        for dim in level..self.matched.len() {
            if self.constrains(dim) {
                return false;
            }
        }
        true
    }

    /// Whether a child of a node of this level is taken, where the node has a star child or not.
    pub fn takes(&self, starred: bool, level: usize, id: u32) -> bool
        requires each { HasEach self.now.matched self.now.grouped }
        requires level { level < length self.now.matched }
        ensures { result ≡
            is_selected (task_of self.now.matched self.now.grouped) starred level id }
    {
        if self.is_tested(level) {
            return id != STAR && self.passes(level, id);
        }
        if self.is_grouped(level) {
            return id != STAR;
        }
        !starred || id == STAR
    }
}
