//! Names of a query, looked up in maps.

ghost use Rattle.query_bind.specs.LookUps.{KnowsGroups, KnowsLabels};
ghost use Rattle.query_bind.specs.Grouped.{is_grouped};
ghost use Rattle.query_bind.specs.Names as names;
ghost use Rattle.std.specs.Prelude.{◌≡◌, IfOk};

use query_tokens::{NameAt, Query, QueryItem, Term};
use std::alloc::Global;
use std::collections::HashMap;
use values::NoMemory;

/// The terms of items by their AS names.
type Labels<'q> = HashMap<&'q str, &'q Term>;

/// The names of GROUP BY, each by its text.
type Groups<'q> = HashMap<&'q str, &'q NameAt>;

/// A query, with its AS names and the names of GROUP BY in maps.
#[derive(Drop)]
pub struct QueryNames<'q> {
    pub query: &'q Query,
    labels: Labels<'q>,
    groups: Groups<'q>,
    ghost labels_known: { KnowsLabels query.now.items labels },
    ghost groups_known: { KnowsGroups query.now.groups groups },
}

impl<'q> QueryNames<'q> {
    pub fn new(alloc: Global, query: &'q Query) -> Result<Self, NoMemory>
        ensures { IfOk result (λ names. names.query.now ≡ query.now) }
    {
        let labels = labels_of(alloc, query.items.as_slice())?;
        let groups = groups_of(alloc, query.groups.as_slice())?;
        Ok(QueryNames {
            query,
            labels,
            groups,
        })
    }

    /// The term that a key stands for.
    pub fn term_of(&self, term: &'q Term) -> &'q Term
        ensures { result.now ≡ names.term_of self.now.query.now.items term.now }
    {
        let Term::Column(name) = term else {
            return term;
        };
        match self.labels.get(&name.name.as_str()) {
            Some(named) => named,
            None => term,
        }
    }

    /// Whether GROUP BY has the name.
    pub fn is_grouped(&self, name: &NameAt) -> bool
        ensures { result ≡ is_grouped self.now.query.now.groups name.now }
    {
        self.groups.contains_key(&name.name.as_str())
    }
}

/// The term of the first item with each AS name: the last one is put in first.
fn labels_of<'q>(alloc: Global, items: &'q [QueryItem]) -> Result<Labels<'q>, NoMemory>
    ensures { IfOk result (KnowsLabels items.now) }
{
    let mut terms: HashMap<&'q str, &'q Term> = HashMap::new(alloc);
    let mut left = items.len();
    while left > 0 {
        left -= 1;
        let item = &items[left];
        if let Some(label) = &item.label {
            terms.insert(label.name.as_str(), &item.term)?;
        }
    }
    Ok(terms)
}

/// The names of GROUP BY, each once.
fn groups_of<'q>(alloc: Global, groups: &'q [NameAt]) -> Result<Groups<'q>, NoMemory>
    ensures { IfOk result (KnowsGroups groups.now) }
{
    let mut names: HashMap<&'q str, &'q NameAt> = HashMap::new(alloc);
    for group in groups {
        names.insert(group.name.as_str(), group)?;
    }
    Ok(names)
}
