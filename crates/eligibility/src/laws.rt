//! The rule in other words: a law, which is the contract of a function that does nothing.
ghost use Rattle.std.specs.Prelude.{◌≡◌, ◌↔◌, true};
ghost use Rattle.table_schema.specs.declared.query.BoundQuery.{BoundQuery};
ghost use Rattle.table_schema.specs.declared.settings.TreeSetting.{TreeSetting};
ghost use Rattle.eligibility.specs.Rule.{is_eligible, Serves};

/// A tree is eligible exactly where it serves all of the query.
pub fn eligible_law()
    ensures { (query : BoundQuery) (tree : TreeSetting) →
        (is_eligible query tree ≡ true) ↔ Serves tree query }
{}
