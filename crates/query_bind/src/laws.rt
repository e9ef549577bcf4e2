//! What holds of every bound query. Each law is the contract of a function that does nothing.

ghost use Rattle.query_bind.specs.Places.{ItemsAreTerms, KeysAreTerms, HavingAsksWritten};
ghost use Rattle.query_bind.specs.Once.{GroupsStandOnce, GroupsAreNamed, AggsStandOnce, AggsAreWritten};
ghost use Rattle.query_bind.specs.Firsts.{FewGroups, FewAggs, FewKeys, FirstGroup, FirstAgg, FirstKey};

/// At the place of each item is what its term is.
pub fn items_law()
    ensures { ItemsAreTerms }
{}

/// At the place of each key stands what the key stands for.
pub fn keys_law()
    ensures { KeysAreTerms }
{}

/// HAVING tests what is written, by the comparisons and with the literals that are written, joined
/// as they are written.
pub fn having_law()
    ensures { HavingAsksWritten }
{}

/// No group column is too many where there are 8 at most; else it is the first that makes them
/// more.
pub fn groups_law()
    ensures at_most { FewGroups }
    ensures first { FirstGroup }
{}

/// No aggregate is too many where there are 16 at most; else it is the first that makes them more.
pub fn aggs_law()
    ensures at_most { FewAggs }
    ensures first { FirstAgg }
{}

/// No key is too many where there are 16 keys and 16 aggregates at most; else it is the first that
/// makes either more.
pub fn order_law()
    ensures at_most { FewKeys }
    ensures first { FirstKey }
{}

/// Group columns stand once, and are those that are named.
pub fn group_list_law()
    ensures once { GroupsStandOnce }
    ensures named { GroupsAreNamed }
{}

/// Aggregates stand once, and are those that are written.
pub fn agg_list_law()
    ensures once { AggsStandOnce }
    ensures written { AggsAreWritten }
{}
