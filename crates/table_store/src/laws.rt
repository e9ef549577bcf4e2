//! Laws of the files that a state is kept in.
ghost use Rattle.table_store.specs.Stands.{CreateStands, DropStands, EmptyStands, KeptIdle, KeptStay, NamesCount, NamesStand, ReplaceStands, SegmentStands, StandsForOne, TableStands};

/// Files stand for at most one state.
pub fn one_state_law()
    ensures { StandsForOne }
{}

/// Where no file is published, there is no table.
pub fn empty_stands_law()
    ensures { EmptyStands }
{}

/// Where there is no table, the file of accepted texts makes a store that stands for them, without
/// segments.
pub fn create_stands_law()
    ensures { CreateStands }
{}

/// Where a store stands for a table, the file of the table is of that one.
pub fn table_stands_law()
    ensures { TableStands }
{}

/// Where there are fewer than the most segments and none of a name, the image of rows under that
/// name makes a store that stands for the state with them.
pub fn segment_stands_law()
    ensures { SegmentStands }
{}

/// Where a store stands for a table, the store without the file of a segment stands for the state
/// without the segment.
pub fn drop_stands_law()
    ensures { DropStands }
{}

/// Where a store stands for a table with a segment of a name, the image of other rows in the place
/// of its file makes a store that stands for the state with them in the place of its rows.
pub fn replace_stands_law()
    ensures { ReplaceStands }
{}

/// A kept file more, whatever its bytes, or one less, leaves what a store stands for as it was.
pub fn kept_idle_law()
    ensures { KeptIdle }
{}

/// The file of a table or of a segment that is put or taken away leaves each kept file as it was.
pub fn kept_stay_law()
    ensures { KeptStay }
{}

/// Files that stand for a state have as many names of segments as it has segments.
pub fn names_count_law()
    ensures { NamesCount }
{}

/// Where a store stands for a table, the names of the segments that have files are those of its
/// segments.
pub fn names_stand_law()
    ensures { NamesStand }
{}
