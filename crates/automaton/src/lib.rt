// Rows by the sets that they stand for, which specs/ defines; here are theorems on them, each the contract of a function.
#![tactic(auto)]

ghost use Rattle.automaton.specs.Theorems.{RowsDistinct, MetAreStored, NumbersNameRows, SameIsEqualMembers, EntriesWithin, RoomChangesNothing, StoredAreMet};
ghost use Rattle.automaton.specs.Order.{RowsInOrder, OneOrder};
ghost use Rattle.automaton.specs.Reached.{LeadAlongPaths, RowsTell};

// No two rows stand for the same set, and none for the empty one.
pub fn rows_are_distinct()
    ensures { RowsDistinct }
{}

// Each start has a row, and where the rows are not too many, each byte leads from a row to a row.
pub fn met_are_stored()
    ensures { MetAreStored }
{}

// A number names the row of its set, and goes on naming it as rows are added.
pub fn numbers_name_rows()
    ensures { NumbersNameRows }
{}

// Sets are the same if they have the same members.
pub fn same_is_equal_members()
    ensures { SameIsEqualMembers }
{}

// No number is more than the rows are.
pub fn entries_lie_within()
    ensures { EntriesWithin }
{}

// Rows that fit are the same in more room.
pub fn room_changes_nothing()
    ensures { RoomChangesNothing }
{}

// Each row stands for a start, a trail start, or where a byte leads from a row before it.
pub fn stored_are_met()
    ensures { StoredAreMet }
{}

// The rows of a file are numbered in the order in which their sets first come up.
pub fn rows_in_order()
    ensures { RowsInOrder }
{}

// No other sets are in that order.
pub fn one_order()
    ensures { OneOrder }
{}

// Theorem: bytes lead from a set along the paths that spell them.
pub fn bytes_lead_along_paths()
    ensures { LeadAlongPaths }
{}

// Theorem: what the marks in a row tell of the bytes that lead to it.
pub fn rows_tell()
    ensures { RowsTell }
{}
