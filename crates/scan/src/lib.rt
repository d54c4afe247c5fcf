// What a table lists at a place.
#![tactic(auto)]

ghost use Rattle.std.specs.Prelude.{◌≡◌};
ghost use Rattle.table.specs.Held.{memory_of};
ghost use Rattle.places.specs.Order.{first_of, next_of};
ghost use Rattle.scan.specs.Listing.{place_of, table_listing, TableLists};
ghost use Rattle.scan.specs.Near.{TableNear};

mod end;
mod ending;
mod ends;
mod follow;
mod given;
mod heads;
mod left;
mod marks;
mod passes;
mod told;
mod trace;
mod trails;

pub use ending::Ending;
pub use left::ReadingsLeft;
use places::Reading;
use source::Source;
use table::Table;
pub use told::RuleHeads;
pub use trace::Trace;
pub use trails::Trails;

/// Where a scan starts: in which condition, and whether at line start.
#[derive(Clone, Copy, PartialEq, Eq)]
pub struct Start {
    pub condition: usize,
    pub at_line_start: bool,
}

/// Theorem: what a table lists has each reading by its marks, and no other, in order.
pub fn table_lists()
    ensures { TableLists }
{}

/// Theorem: what a table lists depends on the nearest 1,024 bytes alone.
pub fn table_looks_near()
    ensures { TableNear }
{}

/// The first of what the table lists at the place.
pub fn first_reading<S: Source>(table: &Table, start: Start, source: &S) -> Option<Reading>
    ensures { let p = place_of start (S.rest source.now) in
        result ≡ first_of (table_listing (memory_of table.now) p) }
{
    let mut met = [0; 1024];
    let trace = Trace::follow(table, start, source, &mut met);
    match trace.first() {
        Some(ending) => Some(ending.reading()),
        None => trace.single(),
    }
}

/// The first that is listed behind the reading of this rule and total, whatever they are.
pub fn reading_after<S: Source>(
    table: &Table,
    start: Start,
    source: &S,
    rule: usize,
    total: usize,
) -> Option<Reading>
    ensures { let p = place_of start (S.rest source.now) in
        result ≡ next_of rule total (table_listing (memory_of table.now) p) }
{
    if rule == 0 {
        return None;
    }
    let mut met = [0; 1024];
    let trace = Trace::follow(table, start, source, &mut met);
    match trace.after(rule, total) {
        Some(ending) => Some(ending.reading()),
        None => trace.single(),
    }
}
