// What a table lists, and that its heads may be taken.
ghost use Rattle.std.specs.Prelude.{◌≡◌, [], MatchOption, IfSome};
ghost use Rattle.table.specs.Held.{memory_of};
ghost use Rattle.places.specs.Order.{first_of, next_of};
ghost use Rattle.scan.specs.Listing.{place_of, table_listing};
ghost use Rattle.plain.specs.Lawful.{MayTake};

use places::Reading;
use scan::{Start, first_reading, reading_after};
use source::Source;
use table::Table;

// The first that is listed; there is none exactly where nothing is left.
pub(crate) fn first<S: Source>(table: &Table, start: Start, source: &S) -> Option<Reading>
    ensures listed { let place = place_of start (S.rest source.now) in
        result ≡ first_of (table_listing (memory_of table.now) place) }
    ensures right { let rest = S.rest source.now in
        MatchOption result (rest ≡ []) (λ reading. MayTake rest reading.head) }
{
    first_reading(table, start, source)
}

// The first that is listed behind this one.
pub(crate) fn following<S: Source>(
    table: &Table,
    start: Start,
    source: &S,
    reading: Reading,
) -> Option<Reading>
    ensures listed { let place = place_of start (S.rest source.now) in
        result ≡ next_of reading.rule reading.total (table_listing (memory_of table.now) place) }
    ensures right { IfSome result (λ following. MayTake (S.rest source.now) following.head) }
{
    reading_after(table, start, source, reading.rule, reading.total)
}
