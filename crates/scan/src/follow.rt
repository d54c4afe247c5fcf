// One pass over the bytes of a source: each is looked at once, and the number of each row that is
// met is written.
ghost use Rattle.std.specs.Prelude.{◌≡◌, ◌+◌, ◌<◌, min, length, drop, slice_index};
ghost use Rattle.places.specs.Order.{first_of};
ghost use Rattle.places.specs.Listing.{last_resort};
ghost use Rattle.table.specs.Held.{memory_of};
ghost use Rattle.scan.specs.Listing.{place_of};
ghost use Rattle.table.specs.Readings.{end_marks, slash_marks, IsStored};
ghost use Rattle.scan.specs.Met.{row_met, IsLive, Met};
ghost use Rattle.scan.specs.Traced.{memory_in, place_in};

use crate::Start;
use crate::trace::Trace;
use places::Reading;
use source::Source;
use table::{Table, Walk};

// No reading has more bytes.
const MOST: usize = 1024;

// A byte by itself, which is listed behind the readings of rules.
const SINGLE: Reading = Reading {
    rule: 0,
    total: 1,
    head: 1,
};

impl<'a, S: Source> Trace<'a, S> {
    /// Follows the bytes of a source through a table, up to the row from which nothing goes on, or
    /// 1,024 bytes.
    pub fn follow(
        table: &'a Table<'a>,
        start: Start,
        source: &'a S,
        met: &'a mut [u16; 1024],
    ) -> Trace<'a, S>
        ensures table { result.table.now ≡ table.now }
        ensures start { result.start ≡ start }
        ensures source { result.source.now ≡ source.now }
        ensures same_reference { result.met.ghost_name ≡ met.entry.ghost_name }
        ensures live { IsLive (memory_of table.now) (place_of start (S.rest source.now)) result.live }
        ensures met { let p = place_of start (S.rest source.now) in
            Met (memory_of table.now) p result.met.now result.live }
        ensures beyond { drop result.live result.met.now ≡ drop result.live met.old }
    {
        let live = run(table, start, source, met);
        Trace {
            table,
            start,
            source,
            met,
            live,
        }
    }

    /// How many bytes are live: each leads to a row, and one more, if there is one within 1,024, to
    /// none.
    pub fn live(&self) -> usize
        ensures { result ≡ self.now.live }
    {
        self.live
    }

    /// The single byte, where one is left.
    pub fn single(&self) -> Option<Reading>
        ensures { result ≡ first_of (last_resort (S.rest self.now.source.now)) }
    {
        (self.source.left() > 0).then_some(SINGLE)
    }

    // A walk that stands at the row after k + 1 bytes.
    pub(crate) fn at(&self, k: usize) -> Walk<'a>
        requires { k < self.now.live }
        ensures table { result.table.now ≡ self.now.table.now }
        ensures row { let t = self.now in result.row ≡ row_met (memory_in t) (place_in t) (k + 1) }
    {
        stored(self.table, self.numbers()[k])
    }

    // The numbers of the rows that were met.
    fn numbers(&self) -> &[u16; 1024]
        ensures { result.now ≡ self.now.met.now }
    {
        self.met
    }

    // The end marks of that row.
    pub(crate) fn ends(&self, k: usize) -> u64
        requires { k < self.now.live }
        ensures { let m = memory_in self.now in
            result ≡ end_marks m (row_met m (place_in self.now) (k + 1)) }
    {
        self.at(k).ends()
    }

    // Its slash marks.
    pub(crate) fn slashes(&self, k: usize) -> u64
        requires { k < self.now.live }
        ensures { let m = memory_in self.now in
            result ≡ slash_marks m (row_met m (place_in self.now) (k + 1)) }
    {
        self.at(k).slashes()
    }

    // Byte k.
    pub(crate) fn byte(&self, k: usize) -> u8
        requires { k < self.now.live }
        ensures { result ≡ slice_index (S.rest self.now.source.now) k }
    {
        self.source.look(k).unwrap_or(0)
    }
}

// A walk that stands at this row.
pub(crate) fn stored<'a>(table: &'a Table<'a>, row: u16) -> Walk<'a>
    requires { IsStored (memory_of table.now) row }
    ensures table { result.table.now ≡ table.now }
    ensures row { result.row ≡ row }
{
    table.at(row).unwrap()
}

// Writes the number of each row that is met, and answers how many bytes are live.
fn run<S: Source>(table: &Table, start: Start, source: &S, met: &mut [u16; 1024]) -> usize
    ensures live { IsLive (memory_of table.now) (place_of start (S.rest source.now)) result }
    ensures met { Met (memory_of table.now) (place_of start (S.rest source.now)) met.new result }
    ensures beyond { drop result met.new ≡ drop result met.old }
{
    let left = source.left();
    // Each with a bound of its own, so that the compiled loop takes no test that a byte is there.
    if left < MOST {
        run_to(table, start, source, met, left)
    } else {
        run_to(table, start, source, met, MOST)
    }
}

// The same, where this many bytes are looked at if they are live.
#[inline(always)]
fn run_to<S: Source>(
    table: &Table,
    start: Start,
    source: &S,
    met: &mut [u16; 1024],
    most: usize,
) -> usize
    requires { most ≡ min 1024 (length (S.rest source.now)) }
    ensures live { IsLive (memory_of table.now) (place_of start (S.rest source.now)) result }
    ensures met { Met (memory_of table.now) (place_of start (S.rest source.now)) met.new result }
    ensures beyond { drop result met.new ≡ drop result met.old }
{
    let Some(mut walk) = table.start(start.condition, start.at_line_start) else {
        return 0;
    };
    // By number, since a source is looked at by number.
    for k in 0..most {
        let Some(b) = source.look(k) else {
            return k;
        };
        let Some(next) = walk.step(b) else {
            return k;
        };
        walk = next;
        met[k] = walk.row();
    }
    most
}
