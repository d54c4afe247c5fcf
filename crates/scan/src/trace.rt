// The rows that were met at a place, one for each live byte.
ghost use Rattle.std.specs.Prelude.{◌≡◌, ◌<◌};
ghost use Rattle.table.specs.Held.{memory_of};
ghost use Rattle.scan.specs.Listing.{place_of};
ghost use Rattle.scan.specs.Met.{IsLive, Met};

use crate::Start;
use source::Source;
use table::Table;

/// The rows that were met in one pass over the bytes of a source, from where a scan starts. What is
/// listed there is read from it, backwards and without the bytes, but for heads of rules with a
/// trailing part. Only `follow` makes one.
#[derive(Drop)]
pub struct Trace<'a, S: Source> {
    pub(crate) table: &'a Table<'a>,
    pub(crate) start: Start,
    pub(crate) source: &'a S,
    pub(crate) met: &'a mut [u16; 1024],
    pub(crate) live: usize,
    ghost alive: { IsLive (memory_of table.now) (place_of start (S.rest source.now)) live },
    ghost kept: { Met (memory_of table.now) (place_of start (S.rest source.now)) met.now live },
}
