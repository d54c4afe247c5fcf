// Where readings of rules end.
ghost use Rattle.std.specs.Prelude.{◌≡◌, ◌<◌, ◌≤◌};
ghost use Rattle.table.specs.Held.{memory_of};
ghost use Rattle.table.specs.Readings.{end_marks};
ghost use Rattle.scan.specs.Listing.{place_of};
ghost use Rattle.scan.specs.Met.{row_met};

use crate::trace::Trace;
use source::Source;

/// Where a reading of a rule ends: its rule, counted from 0 as its marks are, its total, and the
/// end marks after so many bytes. Only a trace makes one.
#[derive(Drop)]
pub struct Ending<'t, 'a, S: Source> {
    pub(crate) trace: &'t Trace<'a, S>,
    pub(crate) rule: usize,
    pub(crate) total: usize,
    pub(crate) marks: u64,
    ghost few: { rule < 64 },
    ghost some: { 1 ≤ total },
    ghost within: { total ≤ trace.now.live },
    ghost ends: { let t = trace.now in let m = memory_of t.table.now in
        marks ≡ end_marks m (row_met m (place_of t.start (S.rest t.source.now)) total) },
}
