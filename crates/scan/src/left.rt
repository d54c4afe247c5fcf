// What is left of a listing, where its readings are given one after another.
ghost use Rattle.std.specs.Option.{ForSome};
ghost use Rattle.table.specs.Held.{memory_of};
ghost use Rattle.scan.specs.Listing.{place_of};
ghost use Rattle.scan.specs.Left.{EndedAt};
ghost use Rattle.scan.specs.Told.{Told};

use crate::end::End;
use crate::told::RuleHeads;
use crate::trace::Trace;
use crate::trails::Trails;
use bits::Bits;
use source::Source;

/// The readings behind the one of a rule that was given last, or all before any was; none once the
/// listing is over.
#[derive(Drop)]
pub struct ReadingsLeft<'t, 'a, S: Source> {
    pub(crate) trace: &'t Trace<'a, S>,
    pub(crate) heads: &'t mut [RuleHeads],
    pub(crate) trails: &'t mut Trails,
    pub(crate) told: Bits<1>,
    pub(crate) last: Option<End>,
    pub(crate) over: bool,
    ghost ended: { let t = trace.now in
        let p = place_of t.start (S.rest t.source.now) in
        ForSome last (EndedAt (memory_of t.table.now) p t.live) },
    ghost right: { let t = trace.now in let m = memory_of t.table.now in
        Told m (place_of t.start (S.rest t.source.now)) t.live heads.now told.words },
}
