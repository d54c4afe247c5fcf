// The readings of a listing, one after another.
ghost use Rattle.std.specs.Prelude.{◌≡◌};
ghost use Rattle.std.specs.Option.{option_map};
ghost use Rattle.places.specs.Order.{first_of};
ghost use Rattle.scan.specs.Listing.{of_rules};
ghost use Rattle.scan.specs.Traced.{memory_in, place_in, listing_in, EndsIn};
ghost use Rattle.scan.specs.Left.{behind, reading_at};
ghost use Rattle.scan.specs.Yields.{left};

use crate::ending::Ending;
use crate::left::ReadingsLeft;
use crate::told::{RuleHeads, told_head};
use crate::trace::Trace;
use crate::trails::Trails;
use bits::Bits;
use places::Reading;
use source::Source;

impl<'a, S: Source> Trace<'a, S> {
    /// All that is listed here, from the first reading on. The elements of `heads` are lent for the
    /// rules in their order: of a rule with a trailing part one pass tells all heads there, and
    /// without an element each of its readings takes a few passes. What lent memory holds does not
    /// matter.
    pub fn readings<'t>(
        &'t self,
        heads: &'t mut [RuleHeads],
        trails: &'t mut Trails,
    ) -> ReadingsLeft<'t, 'a, S>
        ensures of { result.trace.now ≡ self.now }
        ensures left { left result ≡ listing_in self.now }
    {
        ReadingsLeft {
            trace: self,
            heads,
            trails,
            told: Bits::empty(),
            last: None,
            over: false,
        }
    }
}

impl<'t, 'a, S: Source> ReadingsLeft<'t, 'a, S> {
    // Where the first reading of a rule ends, of those behind the one that was given last.
    fn ending(&self) -> Option<Ending<'t, 'a, S>>
        ensures { let t = self.now.trace.now in let m = memory_in t in let p = place_in t in
            let last = option_map (reading_at m p) self.now.last in
            EndsIn t (first_of (behind last (of_rules m p))) result }
    {
        match self.last {
            None => self.trace.first(),
            Some(last) => self.trace.behind(last.rule, last.total, last.marks),
        }
    }
}

impl<S: Source> Iterator for ReadingsLeft<'_, '_, S> {
    type Item = Reading;

    ghost use Rattle.std.specs.Iterator.{YieldsFirst, item_count};

    ghost next_gives = { YieldsFirst left };

    ghost remaining = { item_count left };

    fn next(&mut self) -> Option<Reading> {
        if self.over {
            return None;
        }
        match self.ending() {
            Some(ending) => {
                let head = told_head(&ending, self.heads, &mut self.told, self.trails);
                self.last = Some(ending.end());
                Some(ending.with_head(head))
            }
            None => {
                self.over = true;
                self.trace.single()
            }
        }
    }
}
