// Where the readings of a listing end, one behind another, by the end marks of the rows that were
// met.
ghost use Rattle.std.specs.Prelude.{◌≡◌, suc, ◌<◌, ◌≤◌};
ghost use Rattle.table.specs.Readings.{end_marks};
ghost use Rattle.places.specs.Order.{first_of, next_of};
ghost use Rattle.scan.specs.Listing.{up_to};
ghost use Rattle.scan.specs.Met.{row_met};
ghost use Rattle.scan.specs.Traced.{memory_in, place_in, rules_in, EndsIn};

use crate::ending::Ending;
use crate::marks::{first_mark, next_mark};
use crate::trace::Trace;
use source::Source;

impl<'a, S: Source> Trace<'a, S> {
    /// Where the first reading of a rule ends.
    pub fn first(&self) -> Option<Ending<'_, 'a, S>>
        ensures { EndsIn self.now (first_of (rules_in self.now)) result }
    {
        self.up_to(self.live)
    }

    /// Where the first one ends that is listed behind the reading of this rule, counted from 1, and
    /// this total, whatever they are.
    pub fn after(&self, rule: usize, total: usize) -> Option<Ending<'_, 'a, S>>
        ensures { EndsIn self.now (next_of rule total (rules_in self.now)) result }
    {
        if rule == 0 || total == 0 {
            return None;
        }
        if total > self.live {
            return self.up_to(self.live);
        }
        if rule > 64 {
            return self.up_to(total - 1);
        }
        self.behind(rule - 1, total, self.ends(total - 1))
    }

    // The first behind rule i + 1, where i is `rule`, with this total, which is live, and these end
    // marks after so many bytes.
    pub(crate) fn behind(&self, rule: usize, total: usize, marks: u64) -> Option<Ending<'_, 'a, S>>
        requires rule { rule < 64 }
        requires total { 1 ≤ total }
        requires live { total ≤ self.now.live }
        requires marks { let m = memory_in self.now in
            marks ≡ end_marks m (row_met m (place_in self.now) total) }
        ensures { EndsIn self.now (next_of (suc rule) total (rules_in self.now)) result }
    {
        match next_mark(marks, rule) {
            Some(rule) => Some(Ending {
                trace: self,
                rule,
                total,
                marks,
            }),
            None => self.up_to(total - 1),
        }
    }

    // Where the first reading of a rule ends, of those with up to n bytes.
    fn up_to(&self, n: usize) -> Option<Ending<'_, 'a, S>>
        requires { n ≤ self.now.live }
        ensures { let t = self.now in
            EndsIn t (first_of (up_to (memory_in t) (place_in t) n)) result }
    {
        // By number, since a total is one.
        for k in (0..n).rev() {
            let marks = self.ends(k);
            if let Some(rule) = first_mark(marks) {
                return Some(Ending {
                    trace: self,
                    rule,
                    total: k + 1,
                    marks,
                });
            }
        }
        None
    }
}
