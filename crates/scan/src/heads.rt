// The head of one reading, by the slash marks of the rows that were met.
ghost use Rattle.std.specs.Prelude.{◌≡◌, suc, ◌<◌, ◌≤◌, take, drop};
ghost use Rattle.bits.specs.Set.{bit};
ghost use Rattle.table.specs.Readings.{end_marks, trail_row};
ghost use Rattle.places.specs.Order.{next_of};
ghost use Rattle.scan.specs.Listed.{row_after};
ghost use Rattle.scan.specs.Traced.{memory_in, rules_in, head_in, ends_with, EndsIn};

use crate::end::End;
use crate::ending::Ending;
use crate::marks::marked;
use crate::trace::Trace;
use crate::trails::Trails;
use places::Reading;
use source::Source;
use table::Walk;

// How many heads are tried before a pass.
const TRIES: u32 = 4;

impl<'t, 'a, S: Source> Ending<'t, 'a, S> {
    /// The rule, counted from 1.
    pub fn rule(&self) -> usize
        ensures { result ≡ suc self.now.rule }
    {
        self.rule + 1
    }

    /// How many bytes the reading has, with its trailing part.
    pub fn total(&self) -> usize
        ensures { result ≡ self.now.total }
    {
        self.total
    }

    /// Where the first one ends that is listed behind this one.
    pub fn behind(&self) -> Option<Ending<'t, 'a, S>>
        ensures { let t = self.now.trace.now in
            EndsIn t (next_of (suc self.now.rule) self.now.total (rules_in t)) result }
    {
        self.trace.behind(self.rule, self.total, self.marks)
    }

    /// The reading that ends there.
    pub fn reading(&self) -> Reading
        ensures { result ≡ ends_with self.now }
    {
        self.with_head(self.head())
    }

    /// Its head: the longest that its marks allow, and all of it where they allow none. It takes a
    /// few passes at most over the bytes of a rule with a trailing part, and none of another.
    pub fn head(&self) -> usize
        ensures { result ≡ head_in self.now.trace.now self.now.total self.now.rule }
    {
        if self.trace.table.trail(self.rule + 1).is_none() {
            return self.total;
        }
        self.trace
            .head_by(self.rule, self.total, &mut Trails::new())
    }

    // What is kept of it while a listing is read.
    pub(crate) fn end(&self) -> End
        ensures { let e = self.now in
            (result.rule ≡ e.rule) × (result.total ≡ e.total) × (result.marks ≡ e.marks) }
    {
        End {
            rule: self.rule,
            total: self.total,
            marks: self.marks,
        }
    }

    // The reading, whose head is known.
    pub(crate) fn with_head(&self, head: usize) -> Reading
        requires { head ≡ head_in self.now.trace.now self.now.total self.now.rule }
        ensures { result ≡ ends_with self.now }
    {
        Reading {
            rule: self.rule + 1,
            total: self.total,
            head,
        }
    }
}

impl<S: Source> Trace<'_, S> {
    // The head of a reading of rule i + 1, where i is `rule`: the longest few are tried one by one,
    // and where none of them fits, one pass tells it. So it takes a few passes at most, and mostly
    // less than one.
    pub(crate) fn head_by(&self, rule: usize, total: usize, trails: &mut Trails) -> usize
        requires rule { rule < 64 }
        requires live { total ≤ self.now.live }
        ensures { result ≡ head_in self.now total rule }
    {
        let Some(trail) = self.table.trail(rule + 1) else {
            return total;
        };
        let mut tries = 0;
        // By number, since a head is one.
        for k in (0..total).rev() {
            if marked(self.slashes(k), rule) {
                if tries == TRIES {
                    return self.head_in_a_pass(&trail, rule, total, trails);
                }
                tries += 1;
                if self.is_trailing(&trail, rule, k + 1, total) {
                    return k + 1;
                }
            }
        }
        total
    }

    // Whether the bytes from h up to the total are a trailing part of the rule, by its end mark in
    // the row that they lead to.
    fn is_trailing(&self, trail: &Walk, rule: usize, h: usize, total: usize) -> bool
        requires of { trail.now.table.now ≡ self.now.table.now }
        requires rule { rule < 64 }
        requires live { total ≤ self.now.live }
        ensures { let m = memory_in self.now in
            let bytes = take total (S.rest self.now.source.now) in
            result ≡ bit (end_marks m (row_after m trail.now.row (drop h bytes))) rule }
    {
        let mut walk = *trail;
        // By number, since a source is looked at by number.
        for k in h..total {
            let Some(b) = self.source.look(k) else {
                return false;
            };
            let Some(next) = walk.step(b) else {
                return false;
            };
            walk = next;
        }
        marked(walk.ends(), rule)
    }

    // The head in one pass over its bytes.
    fn head_in_a_pass(&self, trail: &Walk, rule: usize, total: usize, trails: &mut Trails) -> usize
        requires rule { rule < 64 }
        requires live { total ≤ self.now.live }
        requires of { trail.now.table.now ≡ self.now.table.now }
        requires trail { trail.now.row ≡ trail_row (memory_in self.now) (suc rule) }
        ensures { result ≡ head_in self.now total rule }
    {
        let mut from = 1024;
        let mut to = 1024;
        // By number, since the rows that were met are read by number.
        for k in 0..total {
            let low = from;
            from = self.begin(trails, trail, rule, k, low, to);
            to = self.go_on(trails, rule, k, self.byte(k), from, low, to);
        }
        self.longest(trails, rule, total, from, to) as usize
    }
}
