// One pass over the live bytes with the trails of one rule, which tells its head for each total.
ghost use Rattle.std.specs.Prelude.{◌≡◌, ◌+◌, suc, ◌<◌, ◌≤◌, slice_index};
ghost use Rattle.table.specs.Readings.{trail_row};
ghost use Rattle.scan.specs.Traced.{memory_in, head_in, TrailsIn, MovingIn, HeadsIn, AreBytes};

use crate::follow::stored;
use crate::marks::marked;
use crate::told::RuleHeads;
use crate::trace::Trace;
use crate::trails::Trails;
use source::Source;
use table::Walk;

impl<S: Source> Trace<'_, S> {
    // Writes the head that a rule with this trailing part has with each total up to the live bytes:
    // at k that of k + 1 bytes. Compiled as a function of its own, it takes fewer steps.
    #[inline(never)]
    pub(crate) fn heads(
        &self,
        trail: &Walk,
        rule: usize,
        heads: &mut RuleHeads,
        trails: &mut Trails,
    )
        requires rule { rule < 64 }
        requires of { trail.now.table.now ≡ self.now.table.now }
        requires trail { trail.now.row ≡ trail_row (memory_in self.now) (suc rule) }
        ensures { HeadsIn self.now heads.new.heads rule }
    {
        let mut bytes = [0; 1024];
        self.copy(&mut bytes);
        let mut from = 1024;
        let mut to = 1024;
        // By number, since the rows that were met are read by number.
        for k in 0..self.live {
            let low = from;
            from = self.begin(trails, trail, rule, k, low, to);
            to = self.go_on(trails, rule, k, bytes[k], from, low, to);
            heads.heads[k] = self.longest(trails, rule, k + 1, from, to);
        }
    }

    // Copies the live bytes: a pass that has them at hand takes fewer steps than one that looks at
    // each.
    fn copy(&self, bytes: &mut [u8; 1024])
        ensures { AreBytes self.now bytes.new self.now.live }
    {
        // By number, since a source is looked at by number.
        for k in 0..self.live {
            bytes[k] = self.byte(k);
        }
    }

    // Begins a trail behind k + 1 bytes, where the slash mark of the rule stands there, in front of
    // those from `low` on. Answers where the trails begin.
    pub(crate) fn begin(
        &self,
        trails: &mut Trails,
        trail: &Walk,
        rule: usize,
        k: usize,
        low: usize,
        high: usize,
    ) -> usize
        requires rule { rule < 64 }
        requires live { k < self.now.live }
        requires of { trail.now.table.now ≡ self.now.table.now }
        requires trail { trail.now.row ≡ trail_row (memory_in self.now) (suc rule) }
        requires some { 1 ≤ low }
        requires few { low ≤ 1024 }
        requires trails { TrailsIn self.now rule k low high trails.old }
        ensures moving { MovingIn self.now rule k result low low high trails.new }
        ensures most { result ≤ low }
        ensures least { low ≤ result + 1 }
    {
        if !marked(self.slashes(k), rule) {
            return low;
        }
        trails.put(low - 1, trail.row(), (k + 1) as u16);
        low - 1
    }

    // Moves the trails from `low` up to `high` by byte k, which is b; those from `from` up to `low`
    // begin behind it. Answers where they end.
    pub(crate) fn go_on(
        &self,
        trails: &mut Trails,
        rule: usize,
        k: usize,
        b: u8,
        from: usize,
        low: usize,
        high: usize,
    ) -> usize
        requires live { k < self.now.live }
        requires byte { b ≡ slice_index (S.rest self.now.source.now) k }
        requires from { from ≤ low }
        requires order { low ≤ high }
        requires few { high ≤ 1024 }
        requires moving { MovingIn self.now rule k from low low high trails.old }
        ensures moved { TrailsIn self.now rule (k + 1) from result trails.new }
        ensures low { low ≤ result }
        ensures high { result ≤ high }
    {
        let mut at = low;
        // By number, since trails that have moved are put in front of those that are left.
        for j in low..high {
            let head = trails.heads[j];
            if let Some(next) = stored(self.table, trails.rows[j]).step(b) {
                at = trails.add(from, at, next.row(), head);
            }
        }
        at
    }

    // The head of n bytes: that of the first trail whose row has the end mark of the rule, or else
    // n.
    pub(crate) fn longest(
        &self,
        trails: &Trails,
        rule: usize,
        n: usize,
        from: usize,
        to: usize,
    ) -> u16
        requires rule { rule < 64 }
        requires most { n ≤ 1024 }
        requires few { to ≤ 1024 }
        requires trails { TrailsIn self.now rule n from to trails.now }
        ensures { result ≡ head_in self.now n rule }
    {
        // By number, since a trail's row and head stand in two arrays.
        for x in from..to {
            if marked(stored(self.table, trails.rows[x]).ends(), rule) {
                return trails.heads[x];
            }
        }
        n as u16
    }
}
