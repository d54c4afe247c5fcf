// How far the second section is read, and where its next rule goes.
ghost use Rattle.std.specs.Prelude.{◌≡◌, ◌<◌, false, ◌&&◌, nat_lt, MatchOption};

use crate::rules::RULES;
use positions::POSITIONS;

// How many rules are read so far, and how many positions they use.
#[derive(Clone, Copy)]
pub(crate) struct Progress {
    pub(crate) rules: usize,
    pub(crate) positions: usize,
}

// Where a rule goes: its number, counted from 0, and its end mark, behind which its positions lie.
#[derive(Clone, Copy)]
pub(crate) struct Place {
    pub(crate) rule: usize,
    pub(crate) end: usize,
    pub(crate) ghost few: { rule < 64 },
    pub(crate) ghost room: { end < 512 },
}

impl Progress {
    // The place of one more rule, unless it passes a limit.
    pub(crate) fn place(self) -> Option<Place>
        ensures { MatchOption result ((nat_lt self.rules 64
            && nat_lt self.positions 512) ≡ false) (λ p. (p.rule ≡ self.rules)
            × (p.end ≡ self.positions)) }
    {
        if self.rules >= RULES || self.positions >= POSITIONS {
            return None;
        }
        Some(Place {
            rule: self.rules,
            end: self.positions,
        })
    }
}
