// A walk over the rows of a table. An index that is proved to be one of its rows takes no test.
ghost use Rattle.std.specs.Prelude.{◌≡◌, ◌-◌, ◌≤◌, length, MatchOption};
ghost use Rattle.table.specs.Memory.{row_at};
ghost use Rattle.table.specs.Readings.{start_row, next_row, end_marks, slash_marks, trail_row, IsStored};
ghost use Rattle.table.specs.Held.{memory_of, StandsAt};

use crate::held::{Table, Walk};
use crate::loaded::Row;

impl<'a> Table<'a> {
    /// The number of rules.
    pub fn rules(&self) -> usize
        ensures { result ≡ self.now.loaded.rule_count }
    {
        self.loaded.rule_count
    }

    /// The number of conditions, INITIAL among them.
    pub fn conditions(&self) -> usize
        ensures { result ≡ self.now.loaded.condition_count }
    {
        self.loaded.condition_count
    }

    /// Where a scan starts in a condition; nowhere if no rule is active there, or the table lacks the condition.
    pub fn start(&self, condition: usize, at_line_start: bool) -> Option<Walk<'_>>
        ensures { StandsAt self.now (start_row (memory_of self.now) condition at_line_start) result }
    {
        let starts = &self.loaded.starts[..self.loaded.condition_count];
        let start = starts.get(condition)?;
        self.walk(if at_line_start {
            start.at_line_start
        } else {
            start.inside
        })
    }

    /// Where the trailing part of a rule starts, rules counted from 1; nowhere if it has none, or the table lacks the rule.
    pub fn trail(&self, rule: usize) -> Option<Walk<'_>>
        ensures { StandsAt self.now (trail_row (memory_of self.now) rule) result }
    {
        let rules = &self.loaded.rules[..self.loaded.rule_count];
        let rule = rules.get(rule.checked_sub(1)?)?;
        self.walk(rule.trail)
    }

    /// At the row of this number, counted from 1, if the table stores it.
    pub fn at(&self, row: u16) -> Option<Walk<'_>>
        ensures { MatchOption result (IsStored (memory_of self.now) row
            → ⊥) (λ w. (w.table.now ≡ self.now) × (w.row ≡ row)) }
    {
        if row as usize > self.rows.len() {
            return None;
        }
        self.walk(row)
    }

    // At a row that an entry names: row 0 stands for the empty set of positions, where nothing goes on.
    fn walk(&self, row: u16) -> Option<Walk<'_>>
        requires { row ≤ length self.now.rows.now }
        ensures { StandsAt self.now row result }
    {
        if row == 0 {
            return None;
        }
        Some(Walk {
            table: self,
            rows: self.rows,
            row,
        })
    }
}

impl<'a> Walk<'a> {
    /// The number of the row where it stands.
    pub fn row(&self) -> u16
        ensures { result ≡ self.now.row }
    {
        self.row
    }

    // Its row. The index is proved, so it takes no test.
    fn stored(&self) -> &Row
        ensures { result.now ≡ row_at self.now.table.now.rows.now (self.now.row - 1) }
    {
        &self.rows[self.row as usize - 1]
    }

    /// Where a byte leads; None where nothing goes on.
    pub fn step(&self, b: u8) -> Option<Walk<'a>>
        ensures { StandsAt self.now.table.now
            (next_row (memory_of self.now.table.now) self.now.row b) result }
    {
        let row = self.stored().next[b as usize];
        if row == 0 {
            return None;
        }
        Some(Walk {
            table: self.table,
            rows: self.rows,
            row,
        })
    }

    /// The end marks of its row, bit i for rule i + 1.
    pub fn ends(&self) -> u64
        ensures { result ≡ end_marks (memory_of self.now.table.now) self.now.row }
    {
        self.stored().ends
    }

    /// The slash marks of its row, in the same way.
    pub fn slashes(&self) -> u64
        ensures { result ≡ slash_marks (memory_of self.now.table.now) self.now.row }
    {
        self.stored().slashes
    }
}
