// What is kept of a rule file, in memory that the caller lends. Zeros stand where nothing is kept.
// That memory is fixed, as nothing here may allocate: so counts stand beside the arrays. A row is named by its number,
// counted from 1. Row 0 stands for the empty set of positions: 0 is no missing value, but the number of a row from which
// nothing goes on.
ghost use Rattle.std.specs.Prelude.{◌≡◌};
ghost use Rattle.table.specs.Zeros.{no_row, no_rule, zeros as zeros_of};

use bits::{Bits, ConditionSet};
use grammar::Step;

// A row: the row that each byte leads to, and the rules whose end mark and whose slash mark it has, bit i for rule i + 1.
#[derive(Clone, Copy, PartialEq, Eq)]
pub struct Row {
    pub next: [u16; 256],
    pub ends: u64,
    pub slashes: u64,
}

// A rule: the conditions in which it is active, whether it asks for line start, the row that its trailing part starts
// from, and its steps.
#[derive(Clone, Copy, PartialEq, Eq)]
pub struct Rule {
    pub conditions: ConditionSet,
    pub anchored: bool,
    pub trail: u16,
    pub steps: [Option<Step>; 10],
}

// The start rows of a condition.
#[derive(Clone, Copy, PartialEq, Eq, Default)]
pub struct StartRows {
    pub inside: u16,
    pub at_line_start: u16,
}

// All but the rows: the rules, the start rows by condition, and how many rules, conditions and rows there are.
#[derive(Clone, Copy, PartialEq, Eq)]
pub struct Loaded {
    pub rules: [Rule; 64],
    pub starts: [StartRows; 8],
    pub rule_count: usize,
    pub condition_count: usize,
    pub row_count: usize,
}

impl Row {
    pub fn zeros() -> Row
        ensures { result ≡ no_row }
    {
        Row {
            next: [0; 256],
            ends: 0,
            slashes: 0,
        }
    }
}

fn no_rule() -> Rule
    ensures { result ≡ no_rule }
{
    Rule {
        conditions: Bits::empty(),
        anchored: false,
        trail: 0,
        steps: [None; 10],
    }
}

impl Loaded {
    pub fn zeros() -> Loaded
        ensures { result ≡ zeros_of }
    {
        Loaded {
            rules: [no_rule(); 64],
            starts: [StartRows::default(); 8],
            rule_count: 0,
            condition_count: 0,
            row_count: 0,
        }
    }
}
