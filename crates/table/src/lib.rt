// A table: loaded memory, and rows, that name no row, rule or condition that they lack.
#![tactic(auto)]

ghost use Rattle.std.specs.Prelude.{◌≡◌, ◌^◌, ◌<◌, MatchBool, MatchResult};
ghost use Rattle.table.specs.declared.NotTable.TheVariants.{Lacking};
ghost use Rattle.table.specs.Memory.{CountsFit, StartIn, StartsIn, TrailsIn, LeadsIn, RowsLeadIn, MarkedIn, MarksIn, ActiveIn, RulesActiveIn, step_in, BeginsIn, RulesBeginIn, IsTable, memory};

pub mod held;
pub mod loaded;
pub mod taken;
pub mod walk;

use bits::ConditionSet;
use grammar::Step;
pub use held::{Table, Walk};
pub use loaded::{Loaded, Row, Rule, StartRows};
pub use taken::take_up;

// Why memory is no table's; the reason has its number.
#[derive(Clone, Copy, PartialEq, Eq)]
pub enum NotTable {
    Lacking = 9,
}

// The number that the reason is reported by.
impl From<NotTable> for u8 {
    ghost from_gives = { λ _ number. number ≡ 9 };

    fn from(reason: NotTable) -> u8 {
        reason as u8
    }
}

// Whether memory is a table's, that is, whether it names only what it has.
pub fn check(loaded: &Loaded, rows: &[Row]) -> Result<(), NotTable>
    ensures { MatchResult result (λ _. IsTable (memory loaded.now rows.now)) (λ e. (e ≡ Lacking)
        × (IsTable (memory loaded.now rows.now) → ⊥)) }
{
    if is_whole(loaded, rows) {
        Ok(())
    } else {
        Err(NotTable::Lacking)
    }
}

fn is_whole(loaded: &Loaded, rows: &[Row]) -> bool
    ensures { MatchBool result (IsTable (memory loaded.now rows.now))
        (IsTable (memory loaded.now rows.now) → ⊥) }
{
    counts_fit(loaded, rows.len())
        && starts_in(loaded)
        && trails_in(loaded)
        && rows_lead_in(loaded, rows)
        && marks_in(loaded, rows)
        && rules_active_in(loaded)
        && rules_begin_in(loaded)
}

fn counts_fit(loaded: &Loaded, rows: usize) -> bool
    ensures { MatchBool result (CountsFit loaded.now rows) (CountsFit loaded.now rows → ⊥) }
{
    loaded.row_count <= rows
        && loaded.rule_count <= loaded.rules.len()
        && (1..=loaded.starts.len()).contains(&loaded.condition_count)
}

fn starts_in(loaded: &Loaded) -> bool
    ensures { MatchBool result (StartsIn loaded.now) (StartsIn loaded.now → ⊥) }
{
    loaded
        .starts
        .iter()
        .all(|start| start_in(start, loaded.row_count))
}

fn start_in(start: &StartRows, rows: usize) -> bool
    ensures { MatchBool result (StartIn rows start.now) (StartIn rows start.now → ⊥) }
{
    start.inside as usize <= rows && start.at_line_start as usize <= rows
}

fn trails_in(loaded: &Loaded) -> bool
    ensures { MatchBool result (TrailsIn loaded.now) (TrailsIn loaded.now → ⊥) }
{
    loaded
        .rules
        .iter()
        .all(|rule| rule.trail as usize <= loaded.row_count)
}

// This and `marks_in`, `rules_active_in` and `rules_begin_in` stay four: each decides its own part of IsTable, and one function
// over the test would take the same closures.
fn rows_lead_in(loaded: &Loaded, rows: &[Row]) -> bool
    ensures { MatchBool result (RowsLeadIn loaded.now rows.now) (RowsLeadIn loaded.now rows.now
        → ⊥) }
{
    rows.iter()
        .take(loaded.row_count)
        .all(|row| leads_in(row, loaded.row_count))
}

fn leads_in(row: &Row, rows: usize) -> bool
    ensures { MatchBool result (LeadsIn rows row.now) (LeadsIn rows row.now → ⊥) }
{
    row.next.iter().all(|to| *to as usize <= rows)
}

fn marks_in(loaded: &Loaded, rows: &[Row]) -> bool
    ensures { MatchBool result (MarksIn loaded.now rows.now) (MarksIn loaded.now rows.now → ⊥) }
{
    rows.iter()
        .take(loaded.row_count)
        .all(|row| marked_in(row, loaded.rule_count))
}

fn marked_in(row: &Row, rules: usize) -> bool
    ensures { MatchBool result (MarkedIn rules row.now) (MarkedIn rules row.now → ⊥) }
{
    below(row.ends, rules) && below(row.slashes, rules)
}

// Whether no bit from n on is set.
#[tactic(auto, using(crate::proofs::Marks::any_marks, crate::proofs::Marks::shifted_out))]
fn below(marks: u64, n: usize) -> bool
    ensures { MatchBool result (marks < 2 ^ n) (marks < 2 ^ n → ⊥) }
{
    n >= 64 || marks >> n == 0
}

fn rules_active_in(loaded: &Loaded) -> bool
    ensures { MatchBool result (RulesActiveIn loaded.now) (RulesActiveIn loaded.now → ⊥) }
{
    loaded
        .rules
        .iter()
        .all(|rule| active_in(rule.conditions, loaded.condition_count))
}

#[tactic(auto, using(crate::proofs::Active::first_active))]
fn active_in(active: ConditionSet, conditions: usize) -> bool
    ensures { MatchBool result (ActiveIn conditions active.words) (ActiveIn conditions active.words
        → ⊥) }
{
    active.next(conditions).is_none()
}

fn rules_begin_in(loaded: &Loaded) -> bool
    ensures { MatchBool result (RulesBeginIn loaded.now) (RulesBeginIn loaded.now → ⊥) }
{
    loaded
        .rules
        .iter()
        .all(|rule| begins_in(rule, loaded.condition_count))
}

fn begins_in(rule: &Rule, conditions: usize) -> bool
    ensures { MatchBool result (BeginsIn conditions rule.now.steps)
        (BeginsIn conditions rule.now.steps → ⊥) }
{
    rule.steps.iter().all(|step| step_in(*step, conditions))
}

fn step_in(step: Option<Step>, conditions: usize) -> bool
    ensures { result ≡ step_in conditions step }
{
    match step {
        Some(Step::Begin(c)) => (c as usize) < conditions,
        _ => true,
    }
}
