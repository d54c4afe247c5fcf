// Steps as they are read, one after the other.
ghost use Rattle.std.specs.Prelude.{◌≡◌, ◌<◌, ◌≤◌, false, length, IfOk};
ghost use Rattle.grammar.specs.Actions.{stage_after, past_blanks};
ghost use Rattle.actions.specs.Given.{most};

use crate::{Steps, begin, mark, more_or_less, worded};
use conditions::Conditions;
use grammar::{Fault, Read, Stage, Step, misfit};
use tokens::{Kind, span};

// The steps read so far, what may follow them, and the place behind them.
#[derive(Clone, Copy)]
pub(crate) struct Reading {
    pub(crate) steps: Steps,
    stage: Stage,
    pub(crate) next: usize,
    ghost few: { steps.count ≤ most stage },
}

fn stage_after(step: Step) -> Stage
    ensures { result ≡ stage_after step }
{
    match step {
        Step::Echo | Step::Mark(_) => Stage::Writing,
        Step::Begin(_) => Stage::Begun,
        Step::More | Step::Less(_) | Step::Reject => Stage::Ended,
    }
}

// The place behind the blanks at n, which may stand behind a step that another may follow. That n lies in the text is
// required, as in `brackets`.
fn past_blanks(stage: Stage, s: &[u8], n: usize) -> usize
    requires { n ≤ length s.now }
    ensures is { result ≡ past_blanks stage s.now n }
    ensures moves { (n ≤ result) × (result ≤ length s.now) }
{
    if stage == Stage::Ended {
        return n;
    }
    n + span(s, n, s.len(), Kind::Blank)
}

impl Reading {
    ghost use Rattle.grammar.specs.Outcome.{Moves};
    ghost use Rattle.grammar.specs.Actions.{ended, no_steps, step_at, step_more};
    ghost use Rattle.conditions.specs.Known.{known};
    ghost use Rattle.actions.specs.Steps.{view, reads};

    // Before the first step.
    pub(crate) fn start(n: usize) -> Reading
        ensures { view result ≡ no_steps n }
    {
        Reading {
            steps: Steps::none(),
            stage: Stage::Writing,
            next: n,
        }
    }

    // The step at the place that is reached.
    fn step(self, s: &[u8], conditions: &Conditions) -> Result<Read<Step>, Fault>
        requires { ended self.stage ≡ false }
        ensures is { result ≡ step_at s.now (known conditions.now) (view self) }
        ensures moves { Moves result self.next (length s.now) }
        ensures few { IfOk result (λ t. self.steps.count < most (stage_after t.value)) }
    {
        let n = self.next;
        let writing = self.stage == Stage::Writing;
        let room = writing && self.steps.count < 8;
        match s.get(n) {
            Some(b'E') if room => worded(s, n, b"ECHO;", Step::Echo),
            Some(b'M') if room => mark(s, n),
            Some(b'B') if writing => begin(s, n, conditions),
            Some(b'R') if writing => worded(s, n, b"REJECT;", Step::Reject),
            _ => more_or_less(s, n),
        }
    }

    // One step more, and the blanks behind it.
    pub(crate) fn more(self, s: &[u8], conditions: &Conditions) -> Result<Reading, Fault>
        ensures is { reads result ≡ step_more s.now (known conditions.now) (view self) }
        ensures moves { IfOk result (λ q. (self.next < q.next) × (q.next ≤ length s.now)) }
    {
        if self.stage == Stage::Ended {
            return Err(misfit(self.next));
        }
        let one = self.step(s, conditions)?;
        let stage = stage_after(one.value);
        Ok(Reading {
            steps: self.steps.with(one.value),
            stage,
            next: past_blanks(stage, s, one.next),
        })
    }
}
