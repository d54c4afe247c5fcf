// Actions: `;` alone, or one or more steps.
#![tactic(auto)]

ghost use Rattle.std.specs.Prelude.{◌≡◌, ℕ, ◌<◌, ◌≤◌, length, IfOk};
ghost use Rattle.grammar.specs.declared.Stage.TheVariants.{Writing, Begun, Ended};
ghost use Rattle.grammar.specs.Outcome.{Moves, then, read};
ghost use Rattle.grammar.specs.Bytes.{literal as literal_at};
ghost use Rattle.grammar.specs.Actions.{action_at, nothing_behind, numeral as numeral_at, mark_at, begin_at, more_or_less_at, stage_after};
ghost use Rattle.conditions.specs.Known.{known};
ghost use Rattle.actions.specs.Given.{Past};
ghost use Rattle.actions.specs.Steps.{does, made_by};

mod reading;
mod steps;

use conditions::Conditions;
use grammar::{Fault, Read, Refusal, Step, misfit, refused};
use reading::Reading;
pub use steps::{STEPS, Steps};
use tokens::{Token, literal, number_at, stands};

// The step that this word at n stands for.
fn worded(s: &[u8], n: usize, word: &[u8], step: Step) -> Result<Read<Step>, Fault>
    ensures is { result ≡ then (literal_at word.now s.now n) (read step) }
    ensures past { 0 < length word.now → IfOk result (Past s.now n (stage_after step)) }
{
    let next = literal(s, n, word)?;
    Ok(Read { value: step, next })
}

// The number at n, which has to be within its bounds, and what closes it. The bounds are two numbers: a RangeInclusive
// also says whether it is used up, which the contract would have to rule out.
fn numeral(s: &[u8], n: usize, low: usize, high: usize, behind: &[u8]) -> Result<Read<usize>, Fault>
    ensures is { (make : ℕ → Step) → made_by make result ≡ numeral_at s.now low high make behind.now
        n }
    ensures most { IfOk result (λ x. x.value ≤ high) }
    ensures moves { 0 < length behind.now → Moves result n (length s.now) }
{
    let Some(Token::Number(digits)) = number_at(s, n, 4) else {
        return Err(misfit(n));
    };
    let value = tokens::value(digits);
    if !(low..=high).contains(&value) {
        return Err(refused(Refusal::OutOfBounds, n));
    }
    let next = literal(s, n + digits.len(), behind)?;
    Ok(Read { value, next })
}

// `MARK n;`
fn mark(s: &[u8], n: usize) -> Result<Read<Step>, Fault>
    ensures is { result ≡ mark_at s.now n }
    ensures past { IfOk result (Past s.now n Writing) }
{
    let from = literal(s, n, b"MARK ")?;
    let number = numeral(s, from, 0, 255, b";")?;
    Ok(Read {
        value: Step::Mark(number.value as u8),
        next: number.next,
    })
}

// `BEGIN name;`
fn begin(s: &[u8], n: usize, conditions: &Conditions) -> Result<Read<Step>, Fault>
    ensures is { result ≡ begin_at s.now (known conditions.now) n }
    ensures past { IfOk result (Past s.now n Begun) }
{
    let from = literal(s, n, b"BEGIN ")?;
    let named = conditions.named(s, from)?;
    worded(s, named.next, b";", Step::Begin(named.value))
}

// `yymore();` or `yyless(n);`
fn more_or_less(s: &[u8], n: usize) -> Result<Read<Step>, Fault>
    ensures is { result ≡ more_or_less_at s.now n }
    ensures past { IfOk result (Past s.now n Ended) }
{
    let from = literal(s, n, b"yy")?;
    if stands(s, from, b'm') {
        return worded(s, from, b"more();", Step::More);
    }
    let inside = literal(s, from, b"less(")?;
    let number = numeral(s, inside, 1, 4096, b");")?;
    Ok(Read {
        value: Step::Less(number.value as u16),
        next: number.next,
    })
}

// No steps, where nothing stands at n.
fn nothing_behind(s: &[u8], n: usize) -> Result<Steps, Fault>
    ensures { does result ≡ nothing_behind s.now n }
{
    if n < s.len() {
        return Err(misfit(n));
    }
    Ok(Steps::none())
}

// The action at n.
pub fn action(s: &[u8], n: usize, conditions: &Conditions) -> Result<Steps, Fault>
    ensures { does result ≡ action_at s.now (known conditions.now) n }
{
    if stands(s, n, b';') {
        return nothing_behind(s, n + 1);
    }
    let mut read = Reading::start(n).more(s, conditions)?;
    // A `while`: each turn reads where the one before ended, and may refuse.
    while read.next < s.len() {
        read = read.more(s, conditions)?;
    }
    Ok(read.steps)
}
