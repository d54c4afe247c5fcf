// The bounds of an interval: `{m}`, `{m,n}` or `{m,}`.
ghost use Rattle.std.specs.Prelude.{◌≡◌, ℕ, ◌≤◌, length, IfOk};
ghost use Rattle.grammar.specs.Outcome.{Moves};
ghost use Rattle.grammar.specs.Expressions.{bounds_at, behind_low, up_to, extra};

use grammar::{Fault, Interval, Read, Refusal, misfit, refused};
use tokens::{Token, number_at, stands};

// The largest bound.
const LARGEST: usize = 32;

// The second bound, at k, behind a first bound m and a comma; or the `}` of `{m,}`.
fn up_to(s: &[u8], m: usize, k: usize) -> Result<Read<Interval>, Fault>
    ensures is { result ≡ up_to s.now m k }
    ensures moves { Moves result k (length s.now) }
{
    if stands(s, k, b'}') {
        return Ok(Read {
            value: Interval::AtLeast(m),
            next: k + 1,
        });
    }
    let Some(Token::Number(digits)) = number_at(s, k, 2) else {
        return Err(misfit(k));
    };
    let high = tokens::value(digits);
    if high > LARGEST || high < m || high < 1 {
        return Err(refused(Refusal::OutOfBounds, k));
    }
    let next = k + digits.len();
    if !stands(s, next, b'}') {
        return Err(misfit(next));
    }
    Ok(Read {
        value: Interval::Between(m, high),
        next: next + 1,
    })
}

// What stands at k, behind the first bound m, which was read at n.
fn behind_low(s: &[u8], n: usize, m: usize, k: usize) -> Result<Read<Interval>, Fault>
    ensures is { result ≡ behind_low s.now n m k }
    ensures moves { Moves result k (length s.now) }
{
    match s.get(k) {
        Some(b'}') if m < 1 => Err(refused(Refusal::OutOfBounds, n)),
        Some(b'}') => Ok(Read {
            value: Interval::Between(m, m),
            next: k + 1,
        }),
        Some(b',') => up_to(s, m, k + 1),
        _ => Err(misfit(k)),
    }
}

// An interval's bounds, behind its `{`.
pub(crate) fn bounds(s: &[u8], n: usize) -> Result<Read<Interval>, Fault>
    ensures is { result ≡ bounds_at s.now n }
    ensures moves { Moves result n (length s.now) }
    ensures small { IfOk result (λ b. extra b.value ≤ 32) }
{
    let Some(Token::Number(digits)) = number_at(s, n, 2) else {
        return Err(misfit(n));
    };
    let low = tokens::value(digits);
    if low > LARGEST {
        return Err(refused(Refusal::OutOfBounds, n));
    }
    behind_low(s, n, low, n + digits.len())
}
