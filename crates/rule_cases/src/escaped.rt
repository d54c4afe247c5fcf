// Bytes written as a line of readable text. `~n`, `~t`, `~s` and `~~` are a newline, a tab, a space and a tilde, `~xHH` is the
// byte of two hexadecimal digits, `~[COUNT|TEXT~]` is TEXT as often as COUNT says, and any other byte is itself.
ghost use Rattle.std.specs.Prelude.{◌≡◌, ◌+◌, ◌<◌, ◌≤◌, true, length, IfSome, IfOk};
ghost use Rattle.grammar.specs.Bytes.{stands};
ghost use Rattle.rule_cases.specs.Escapes.{digit_of, named_by, hexadecimal_at, escape_at, unit_at, bracket_at};
ghost use Rattle.rule_cases.specs.Runs.{Counts, Added, Run, Means};

use anyhow::{Context, ensure};
use grammar::Read;
use std::alloc::Global;

// The value of a hexadecimal digit.
fn digit(b: u8) -> Option<u8>
    ensures { result ≡ digit_of b }
{
    match b {
        b'0'..=b'9' => Some(b - b'0'),
        b'a'..=b'f' => Some(b - b'a' + 10),
        _ => None,
    }
}

// What the letter behind a `~` means.
fn named(letter: u8) -> Option<u8>
    ensures { result ≡ named_by letter }
{
    match letter {
        b'n' => Some(b'\n'),
        b't' => Some(b'\t'),
        b's' => Some(b' '),
        b'~' => Some(b'~'),
        _ => None,
    }
}

// The byte of the two hexadecimal digits at `at`.
fn hexadecimal(text: &[u8], at: usize) -> Option<Read<u8>>
    ensures { result ≡ hexadecimal_at text.now at }
{
    let high = digit(*text.get(at)?)?;
    let low = digit(*text.get(at + 1)?)?;
    Some(Read {
        value: high * 16 + low,
        next: at + 2,
    })
}

// What is meant by a `~` with the letter at `at` behind it.
fn escape(text: &[u8], at: usize) -> Option<Read<u8>>
    ensures { result ≡ escape_at text.now at }
{
    let letter = *text.get(at)?;
    if letter == b'x' {
        return hexadecimal(text, at + 1);
    }
    Some(Read {
        value: named(letter)?,
        next: at + 1,
    })
}

// The byte that is meant at `at`, by itself or by an escape.
fn unit(text: &[u8], at: usize) -> Option<Read<u8>>
    ensures { result ≡ unit_at text.now at }
{
    let value = *text.get(at)?;
    if value == b'~' {
        return escape(text, at + 1);
    }
    Some(Read {
        value,
        next: at + 1,
    })
}

// Whether `~` and this bracket stand at `at`.
fn bracket(text: &[u8], at: usize, b: u8) -> bool
    ensures { result ≡ bracket_at text.now at b }
{
    text.get(at) == Some(&b'~') && text.get(at + 1) == Some(&b)
}

// Adds the bytes that are meant from `from` on, up to a bracket or the text's end, and says where that is.
fn units(text: &[u8], from: usize, out: &mut Vec<u8>) -> anyhow::Result<usize>
    requires { from ≤ length text.now }
    ensures within { IfOk result (λ m. (from ≤ m) × (m ≤ length text.now)) }
    ensures added { IfOk result (λ m. Added text.now from m out.old.items out.new.items) }
{
    // What is read says where the next begins, so that no iterator over the bytes is plainer.
    let mut at = from;
    while at < text.len() && !bracket(text, at, b'[') && !bracket(text, at, b']') {
        let meant = unit(text, at).context("an escape is cut off or not known")?;
        out.push(meant.value)?;
        at = meant.next;
    }
    Ok(at)
}

// The count at `from`, at most 9,999, and the place of the `|` behind it.
fn count(text: &[u8], from: usize) -> Option<Read<usize>>
    ensures { IfSome result (λ k. Counts text.now from k.next k.value
        × (stands text.now k.next 124 ≡ true) × (from ≤ k.next)) }
{
    let mut times = 0;
    for (n, b) in text.get(from..)?.iter().enumerate() {
        match *b {
            b'|' => {
                return Some(Read {
                    value: times,
                    next: from + n,
                });
            }
            b @ b'0'..=b'9' if times <= 999 => times = times * 10 + (b - b'0') as usize,
            _ => return None,
        }
    }
    None
}

// Adds a run whose count stands at `from`, as often as it says, and gives the place behind its `~]`.
fn run(heap: Global, text: &[u8], from: usize, out: &mut Vec<u8>) -> anyhow::Result<usize>
    ensures within { IfOk result (λ m. (from < m) × (m ≤ length text.now)) }
    ensures run { IfOk result (λ m. Run text.now from m out.old.items out.new.items) }
{
    let count = count(text, from).context("a run has no count")?;
    let mut bytes = Vec::new(heap);
    let end = units(text, count.next + 1, &mut bytes)?;
    ensure!(bracket(text, end, b']'), "a run is not closed");
    // As often as the count says; no index.
    for _ in 0..count.value {
        out.extend_from_slice(bytes.as_slice())?;
    }
    Ok(end + 2)
}

// The bytes that the text means.
pub fn decode(heap: Global, text: &[u8]) -> anyhow::Result<Vec<u8>>
    ensures { IfOk result (λ v. Means text.now (length text.now) v.items) }
{
    let mut out = Vec::new(heap);
    // As in `units`, a place follows from what is read before it.
    let mut at = units(text, 0, &mut out)?;
    while at < text.len() {
        ensure!(
            bracket(text, at, b'['),
            "a run is closed that was not opened"
        );
        let behind = run(heap, text, at + 2, &mut out)?;
        at = units(text, behind, &mut out)?;
    }
    Ok(out)
}
