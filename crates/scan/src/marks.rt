// Marks of rules, bit i for rule i + 1.
ghost use Rattle.std.specs.Prelude.{◌≡◌, suc, ◌<◌};
ghost use Rattle.bits.specs.Set.{bit, FirstBit};

// Whether rule i has its mark among these.
#[tactic(auto, unfolding(bits::specs::Set::bit))]
pub(crate) fn marked(marks: u64, i: usize) -> bool
    requires { i < 64 }
    ensures { result ≡ bit marks i }
{
    (marks >> i) % 2 == 1
}

// The first rule that has its mark among these.
pub(crate) fn first_mark(marks: u64) -> Option<usize>
    ensures { FirstBit marks 0 result }
{
    if marks == 0 {
        return None;
    }
    Some(marks.trailing_zeros() as usize)
}

// The first one behind rule i.
pub(crate) fn next_mark(marks: u64, i: usize) -> Option<usize>
    requires { i < 64 }
    ensures { FirstBit marks (suc i) result }
{
    let behind = marks >> i >> 1;
    if behind == 0 {
        return None;
    }
    Some(i + 1 + behind.trailing_zeros() as usize)
}
