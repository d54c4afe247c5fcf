// Heads that are told in one pass for each rule with a trailing part.
ghost use Rattle.std.specs.Prelude.{◌≡◌, replicate};
ghost use Rattle.scan.specs.Traced.{head_in, ToldIn};

use crate::ending::Ending;
use crate::trails::Trails;
use bits::Bits;
use source::Source;

/// Lent memory for the head that one rule has with each total. What it holds does not matter.
#[derive(Clone, Copy)]
pub struct RuleHeads {
    pub(crate) heads: [u16; 1024],
}

impl RuleHeads {
    /// Memory for the heads of a rule, with none told yet.
    pub fn new() -> RuleHeads
        ensures { result.heads ≡ replicate 1024 0 }
    {
        RuleHeads { heads: [0; 1024] }
    }
}

// The head of a reading, where `told` are the rules whose heads are told. Those of another rule
// with a trailing part are told first, if there is memory for them.
pub(crate) fn told_head<S: Source>(
    ending: &Ending<S>,
    heads: &mut [RuleHeads],
    told: &mut Bits<1>,
    trails: &mut Trails,
) -> usize
    requires { ToldIn ending.now.trace.now heads.old told.old.words }
    ensures head { result ≡ head_in ending.now.trace.now ending.now.total ending.now.rule }
    ensures told { ToldIn ending.now.trace.now heads.new told.new.words }
{
    let Some(trail) = ending.trace.table.trail(ending.rule + 1) else {
        return ending.total;
    };
    if ending.rule >= heads.len() {
        return ending.trace.head_by(ending.rule, ending.total, trails);
    }
    if !told.has(ending.rule) {
        ending
            .trace
            .heads(&trail, ending.rule, &mut heads[ending.rule], trails);
        told.insert(ending.rule);
    }
    heads[ending.rule].heads[ending.total - 1] as usize
}
