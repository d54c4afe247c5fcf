// The steps of an action, in a list with room for all that there may be.
ghost use Rattle.std.specs.Prelude.{◌≡◌, ◌+◌, ◌<◌, [], ◌∷◌, ◌++◌, length};
ghost use Rattle.actions.specs.Given.{given, padded};

use grammar::Step;

// How many steps an action may have: eight that write, a BEGIN, and one at the end.
pub const STEPS: usize = 10;

// The steps of an action, and None behind them. No Vec: the library has no heap.
#[derive(Clone, Copy)]
pub struct Steps {
    pub list: [Option<Step>; STEPS],
    pub count: usize,
    pub ghost counted: { length (given list count) ≡ count },
    pub ghost padded: { list ≡ padded (given list count) },
}

impl Steps {
    ghost use Rattle.actions.specs.Steps.{taken};

    pub(crate) fn none() -> Steps
        ensures { taken result ≡ [] }
    {
        Steps {
            list: [None; STEPS],
            count: 0,
        }
    }

    pub(crate) fn with(self, step: Step) -> Steps
        requires { self.count < 10 }
        ensures more { taken result ≡ taken self ++ (step ∷ []) }
        ensures count { result.count ≡ self.count + 1 }
    {
        let mut list = self.list;
        let count = self.count;
        list[count] = Some(step);
        Steps {
            list,
            count: count + 1,
        }
    }
}
