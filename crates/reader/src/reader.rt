// A reader, in one of its two states.
use crate::state::{Holding, Idle};

pub(crate) enum Reader {
    Waiting(Idle),
    InHand(Holding),
}

impl Reader {
    // Lets it go.
    pub(crate) fn close(self) {
        match self {
            Reader::Waiting(idle) => idle.close(),
            Reader::InHand(holding) => holding.close(),
        }
    }
}
