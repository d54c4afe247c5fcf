// A reader goes over a source with a table: it offers readings, and takes bytes. A book is a list
// of lines to a reader, with its answers.
#![tactic(auto)]

mod fault;
mod finds;
mod holding;
mod idle;
mod reader;
mod state;
mod steps;
mod strip;
mod whole;

pub use fault::ScanFault;
pub use state::{Holding, Idle, Refused};
pub use strip::STRIP_BYTES;
pub use whole::{BookFault, book};
