// A book of the rules of a file.
#![tactic(auto)]

mod fault;
mod whole;

pub use fault::RuleBookFault;
pub use whole::book_of_rules;
