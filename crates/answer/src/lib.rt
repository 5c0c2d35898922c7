// The answer of the small program: the run of what was read, and what is written of it.
#![tactic(auto)]

mod answering;
mod writing;

pub use answering::answer;
