// The line machine: takes bytes in pieces of any size, cuts lines, counts them, and says what is refused. What a line does is its user's.
#![tactic(auto)]

mod line;
mod program;
mod said;

pub use line::Line;
pub use program::Program;
pub use said::{put_both, put_refusal, refusal};
