// The desk: what the lines of a session lead to and print, from marks to the result.
#![tactic(auto)]

mod page;
mod stages;

pub use stages::{Desk, first_answer, spoken};
