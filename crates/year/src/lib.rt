// A year on one page: the step of `months` from line to line, and its twelve rows.
#![tactic(auto)]

mod booked;
mod page;
mod stages;

pub use booked::Booked;
pub use stages::Year;
