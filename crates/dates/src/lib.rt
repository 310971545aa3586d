// Gregorian dates: which days there are, which comes first, and how a date is read.
#![tactic(auto)]

mod date;
mod digits;
mod reading;

pub use date::{Date, days_in, is_leap};
pub use digits::read_number;
pub use reading::read_date;
