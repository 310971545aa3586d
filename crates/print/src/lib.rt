// Numbers, running times and patterns, laid one behind the other on a page.
#![tactic(auto)]

mod page;

pub use page::Page;
