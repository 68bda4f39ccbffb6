// What is wrong with the texts of a launch that is refused.
#![tactic(auto)]

mod books;
mod groups;

pub use books::{Fault, check_book};
pub use groups::{Spot, Stranger, torn_group, unlisted};
