//! Small bilevel programs whose answers were worked out by hand, for the tests of the crates above.
#![tactic(auto)]

mod parts;
mod programs;

pub use programs::{
    dearer_moore_bard, equal_responses, half, leader_row, least_under_leader, moore_bard,
    most_under_leader, no_follower, one_point, two_sums,
};
