//! The program's commands.
#![tactic(auto)]

mod cert;
mod check;
mod fault;
mod read;
mod report;
mod show;
mod solve;
mod status;
#[cfg(test)]
mod tests;
mod top;

pub use status::Status;
pub use top::{out_of_memory, run, run_alone, run_check, run_show};
