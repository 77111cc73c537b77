//! Whole runs of `check` over certificates in memory. Nothing else stands here: the tests are apart from the program's
//! commands so that a change of theirs leaves those proved.
#![tactic(auto)]

#[cfg(test)]
mod tests;
