//! Leaves that cite cuts which are proved by `bl_cut_proof`, on which `bl_tree` doesn't stand. Only tests stand here.
#![tactic(auto)]

#[cfg(test)]
mod tests;
