//! The certificate of a finished search as a text: the entries that the best incumbent and the leaves use, each once
//! and by link, the cuts that the leaves cite, each after those that it uses, and the tree in preorder.
#![tactic(auto)]

mod cited;
mod entries;
mod lines;
mod order;
mod steps;
mod text;
mod tree;

pub use text::{WriteFail, certificate_text, write_cert};
