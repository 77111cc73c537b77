//! The way of a checker of certificates through a text: line after line it asks a judge of the rules, and tells the
//! first line that is refused and by which rule. It calls nothing of the solver.
#![tactic(auto)]

mod fail;
mod judge;
mod site;
mod way;

pub use bl_check_terms::CertRule;
pub use fail::CheckFail;
pub use judge::Judge;
pub use site::Site;
pub use way::walk;
