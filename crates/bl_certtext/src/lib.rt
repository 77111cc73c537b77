//! The text of a certificate: which line may stand where, and the reader of the whole text.
//!
//! The grammar is a stack of the parts that are expected, the next one first. Each line takes the first part away and
//! puts the parts in its place that are expected then: `step`. A text begins with `Part::Version` and ends where no
//! part is left. The lines themselves are of `bl_certline`.
#![tactic(auto)]

mod cert;
mod form;
pub mod laws;
mod part;
mod places;
mod read;
mod region;
mod stepping;

pub use bl_certline::{CertLine, TightItem, next_line, pair_field, put_line, whole_field};
pub use cert::{CertError, RawCert};
pub use form::has_form;
pub use part::{Following, Part};
pub use places::lower_count;
pub use read::read_cert;
pub use region::Region;
pub use stepping::step;

#[cfg(test)]
mod tests;
