//! What the names of a rank are bound to.
#![tactic(auto)]

mod binds;
mod bound;
mod laws;
mod objects;

pub use binds::Binds;
pub use bound::Bound;
pub use laws::{changed_names_change, other_names_stay, session_ends};
pub use objects::Objects;
