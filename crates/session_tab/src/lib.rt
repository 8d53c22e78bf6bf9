//! The sessions of a rank (MPI 4.0, 11.3.1).
#![tactic(auto)]

mod ids;
mod sessions;

pub use ids::SessionId;
pub use sessions::Sessions;
