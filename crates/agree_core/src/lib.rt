//! How one rank agrees with the other members of a creation on a context: its mask with the key that
//! owns it, its open creations, and what it gathers. Each call is one move of the agreement, and
//! nothing here allocates but `start` and `reserve`.
#![tactic(auto)]

mod agreements;
mod classes;
mod offering;
mod rows;
mod settling;
mod sharing;

pub use agreements::{Agreements, Busy};
