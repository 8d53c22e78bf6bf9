//! The messages and receives of the central registry.
#![tactic(auto)]

mod firsts;
mod mail;
mod messages;
mod posted;
mod receives;
mod sent;

pub use mail::Mail;
pub use messages::Message;
pub use receives::Receive;
