//! One rank in code: its state, the steps that it may make, and what each does and sends.
#![tactic(auto)]

mod agreeing;
mod answers;
mod calls;
mod creations;
mod delivers;
mod enabled;
mod entries;
mod leaves;
mod messages;
mod next;
mod outbox;
mod packets;
mod rank;

pub use next::StepKind;
pub use outbox::Outbox;
pub use packets::{Packet, Sent};
pub use rank::RankState;
