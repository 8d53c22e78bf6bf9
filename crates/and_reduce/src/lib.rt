//! What the members of a creation gather from each other over a binomial tree: offers of contexts,
//! whose masks are joined by *and*, and shares of a split. Offers and shares of all keys stand in one
//! list each, in the order in which they come, since a rank has few creations open at a time.
#![tactic(auto)]

mod gathers;
mod offers;
mod packets;
mod share_lists;
mod shares;
mod tree;

pub use gathers::{Gathers, Joined};
pub use offers::OfferRow;
pub use packets::{Packet, Sent};
pub use share_lists::ShareList;
pub use shares::ShareGathers;
pub use tree::{is_child, is_first, is_member, member_at, parent_of, place_in};
