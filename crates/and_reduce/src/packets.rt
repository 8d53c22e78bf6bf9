//! Packets of the agreement.
ghost use Rattle.std.specs.Prelude.{◌≡◌, ◌≤◌};

use crate::share_lists::ShareList;
use agree_law::Verdict;
use ctx_mask::Mask;
use mpi_base::{Key, Shared1};

/// A packet from one member of a key to another. `Up` goes to the parent in the key's tree and
/// `Down` to a child; `Share` goes to the first member, and `Shares` comes from it.
#[derive(Drop)]
pub enum Packet<const W: usize> {
    /// What a subtree offers in a round.
    Up {
        /// The creation's key.
        key: Key,
        /// The round, from 0.
        round: u64,
        /// Whether each member of the subtree owns.
        own: bool,
        /// The contexts that all of them offer.
        mask: Mask<W>,
    },
    /// What the first member says of a round.
    Down {
        /// The creation's key.
        key: Key,
        /// The round, from 0.
        round: u64,
        /// What is said.
        verdict: Verdict,
    },
    /// A member's share of a split.
    Share {
        /// The exchange's key.
        key: Key,
        /// The share.
        share: Shared1,
    },
    /// All members' shares of a split.
    Shares {
        /// The exchange's key.
        key: Key,
        /// The shares, in order of place.
        list: ShareList,
    },
}

/// A packet with its receiver.
#[derive(Drop)]
pub struct Sent<const W: usize> {
    /// The rank that it goes to.
    pub to: u16,
    /// The packet.
    pub packet: Packet<W>,
}

impl<const W: usize> Packet<W> {
    /// The same packet once more.
    pub fn copy(&self) -> Packet<W>
        requires words { (1 ≤ W) × (W ≤ 32) }
        ensures same { result ≡ self.now }
    {
        match self {
            Packet::Up {
                key,
                round,
                own,
                mask,
            } => Packet::Up {
                key: key.copy(),
                round: *round,
                own: *own,
                mask: mask.copy(),
            },
            Packet::Down {
                key,
                round,
                verdict,
            } => Packet::Down {
                key: key.copy(),
                round: *round,
                verdict: *verdict,
            },
            Packet::Share { key, share } => Packet::Share {
                key: key.copy(),
                share: *share,
            },
            Packet::Shares { key, list } => Packet::Shares {
                key: key.copy(),
                list: list.copy(),
            },
        }
    }
}
