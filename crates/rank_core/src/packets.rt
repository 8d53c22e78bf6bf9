//! Packets between ranks.
ghost use Rattle.std.specs.Prelude.{◌≡◌, ℕ};
ghost use Rattle.mpi_protocol.specs.Packets.{said_of as said_of_verdict, brief_of};
ghost use Rattle.rank_core.specs.Packets.{packet_of};

use agree_law::Verdict;
use and_reduce::Packet as AgreePacket;
use mpi_base::{Brief, Msg, Said};

/// A packet from one rank to another.
#[derive(Drop)]
pub enum Packet<const W: usize> {
    /// A packet of the agreement on a context.
    Agreeing(AgreePacket<W>),
    /// A message.
    Message(Msg),
    /// The sender has left the communicator with this context.
    Marker(u16),
}

/// A packet with its receiver.
#[derive(Drop)]
pub struct Sent<const W: usize> {
    /// The rank that it goes to.
    pub to: u16,
    /// The packet.
    pub packet: Packet<W>,
}

/// What a verdict says in the journal.
pub(crate) fn said_of(verdict: Verdict) -> Said
    ensures { result ≡ said_of_verdict verdict }
{
    match verdict {
        Verdict::Ready => Said::Ready,
        Verdict::Retry => Said::Retry,
        Verdict::Context(ctx) => Said::Picked(ctx),
        Verdict::Exhausted => Said::Exhausted,
    }
}

/// A packet of the agreement without its mask and its shares.
fn brief_of_agreement<const W: usize>(packet: &AgreePacket<W>) -> Brief
    ensures { (top : ℕ) → result ≡ brief_of (packet_of top (Packet.Agreeing packet.now)) }
{
    match packet {
        AgreePacket::Up {
            key,
            round,
            own,
            ..
        } => Brief::Up {
            round: *round,
            own: *own,
            key: key.copy(),
        },
        AgreePacket::Down {
            key,
            round,
            verdict,
        } => Brief::Down {
            round: *round,
            said: said_of(*verdict),
            key: key.copy(),
        },
        AgreePacket::Share { key, .. } => Brief::Share { key: key.copy() },
        AgreePacket::Shares { key, .. } => Brief::Shares { key: key.copy() },
    }
}

impl<const W: usize> Packet<W> {
    /// The packet without its mask, its bytes and its shares.
    pub(crate) fn brief(&self) -> Brief
        ensures { (top : ℕ) → result ≡ brief_of (packet_of top self.now) }
    {
        match self {
            Packet::Agreeing(packet) => brief_of_agreement(packet),
            Packet::Message(msg) => Brief::Msg {
                ctx: msg.ctx,
                lane: msg.lane,
                number: msg.number,
            },
            Packet::Marker(ctx) => Brief::Marker { ctx: *ctx },
        }
    }
}
