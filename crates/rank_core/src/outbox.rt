//! What a rank has sent in a step.
ghost use Rattle.std.specs.Prelude.{◌≡◌, ◌≤◌, ◌+◌, ℕ, [], ◌∷◌, OnOk, IfSome, Some, None};
ghost use Rattle.std.specs.Option.{IfNone};
ghost use Rattle.rank_core.specs.Packets.{sent_of, sent_by};

use crate::packets::{Packet, Sent};
use and_reduce::Sent as AgreeSent;
use mpi_base::OutOfMemory;
use std::alloc::Global;
use std::marker::Model;

/// The packets that a rank sends in a step, each with its receiver, in order. A step sends packets of
/// the agreement, or a message, or markers.
#[derive(Drop)]
pub struct Outbox<const W: usize> {
    pub(crate) agreed: Vec<AgreeSent<W>>,
    pub(crate) others: Vec<Sent<W>>,
}

impl<const W: usize> Model for Outbox<W> {
    ghost use Rattle.std.specs.Prelude.{min};
    ghost use Rattle.and_reduce.specs.Rooms.{room_of};
    ghost use Rattle.rank_core.specs.Packets.{Box};

    ghost Value = { Box W };

    ghost view = { λ o. record { agreed = o.agreed.items; others = o.others.items; room = min (room_of o.agreed) (room_of o.others) } };
}

impl<const W: usize> Outbox<W> {
    /// An empty one.
    pub fn none(alloc: Global) -> Outbox<W>
        ensures agreed { result.agreed ≡ [] }
        ensures others { result.others ≡ [] }
    {
        Outbox {
            agreed: Vec::new(alloc),
            others: Vec::new(alloc),
        }
    }

    /// Makes room for all that a step may send. What is there stays, whatever it answers.
    pub fn reserve(&mut self) -> Result<(), OutOfMemory>
        ensures agreed { self.new.agreed ≡ self.old.agreed }
        ensures others { self.new.others ≡ self.old.others }
        ensures ok { OnOk result (16 ≤ self.new.room) }
    {
        self.agreed.reserve(16)?;
        self.others.reserve(16)?;
        Ok(())
    }

    /// Takes out the first packet; None exactly where there is none.
    pub fn take_first(&mut self) -> Option<Sent<W>>
        ensures none { IfNone result ((top : ℕ) → sent_by top self.old ≡ []) }
        ensures some { IfSome result (λ s. (top : ℕ) → sent_by top self.old ≡ sent_of top s ∷ sent_by top self.new) }
        ensures empty { IfNone result ((self.new.agreed ≡ []) × (self.new.others ≡ [])) }
        ensures room { self.old.room ≤ self.new.room }
    {
        if self.agreed.is_empty() {
            if self.others.is_empty() {
                return None;
            }
            return Some(self.others.remove(0));
        }
        let sent = self.agreed.remove(0);
        Some(Sent {
            to: sent.to,
            packet: Packet::Agreeing(sent.packet),
        })
    }
}
