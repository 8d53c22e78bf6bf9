//! One receive, and the message that it has taken.
ghost use Rattle.std.specs.Prelude.{◌≡◌, ◌==◌, ◌&&◌, Some};
ghost use Rattle.mpi_law.specs.Registry.State.{place_in, comm_at};
ghost use Rattle.mpi_law.specs.Registry.Messages.{is_receive, is_waiting, allows, fits, is_overtaken, is_preceded};
ghost use Rattle.mpi_law.specs.Registry.Replies.{owed_receive};
ghost use Rattle.central_mail.specs.Mail.{mail_registry, no_mail};
ghost use Rattle.central_mail.specs.Rows.{as_posted, taking_if, waits_on};

use crate::messages::{MessageRow, rank_in};
use central_comms::Comms;
use mpi_base::Reply;
use std::marker::Model;

/// A receive as it is posted.
#[derive(Clone, Copy, Drop)]
pub struct Receive {
    /// The receiver's rank in the world.
    pub rank: u16,
    /// The receiver's count of receives, from 1.
    pub number: u64,
    /// The place of its communicator, from 0.
    pub comm: u16,
    /// The sender's rank in the communicator; None where it is any.
    pub source: Option<u16>,
    /// The tag; None where it is any.
    pub tag: Option<u16>,
    /// For how many bytes there is room.
    pub room: u32,
}

/// A receive that was posted, and the message that it has taken.
#[derive(Drop)]
pub(crate) struct ReceiveRow {
    receive: Receive,
    taken: Option<MessageRow>,
}

impl Model for ReceiveRow {
    ghost use Rattle.mpi_law.specs.Registry.State.{Receive as Posted};
    ghost use Rattle.central_mail.specs.Rows.{with_taken};

    ghost Value = { Posted };

    ghost view = { λ s. with_taken s.receive s.taken };
}

/// Whether it is any, or just this number.
fn allows(wanted: Option<u16>, number: u16) -> bool
    ensures { result ≡ allows wanted number }
{
    match wanted {
        Some(wanted) => wanted == number,
        None => true,
    }
}

impl ReceiveRow {
    /// A receive that has taken no message.
    pub(crate) fn new(receive: Receive) -> ReceiveRow
        ensures { result ≡ as_posted receive }
    {
        ReceiveRow {
            receive,
            taken: None,
        }
    }

    /// The receiver's rank in the world.
    pub(crate) fn rank(&self) -> u16
        ensures { result ≡ self.now.rank }
    {
        self.receive.rank
    }

    /// The receiver's count of receives.
    pub(crate) fn number(&self) -> u64
        ensures { result ≡ self.now.number }
    {
        self.receive.number
    }

    /// Whether it is the receive of a rank with a number.
    pub(crate) fn is(&self, rank: u16, number: u64) -> bool
        ensures { result ≡ is_receive rank number self.now }
    {
        self.receive.rank == rank && self.receive.number == number
    }

    /// Whether it has taken no message.
    pub(crate) fn is_waiting(&self) -> bool
        ensures { result ≡ is_waiting self.now }
    {
        self.taken.is_none()
    }

    /// Whether it is a receive of a rank on the communicator at a place that has taken no message.
    pub(crate) fn waits_on(&self, place: usize, rank: u16) -> bool
        ensures { result ≡ waits_on place rank self.now }
    {
        self.is_waiting() && self.receive.rank == rank && self.receive.comm as usize == place
    }

    /// Whether it fits a message (MPI 4.0, 3.2.4).
    pub(crate) fn fits(&self, comms: &Comms, message: &MessageRow) -> bool
        ensures { result ≡ fits (mail_registry comms.now no_mail) self.now message.now }
    {
        self.receive.comm == message.comm()
            && self.receive.rank == message.to()
            && self.wants(comms, message)
    }

    /// Whether its source and its tag are any or the message's.
    fn wants(&self, comms: &Comms, message: &MessageRow) -> bool
        ensures { result ≡ (allows self.now.source (place_in (comm_at (mail_registry comms.now no_mail) message.now.comm).members message.now.from) && allows self.now.tag message.now.tag) }
    {
        let source = rank_in(comms, message.comm(), message.from());
        allows(self.receive.source, source) && allows(self.receive.tag, message.tag())
    }

    /// Whether it fits an unmatched message of the sender of a given one, on the same communicator, that
    /// was sent before that one.
    pub(crate) fn fits_earlier(
        &self,
        comms: &Comms,
        message: &MessageRow,
        other: &MessageRow,
    ) -> bool
        ensures { result ≡ is_overtaken (mail_registry comms.now no_mail) self.now message.now other.now }
    {
        other.is_unmatched()
            && other.from() == message.from()
            && other.comm() == message.comm()
            && other.number() < message.number()
            && self.fits(comms, other)
    }

    /// Whether it has taken no message, was posted before a given receive of the same rank, and fits a
    /// message.
    pub(crate) fn precedes(&self, comms: &Comms, receive: &ReceiveRow, message: &MessageRow) -> bool
        ensures { result ≡ is_preceded (mail_registry comms.now no_mail) receive.now message.now self.now }
    {
        self.is_waiting()
            && self.receive.rank == receive.rank()
            && self.receive.number < receive.number()
            && self.fits(comms, message)
    }

    /// It takes a message if it is the receive of a rank with a number.
    pub(crate) fn take_if(&mut self, rank: u16, number: u64, message: &MessageRow)
        ensures { self.new ≡ taking_if rank number message.now self.old }
    {
        if self.is(rank, number) {
            self.taken = Some(message.copy());
        }
    }

    /// What it is answered, once it has taken a message.
    pub(crate) fn owed(&self, comms: &Comms) -> Option<Reply>
        ensures { result ≡ owed_receive (mail_registry comms.now no_mail) (Some self.now) }
    {
        let message = self.taken.as_ref()?;
        Some(message.received(comms, self.receive.room))
    }
}
