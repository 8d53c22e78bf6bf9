//! One message, and what became of it.
ghost use Rattle.std.specs.Prelude.{◌≡◌};
ghost use Rattle.mpi_law.specs.declared.effects.TheConstants.{MESSAGE_LANE};
ghost use Rattle.mpi_law.specs.Registry.Messages.{is_message, is_unmatched, is_left_on};
ghost use Rattle.mpi_law.specs.Registry.Replies.{received};
ghost use Rattle.mpi_law.specs.Registry.State.{place_in, comm_at};
ghost use Rattle.central_mail.specs.Mail.{mail_registry, no_mail};
ghost use Rattle.central_mail.specs.Rows.{as_sent, matched_if, dropped_if};

use central_comms::Comms;
use mpi_base::{ErrClass, Payload, Reply};
use std::marker::Model;

/// A message as it is sent.
#[derive(Drop)]
pub struct Message {
    /// The place of its communicator, from 0.
    pub comm: u16,
    /// The sender's rank in the world.
    pub from: u16,
    /// The receiver's rank in the world.
    pub to: u16,
    /// The tag, at most 32,767.
    pub tag: u16,
    /// The sender's count of sends, from 1.
    pub number: u64,
    /// The bytes.
    pub payload: Payload,
}

/// What became of a message.
#[derive(Clone, Copy, Drop, PartialEq, Eq)]
pub(crate) enum Fate {
    /// Neither of the two.
    Open,
    /// A receive has taken it.
    Matched,
    /// Its communicator was given back before a receive took it.
    Dropped,
}

/// A message that was sent, and what became of it.
#[derive(Drop)]
pub(crate) struct MessageRow {
    message: Message,
    fate: Fate,
}

impl Model for MessageRow {
    ghost use Rattle.mpi_law.specs.Registry.State.{Message as Sent};
    ghost use Rattle.central_mail.specs.Rows.{with_its, fate_of};

    ghost Value = { Sent };

    ghost view = { λ s. with_its s.message (fate_of s.fate) };
}

/// The rank of a process in the communicator at a place: 0 where it is no member, or no communicator is
/// there.
pub(crate) fn rank_in(comms: &Comms, place: u16, rank: u16) -> u16
    ensures { result ≡ place_in (comm_at (mail_registry comms.now no_mail) place).members rank }
{
    let place = place as usize;
    if place < comms.len() {
        comms.members(place).place_of(rank).unwrap_or(0)
    } else {
        0
    }
}

impl MessageRow {
    /// A message that nothing has become of.
    pub(crate) fn new(message: Message) -> MessageRow
        ensures { result ≡ as_sent message }
    {
        MessageRow {
            message,
            fate: Fate::Open,
        }
    }

    /// The same once more.
    pub(crate) fn copy(&self) -> MessageRow
        ensures { result ≡ self.now }
    {
        MessageRow {
            message: Message {
                comm: self.message.comm,
                from: self.message.from,
                to: self.message.to,
                tag: self.message.tag,
                number: self.message.number,
                payload: self.message.payload.copy(),
            },
            fate: self.fate,
        }
    }

    /// The place of its communicator, on which it goes in the lane of messages.
    pub(crate) fn comm(&self) -> u16
        ensures value { result ≡ self.now.comm }
        ensures lane { self.now.lane ≡ MESSAGE_LANE }
    {
        self.message.comm
    }

    /// The sender's rank in the world.
    pub(crate) fn from(&self) -> u16
        ensures { result ≡ self.now.from }
    {
        self.message.from
    }

    /// The receiver's rank in the world.
    pub(crate) fn to(&self) -> u16
        ensures { result ≡ self.now.to }
    {
        self.message.to
    }

    /// The tag.
    pub(crate) fn tag(&self) -> u16
        ensures { result ≡ self.now.tag }
    {
        self.message.tag
    }

    /// The sender's count of sends.
    pub(crate) fn number(&self) -> u64
        ensures { result ≡ self.now.number }
    {
        self.message.number
    }

    /// Whether it is the message of a sender with a number.
    pub(crate) fn is(&self, from: u16, number: u64) -> bool
        ensures { result ≡ is_message from number self.now }
    {
        self.message.from == from && self.message.number == number
    }

    /// Whether it was neither matched nor dropped.
    pub(crate) fn is_unmatched(&self) -> bool
        ensures { result ≡ is_unmatched self.now }
    {
        matches!(self.fate, Fate::Open)
    }

    /// Whether it is an unmatched message to a rank on the communicator at a place.
    pub(crate) fn is_left_on(&self, place: usize, rank: u16) -> bool
        ensures { result ≡ is_left_on place rank self.now }
    {
        self.is_unmatched() && self.message.comm as usize == place && self.message.to == rank
    }

    /// It is matched if it is the message of a sender with a number.
    pub(crate) fn match_if(&mut self, from: u16, number: u64)
        ensures { self.new ≡ matched_if from number self.old }
    {
        if self.is(from, number) {
            self.fate = Fate::Matched;
        }
    }

    /// It is dropped if it is an unmatched message to a rank on the communicator at a place.
    pub(crate) fn drop_if(&mut self, place: usize, rank: u16)
        ensures { self.new ≡ dropped_if place rank self.old }
    {
        if self.is_left_on(place, rank) {
            self.fate = Fate::Dropped;
        }
    }

    /// What a receive with a room for this many bytes is answered that has taken it (MPI 4.0, 3.2.4 and
    /// 3.2.5).
    pub(crate) fn received(&self, comms: &Comms, room: u32) -> Reply
        ensures { result ≡ received (mail_registry comms.now no_mail) room self.now }
    {
        if (room as usize) < self.message.payload.bytes().len() {
            return Reply::Refused(ErrClass::Truncate);
        }
        Reply::Received {
            source: Some(rank_in(comms, self.message.comm, self.message.from)),
            tag: Some(self.message.tag),
            payload: self.message.payload.copy(),
        }
    }
}
