//! The messages and receives of the registry.
ghost use Rattle.std.specs.Prelude.{◌≡◌, ◌&&◌, ◌∷◌, ◌++◌, [], List, get_or, not, OnErr, OnOk};
ghost use Rattle.std.specs.List.{list_any};
ghost use Rattle.mpi_law.specs.Registry.State as state;
ghost use Rattle.mpi_law.specs.Registry.Messages.{fits, is_overtaken, is_preceded, may_match, receive_of, message_of, left_on, drop_left, has_waiting};
ghost use Rattle.mpi_law.specs.Registry.Replies.{owed_receive};
ghost use Rattle.mpi_law.specs.Closed.{is_matched_out};
ghost use Rattle.central_mail.specs.Mail.{mail_registry, no_mail, can_take, after_take};
ghost use Rattle.central_mail.specs.Rows.{as_sent, as_posted, blank_message, blank_receive};

use crate::messages::{Message, MessageRow};
use crate::posted::Posted;
use crate::receives::{Receive, ReceiveRow};
use crate::sent::Sent;
use central_comms::Comms;
use mpi_base::{OutOfMemory, Reply};
use std::alloc::Global;
use std::marker::Model;

/// The messages of the registry, in the order in which they were sent, with what became of each, and its
/// receives, in the order in which they were posted, with the message that each has taken.
///
/// No message and no receive is ever taken out, but the last by `unsend` and `unpost`. What asks for
/// unmatched messages or for receives without a message goes through those alone; the place of a message
/// or a receive with a number is kept by the number, and only a match goes through those that stand behind
/// it.
#[derive(Drop)]
pub struct Mail {
    messages: Sent,
    receives: Posted,
}

impl Model for Mail {
    ghost use Rattle.central_mail.specs.Mail.{MailState};

    ghost Value = { MailState };

    ghost view = { λ s. record { messages = s.messages; receives = s.receives } };
}

impl Mail {
    /// No message, and no receive.
    pub fn none(alloc: Global) -> Mail
        ensures { result ≡ no_mail }
    {
        Mail {
            messages: Sent::none(alloc),
            receives: Posted::none(alloc),
        }
    }

    /// Adds a message at the end, which is open. After an Err nothing has changed.
    pub fn send(&mut self, message: Message) -> Result<(), OutOfMemory>
        ensures ok { OnOk result (self.new.messages ≡ self.old.messages ++ as_sent message ∷ []) }
        ensures err { OnErr result (self.new.messages ≡ self.old.messages) }
        ensures receives { self.new.receives ≡ self.old.receives }
    {
        self.messages.push(message)
    }

    /// Takes the last message out again, if there is one.
    pub fn unsend(&mut self)
        ensures last { (ms : List state.Message) (m : state.Message) → self.old.messages ≡ ms ++ m ∷ [] → self.new.messages ≡ ms }
        ensures none { self.old.messages ≡ [] → self.new.messages ≡ [] }
        ensures receives { self.new.receives ≡ self.old.receives }
    {
        self.messages.pop();
    }

    /// Adds a receive at the end, which has taken no message. After an Err nothing has changed.
    pub fn post(&mut self, receive: Receive) -> Result<(), OutOfMemory>
        ensures ok { OnOk result (self.new.receives ≡ self.old.receives ++ as_posted receive ∷ []) }
        ensures err { OnErr result (self.new.receives ≡ self.old.receives) }
        ensures messages { self.new.messages ≡ self.old.messages }
    {
        self.receives.push(receive)
    }

    /// Takes the last receive out again, if there is one.
    pub fn unpost(&mut self)
        ensures last { (xs : List state.Receive) (x : state.Receive) → self.old.receives ≡ xs ++ x ∷ [] → self.new.receives ≡ xs }
        ensures none { self.old.receives ≡ [] → self.new.receives ≡ [] }
        ensures messages { self.new.messages ≡ self.old.messages }
    {
        self.receives.pop();
    }

    /// Whether the receive of a rank with a number may take the message of a sender with a number (MPI
    /// 4.0, 3.5); not where one of them is absent.
    pub fn can_take(&self, comms: &Comms, rank: u16, number: u64, from: u16, sent: u64) -> bool
        ensures { result ≡ can_take (mail_registry comms.now self.now) (receive_of (mail_registry comms.now self.now) rank number) (message_of (mail_registry comms.now self.now) from sent) }
    {
        match (
            self.receives.receive_of(rank, number),
            self.messages.message_of(from, sent),
        ) {
            (Some(receive), Some(message)) => self.may_match(comms, receive, message),
            _ => false,
        }
    }

    /// Whether a receive may take a message.
    fn may_match(&self, comms: &Comms, receive: &ReceiveRow, message: &MessageRow) -> bool
        ensures { result ≡ may_match (mail_registry comms.now self.now) receive.now message.now }
    {
        receive.is_waiting() && message.is_unmatched() && self.is_first(comms, receive, message)
    }

    /// Whether a receive fits a message, and neither an earlier message fits the receive nor an earlier
    /// receive the message.
    fn is_first(&self, comms: &Comms, receive: &ReceiveRow, message: &MessageRow) -> bool
        ensures { result ≡ (fits (mail_registry comms.now self.now) receive.now message.now && (not (list_any (is_overtaken (mail_registry comms.now self.now) receive.now message.now) self.now.messages) && not (list_any (is_preceded (mail_registry comms.now self.now) receive.now message.now) self.now.receives))) }
    {
        receive.fits(comms, message)
            && !self.messages.is_overtaken(comms, receive, message)
            && !self.receives.is_preceded(comms, receive, message)
    }

    /// The receive of a rank with a number takes the message of a sender with a number, which is matched
    /// then. Without such a message nothing changes; without such a receive the message alone does.
    pub fn take(&mut self, rank: u16, number: u64, from: u16, sent: u64)
        ensures { self.new ≡ after_take self.old rank number from sent }
    {
        if let Some(message) = self.messages.message_of(from, sent) {
            let message = message.copy();
            self.receives.take(rank, number, &message);
            self.messages.match_message(from, sent);
        }
    }

    /// How many unmatched messages to a rank there are on the communicator at a place.
    pub fn left_on(&self, place: usize, rank: u16) -> u64
        ensures { result ≡ left_on (mail_registry [] self.now) place rank }
    {
        self.messages.left_on(place, rank)
    }

    /// Drops the unmatched messages to a rank on the communicator at a place.
    pub fn drop_left(&mut self, place: usize, rank: u16)
        ensures messages { self.new.messages ≡ drop_left (mail_registry [] self.old) place rank }
        ensures receives { self.new.receives ≡ self.old.receives }
    {
        self.messages.drop_left(place, rank);
    }

    /// Whether a receive of a rank on the communicator at a place is without a message.
    pub fn has_waiting(&self, place: usize, rank: u16) -> bool
        ensures { result ≡ has_waiting (mail_registry [] self.now) place rank }
    {
        self.receives.has_waiting(place, rank)
    }

    /// What the receive of a rank with a number is answered; None while it has taken no message, and
    /// where there is no such receive.
    pub fn owed(&self, comms: &Comms, rank: u16, number: u64) -> Option<Reply>
        ensures { result ≡ owed_receive (mail_registry comms.now self.now) (receive_of (mail_registry comms.now self.now) rank number) }
    {
        self.receives.receive_of(rank, number)?.owed(comms)
    }

    /// Whether no receive may take a message.
    pub fn is_matched_out(&self, comms: &Comms) -> bool
        ensures { result ≡ is_matched_out (mail_registry comms.now self.now) }
    {
        !self.any_matches(self.receives.waiting(), comms)
    }

    /// Whether a receive at one of these places may take a message.
    fn any_matches(&self, places: &[usize], comms: &Comms) -> bool
        ensures { result ≡ list_any (λ k. list_any (may_match (mail_registry comms.now self.now) (get_or self.now.receives k blank_receive)) self.now.messages) places.now }
    {
        places.iter().any(|place| self.matches_at(*place, comms))
    }

    /// Whether the receive at a place may take a message.
    fn matches_at(&self, place: usize, comms: &Comms) -> bool
        ensures { result ≡ list_any (may_match (mail_registry comms.now self.now) (get_or self.now.receives place blank_receive)) self.now.messages }
    {
        match self.receives.get(place) {
            Some(receive) => self.has_match(self.messages.unmatched(), comms, receive),
            None => false,
        }
    }

    /// Whether a receive may take a message at one of these places.
    fn has_match(&self, places: &[usize], comms: &Comms, receive: &ReceiveRow) -> bool
        ensures { result ≡ list_any (λ k. may_match (mail_registry comms.now self.now) receive.now (get_or self.now.messages k blank_message)) places.now }
    {
        places
            .iter()
            .any(|place| self.may_match_at(*place, comms, receive))
    }

    /// Whether a receive may take the message at a place.
    fn may_match_at(&self, place: usize, comms: &Comms, receive: &ReceiveRow) -> bool
        ensures { result ≡ may_match (mail_registry comms.now self.now) receive.now (get_or self.now.messages place blank_message) }
    {
        match self.messages.get(place) {
            Some(message) => self.may_match(comms, receive, message),
            None => false,
        }
    }
}
