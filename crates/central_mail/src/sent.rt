//! The messages that were sent, in order.
ghost use Rattle.std.specs.Prelude.{◌≡◌, ◌<◌, ◌∷◌, ◌++◌, [], All, List, filter, find, get_or, length, map, slice_get, take, ◌-◌, OnErr, OnOk};
ghost use Rattle.std.specs.List.{fold, list_any};
ghost use Rattle.std.specs.Option.{option_copied};
ghost use Rattle.mpi_law.specs.Registry.Messages.{is_message, is_unmatched, is_overtaken, is_left_on};
ghost use Rattle.central_comms.specs.Places.{places_where};
ghost use Rattle.central_mail.specs.Mail.{mail_registry, no_mail};
ghost use Rattle.central_mail.specs.Rows.{blank_message, as_sent, matched_if, dropped_if, dropped_at};

use crate::firsts;
use crate::messages::{Message, MessageRow};
use crate::receives::ReceiveRow;
use central_comms::{Comms, Pairs};
use mpi_base::OutOfMemory;
use std::alloc::Global;
use std::marker::Model;

/// The messages that were sent, in order, with the places of those that are unmatched, and by sender and
/// number the place of the first such message.
#[derive(Drop)]
pub(crate) struct Sent {
    rows: Vec<MessageRow>,
    unmatched: Vec<usize>,
    places: Pairs,
}

impl Model for Sent {
    ghost use Rattle.std.specs.Prelude.{List};
    ghost use Rattle.mpi_law.specs.Registry.State.{Message as Said};
    ghost use Rattle.mpi_law.specs.Registry.Messages.{is_message, is_unmatched};
    ghost use Rattle.central_mail.specs.Indexed.{IsIndexed};

    ghost Value = { List Said };

    ghost view = { λ s. s.rows.items };

    ghost invariant = { λ s. IsIndexed is_unmatched is_message s.unmatched.items s.places s.rows.items };
}

/// Whether there is a message at a place, and it is unmatched.
fn is_open_at(rows: &[MessageRow], place: usize) -> bool
    ensures { result ≡ is_unmatched (get_or rows.now place blank_message) }
{
    match rows.get(place) {
        Some(row) => row.is_unmatched(),
        None => false,
    }
}

/// Leaves only the places of unmatched messages.
fn let_go(rows: &[MessageRow], places: &mut Vec<usize>)
    ensures { places.new.items ≡ filter (λ k. is_unmatched (get_or rows.now k blank_message)) places.old.items }
{
    places.retain(|place| is_open_at(rows, *place));
}

/// Whether the message at a place is left to a rank on a communicator.
fn is_left_at(rows: &[MessageRow], place: usize, comm: usize, rank: u16) -> bool
    ensures { result ≡ is_left_on comm rank (get_or rows.now place blank_message) }
{
    match rows.get(place) {
        Some(row) => row.is_left_on(comm, rank),
        None => false,
    }
}

/// How many messages at these places are left to a rank on a communicator.
fn left_at(rows: &[MessageRow], places: &[usize], comm: usize, rank: u16) -> u64
    ensures { result ≡ length (filter (λ k. is_left_on comm rank (get_or rows.now k blank_message)) places.now) }
{
    places
        .iter()
        .filter(|place| is_left_at(rows, **place, comm, rank))
        .count() as u64
}

/// Whether the message at a place overtakes another at a receive.
fn overtakes(
    rows: &[MessageRow],
    place: usize,
    comms: &Comms,
    receive: &ReceiveRow,
    message: &MessageRow,
) -> bool
    ensures { result ≡ is_overtaken (mail_registry comms.now no_mail) receive.now message.now (get_or rows.now place blank_message) }
{
    match rows.get(place) {
        Some(other) => receive.fits_earlier(comms, message, other),
        None => false,
    }
}

/// Whether a message at one of these places overtakes another at a receive.
fn any_overtakes(
    rows: &[MessageRow],
    places: &[usize],
    comms: &Comms,
    receive: &ReceiveRow,
    message: &MessageRow,
) -> bool
    ensures { result ≡ list_any (λ k. is_overtaken (mail_registry comms.now no_mail) receive.now message.now (get_or rows.now k blank_message)) places.now }
{
    places
        .iter()
        .any(|place| overtakes(rows, *place, comms, receive, message))
}

/// The message of a sender with a number is matched.
fn match_all(rows: &mut [MessageRow], from: u16, number: u64)
    ensures { rows.new ≡ map (matched_if from number) rows.old }
{
    for row in rows.iter_mut() {
        row.match_if(from, number);
    }
}

/// The messages at these places that are left to a rank on a communicator are dropped.
fn drop_at(rows: &mut [MessageRow], places: &[usize], comm: usize, rank: u16)
    requires { All (λ p. p < length rows.old) places.now }
    ensures { rows.new ≡ fold (dropped_at comm rank) rows.old places.now }
{
    for place in places {
        rows[*place].drop_if(comm, rank);
    }
}

impl Sent {
    /// No message.
    pub(crate) fn none(alloc: Global) -> Sent
        ensures { result ≡ [] }
    {
        Sent {
            rows: Vec::new(alloc),
            unmatched: Vec::new(alloc),
            places: Pairs::none(alloc),
        }
    }

    /// Adds a message at the end, which is open. After an Err nothing has changed.
    pub(crate) fn push(&mut self, message: Message) -> Result<(), OutOfMemory>
        ensures ok { OnOk result (self.new ≡ self.old ++ as_sent message ∷ []) }
        ensures err { OnErr result (self.new ≡ self.old) }
    {
        self.rows.reserve(1)?;
        self.unmatched.reserve(1)?;
        firsts::add_last(
            &mut self.places,
            message.from,
            message.number,
            self.rows.len(),
        )?;
        self.unmatched.push_reserved(self.rows.len());
        self.rows.push_reserved(MessageRow::new(message));
        Ok(())
    }

    /// Takes the last message out again, if there is one.
    pub(crate) fn pop(&mut self)
        ensures { self.new ≡ take (length self.old - 1) self.old }
    {
        if let Some(row) = self.rows.pop() {
            firsts::let_last_go(&mut self.places, row.from(), row.number(), self.rows.len());
            let_go(&self.rows, &mut self.unmatched);
        }
    }

    /// The message of a sender with a number, if there is one.
    pub(crate) fn message_of(&self, from: u16, number: u64) -> Option<&MessageRow>
        ensures { option_copied result ≡ find (is_message from number) self.now }
    {
        self.get(self.places.get(from, number)?)
    }

    /// The message at a place, if there is one.
    pub(crate) fn get(&self, place: usize) -> Option<&MessageRow>
        ensures { option_copied result ≡ slice_get self.now place }
    {
        self.rows.get(place)
    }

    /// The places of the unmatched messages, in order.
    pub(crate) fn unmatched(&self) -> &[usize]
        ensures { result.now ≡ places_where is_unmatched self.now }
    {
        &self.unmatched
    }

    /// Whether there is a message of the sender of a given one on the same communicator, sent earlier and
    /// still unmatched, that fits a receive.
    pub(crate) fn is_overtaken(
        &self,
        comms: &Comms,
        receive: &ReceiveRow,
        message: &MessageRow,
    ) -> bool
        ensures { result ≡ list_any (is_overtaken (mail_registry comms.now no_mail) receive.now message.now) self.now }
    {
        any_overtakes(&self.rows, &self.unmatched, comms, receive, message)
    }

    /// How many unmatched messages to a rank there are on a communicator.
    pub(crate) fn left_on(&self, comm: usize, rank: u16) -> u64
        ensures { result ≡ length (filter (is_left_on comm rank) self.now) }
    {
        left_at(&self.rows, &self.unmatched, comm, rank)
    }

    /// The message of a sender with a number is matched. Only the messages from the first such on are gone
    /// through; a message is matched soon after it is sent, so that few stand behind it.
    pub(crate) fn match_message(&mut self, from: u16, number: u64)
        ensures { self.new ≡ map (matched_if from number) self.old }
    {
        if let Some(place) = self.places.get(from, number) {
            match_all(&mut self.rows[place..], from, number);
            let_go(&self.rows, &mut self.unmatched);
        }
    }

    /// Drops the unmatched messages to a rank on a communicator.
    pub(crate) fn drop_left(&mut self, comm: usize, rank: u16)
        ensures { self.new ≡ map (dropped_if comm rank) self.old }
    {
        drop_at(&mut self.rows, &self.unmatched, comm, rank);
        let_go(&self.rows, &mut self.unmatched);
    }
}
