//! The receives that were posted, in order.
ghost use Rattle.std.specs.Prelude.{◌≡◌, ◌&&◌, ◌==◌, ◌∷◌, ◌++◌, [], List, filter, find, get_or, length, map, slice_get, take, ◌-◌, OnErr, OnOk};
ghost use Rattle.std.specs.List.{list_any};
ghost use Rattle.std.specs.Option.{option_copied};
ghost use Rattle.mpi_law.specs.Registry.Messages.{is_receive, is_waiting, is_preceded};
ghost use Rattle.central_comms.specs.Places.{places_where};
ghost use Rattle.central_mail.specs.Mail.{mail_registry, no_mail};
ghost use Rattle.central_mail.specs.Rows.{blank_receive, as_posted, taking_if, waits_on};

use crate::firsts;
use crate::messages::MessageRow;
use crate::receives::{Receive, ReceiveRow};
use central_comms::{Comms, Pairs};
use mpi_base::OutOfMemory;
use std::alloc::Global;
use std::marker::Model;

/// The receives that were posted, in order, with the places of those that have taken no message, and by
/// rank and number the place of the first such receive.
#[derive(Drop)]
pub(crate) struct Posted {
    rows: Vec<ReceiveRow>,
    waiting: Vec<usize>,
    places: Pairs,
}

impl Model for Posted {
    ghost use Rattle.std.specs.Prelude.{List};
    ghost use Rattle.mpi_law.specs.Registry.State.{Receive as Wanted};
    ghost use Rattle.mpi_law.specs.Registry.Messages.{is_receive, is_waiting};
    ghost use Rattle.central_mail.specs.Indexed.{IsIndexed};

    ghost Value = { List Wanted };

    ghost view = { λ s. s.rows.items };

    ghost invariant = { λ s. IsIndexed is_waiting is_receive s.waiting.items s.places s.rows.items };
}

/// Whether there is a receive at a place, and it has taken no message.
fn is_waiting_at(rows: &[ReceiveRow], place: usize) -> bool
    ensures { result ≡ is_waiting (get_or rows.now place blank_receive) }
{
    match rows.get(place) {
        Some(row) => row.is_waiting(),
        None => false,
    }
}

/// Leaves only the places of receives that have taken no message.
fn let_go(rows: &[ReceiveRow], waiting: &mut Vec<usize>)
    ensures { waiting.new.items ≡ filter (λ k. is_waiting (get_or rows.now k blank_receive)) waiting.old.items }
{
    waiting.retain(|place| is_waiting_at(rows, *place));
}

/// Whether the receive at a place is one of a rank on a communicator that has taken no message.
fn waits_at(rows: &[ReceiveRow], place: usize, comm: usize, rank: u16) -> bool
    ensures { result ≡ waits_on comm rank (get_or rows.now place blank_receive) }
{
    match rows.get(place) {
        Some(row) => row.waits_on(comm, rank),
        None => false,
    }
}

/// Whether a receive at one of these places is one of a rank on a communicator that has taken no message.
fn any_waits(rows: &[ReceiveRow], places: &[usize], comm: usize, rank: u16) -> bool
    ensures { result ≡ list_any (λ k. waits_on comm rank (get_or rows.now k blank_receive)) places.now }
{
    places
        .iter()
        .any(|place| waits_at(rows, *place, comm, rank))
}

/// Whether the receive at a place precedes another at a message.
fn precedes(
    rows: &[ReceiveRow],
    place: usize,
    comms: &Comms,
    receive: &ReceiveRow,
    message: &MessageRow,
) -> bool
    ensures { result ≡ is_preceded (mail_registry comms.now no_mail) receive.now message.now (get_or rows.now place blank_receive) }
{
    match rows.get(place) {
        Some(other) => other.precedes(comms, receive, message),
        None => false,
    }
}

/// Whether a receive at one of these places precedes another at a message.
fn any_precedes(
    rows: &[ReceiveRow],
    places: &[usize],
    comms: &Comms,
    receive: &ReceiveRow,
    message: &MessageRow,
) -> bool
    ensures { result ≡ list_any (λ k. is_preceded (mail_registry comms.now no_mail) receive.now message.now (get_or rows.now k blank_receive)) places.now }
{
    places
        .iter()
        .any(|place| precedes(rows, *place, comms, receive, message))
}

/// The receive of a rank with a number takes a message.
fn take_all(rows: &mut [ReceiveRow], rank: u16, number: u64, message: &MessageRow)
    ensures { rows.new ≡ map (taking_if rank number message.now) rows.old }
{
    for row in rows.iter_mut() {
        row.take_if(rank, number, message);
    }
}

impl Posted {
    /// No receive.
    pub(crate) fn none(alloc: Global) -> Posted
        ensures { result ≡ [] }
    {
        Posted {
            rows: Vec::new(alloc),
            waiting: Vec::new(alloc),
            places: Pairs::none(alloc),
        }
    }

    /// Adds a receive at the end, which has taken no message. After an Err nothing has changed.
    pub(crate) fn push(&mut self, receive: Receive) -> Result<(), OutOfMemory>
        ensures ok { OnOk result (self.new ≡ self.old ++ as_posted receive ∷ []) }
        ensures err { OnErr result (self.new ≡ self.old) }
    {
        self.rows.reserve(1)?;
        self.waiting.reserve(1)?;
        firsts::add_last(
            &mut self.places,
            receive.rank,
            receive.number,
            self.rows.len(),
        )?;
        self.waiting.push_reserved(self.rows.len());
        self.rows.push_reserved(ReceiveRow::new(receive));
        Ok(())
    }

    /// Takes the last receive out again, if there is one.
    pub(crate) fn pop(&mut self)
        ensures { self.new ≡ take (length self.old - 1) self.old }
    {
        if let Some(row) = self.rows.pop() {
            firsts::let_last_go(&mut self.places, row.rank(), row.number(), self.rows.len());
            let_go(&self.rows, &mut self.waiting);
        }
    }

    /// The receive of a rank with a number, if there is one.
    pub(crate) fn receive_of(&self, rank: u16, number: u64) -> Option<&ReceiveRow>
        ensures { option_copied result ≡ find (is_receive rank number) self.now }
    {
        self.get(self.places.get(rank, number)?)
    }

    /// The receive at a place, if there is one.
    pub(crate) fn get(&self, place: usize) -> Option<&ReceiveRow>
        ensures { option_copied result ≡ slice_get self.now place }
    {
        self.rows.get(place)
    }

    /// The places of the receives that have taken no message, in order.
    pub(crate) fn waiting(&self) -> &[usize]
        ensures { result.now ≡ places_where is_waiting self.now }
    {
        &self.waiting
    }

    /// Whether there is a receive of the rank of a given one, posted earlier and still without a message,
    /// that fits a message.
    pub(crate) fn is_preceded(
        &self,
        comms: &Comms,
        receive: &ReceiveRow,
        message: &MessageRow,
    ) -> bool
        ensures { result ≡ list_any (is_preceded (mail_registry comms.now no_mail) receive.now message.now) self.now }
    {
        any_precedes(&self.rows, &self.waiting, comms, receive, message)
    }

    /// Whether a receive of a rank on a communicator is without a message.
    pub(crate) fn has_waiting(&self, comm: usize, rank: u16) -> bool
        ensures { result ≡ list_any (waits_on comm rank) self.now }
    {
        any_waits(&self.rows, &self.waiting, comm, rank)
    }

    /// The receive of a rank with a number takes a message. Only the receives from the first such on are
    /// gone through; a receive takes a message soon after it is posted, so that few stand behind it.
    pub(crate) fn take(&mut self, rank: u16, number: u64, message: &MessageRow)
        ensures { self.new ≡ map (taking_if rank number message.now) self.old }
    {
        if let Some(place) = self.places.get(rank, number) {
            take_all(&mut self.rows[place..], rank, number, message);
            let_go(&self.rows, &mut self.waiting);
        }
    }
}
