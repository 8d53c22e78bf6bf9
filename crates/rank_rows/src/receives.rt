//! The receives of a rank.
ghost use Rattle.std.specs.Prelude.{◌≡◌, ◌≤◌, ◌+◌, [], OnOk, option_copied};
ghost use Rattle.mpi_protocol.specs.Rank.{receive_of, has_taken, with_receive, with_taken, without_receive};

use mpi_base::{Msg, OutOfMemory};
use mpi_protocol::ReceiveRow;
use std::alloc::Global;
use std::marker::Model;

/// The receives of a rank, each from its posting to its answer, with the message that it has taken. All
/// of it is this project's own.
#[derive(Drop)]
pub struct Receives {
    rows: Vec<ReceiveRow>,
}

impl Model for Receives {
    ghost use Rattle.std.specs.Prelude.{◌-◌, vec_len, vec_capacity};
    ghost use Rattle.rank_rows.specs.Held.{Held};

    ghost Value = { Held };

    ghost view = { λ s. record { rows = s.rows.items; spare = vec_capacity s.rows - vec_len s.rows } };
}

/// Each receive with this number takes a message.
fn rows_take(rows: &mut [ReceiveRow], number: u64, msg: &Msg)
    ensures { rows.new ≡ with_taken rows.old number msg.now }
{
    for row in rows {
        if row.number == number {
            row.taken = Some(msg.copy());
        }
    }
}

impl Receives {
    /// No receive.
    pub fn none(alloc: Global) -> Receives
        ensures { result.rows ≡ [] }
    {
        Receives {
            rows: Vec::new(alloc),
        }
    }

    /// Makes room for one receive more. The receives stay, whatever it answers.
    pub fn reserve(&mut self) -> Result<(), OutOfMemory>
        ensures ok { OnOk result (1 ≤ self.new.spare) }
        ensures rows { self.new.rows ≡ self.old.rows }
        ensures spare { self.old.spare ≤ self.new.spare }
    {
        self.rows.reserve(1)?;
        Ok(())
    }

    /// Posts a receive with this number, into room for so many bytes. There is room for it here.
    pub fn push(&mut self, number: u64, room: u32)
        requires { 1 ≤ self.old.spare }
        ensures rows { self.new.rows ≡ with_receive self.old.rows number room }
        ensures spare { self.old.spare ≤ self.new.spare + 1 }
    {
        self.rows.push_reserved(ReceiveRow {
            number,
            room,
            taken: None,
        });
    }

    /// The receive with this number takes a message. All others stay.
    pub fn take(&mut self, number: u64, msg: Msg)
        ensures rows { self.new.rows ≡ with_taken self.old.rows number msg }
        ensures spare { self.new.spare ≡ self.old.spare }
    {
        rows_take(&mut self.rows, number, &msg);
    }

    /// Whether the receive with this number is here, and has taken a message.
    pub fn has_taken(&self, number: u64) -> bool
        ensures { result ≡ has_taken self.now.rows number }
    {
        match self.find(number) {
            Some(row) => row.taken.is_some(),
            None => false,
        }
    }

    /// The receive with this number; None exactly where it is not here.
    pub fn find(&self, number: u64) -> Option<&ReceiveRow>
        ensures { option_copied result ≡ receive_of self.now.rows number }
    {
        self.rows.iter().find(|row| row.number == number)
    }

    /// Takes out the receive with this number. All others stay.
    pub fn remove(&mut self, number: u64)
        ensures rows { self.new.rows ≡ without_receive self.old.rows number }
        ensures spare { self.old.spare ≤ self.new.spare }
    {
        self.rows.retain(|row| row.number != number);
    }
}
