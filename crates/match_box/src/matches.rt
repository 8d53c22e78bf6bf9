//! The box of a rank.
use crate::queue::Queue;
use crate::queues::Queues;
use match_law::Posted;
use mpi_base::{Msg, OutOfMemory};
use std::alloc::Global;
use std::marker::Model;

/// The messages that came and no receive has taken, and the posted receives that have taken no
/// message, each in the order in which they came (MPI 4.0, 3.5). No kept message fits a posted
/// receive.
#[derive(Drop)]
pub struct MatchBox {
    receives: Queues<Posted>,
    messages: Queues<Msg>,
}

impl Model for MatchBox {
    ghost use Rattle.std.specs.Prelude.{◌+◌, min};
    ghost use Rattle.match_box.specs.Boxes.{Held, box_of, AreBoxed};

    ghost Value = { Held };

    ghost view = { λ b. record {
      lists = box_of b.receives.rows b.messages.rows;
      count = b.receives.count + b.messages.count;
      spare = min b.receives.spare b.messages.spare;
    } };

    ghost invariant = { λ b. AreBoxed b.receives.rows b.messages.rows };
}

impl MatchBox {
    ghost use Rattle.std.specs.Prelude.{◌≡◌, ◌<◌, ◌≤◌, ◌+◌, ◌-◌, ◌^◌, if◌then◌else◌, is_some, nat_lt, length, option_map, OnOk, IfSome};
    ghost use Rattle.match_law.specs.Box.{empty_box, arrive, post, has_posted, kept_on, drop_ctx};
    ghost use Rattle.match_law.specs.Tallies.{posted_on};
    ghost use Rattle.match_box.specs.Boxes.{AreApart};

    /// An empty box.
    pub fn none(alloc: Global) -> MatchBox
        ensures lists { result.lists ≡ empty_box }
        ensures count { result.count ≡ 0 }
    {
        MatchBox {
            receives: Queues::none(alloc),
            messages: Queues::none(alloc),
        }
    }

    /// Makes room for one message or receive more. The box stays, whatever it answers.
    pub fn reserve(&mut self) -> Result<(), OutOfMemory>
        ensures ok { OnOk result (1 ≤ self.new.spare) }
        ensures lists { self.new.lists ≡ self.old.lists }
        ensures count { self.new.count ≡ self.old.count }
        ensures spare { self.old.spare ≤ self.new.spare }
    {
        self.receives.reserve()?;
        self.messages.reserve()?;
        Ok(())
    }

    /// A message comes. The earliest posted receive that fits takes it and is taken out. Where none
    /// fits the answer is None, and the message is kept, last. There is room for it, and fewer than
    /// the greatest `u64` were kept before.
    pub fn arrive(&mut self, msg: Msg) -> Option<(Posted, Msg)>
        requires room { 1 ≤ self.old.spare }
        requires count { self.old.count < 2 ^ 64 - 1 }
        ensures lists { self.new.lists ≡ (arrive self.old.lists msg).0 }
        ensures met { option_map (λ m. m.0) result ≡ (arrive self.old.lists msg).1 }
        ensures message { IfSome result (λ m. m.1 ≡ msg) }
        ensures before { AreApart self.old.lists }
        ensures after { AreApart self.new.lists }
        ensures count { self.new.count ≡ (if is_some result then self.old.count else self.old.count + 1) }
        ensures spare { self.old.spare ≤ self.new.spare + 1 }
    {
        let queue = Queue::of_message(&msg);
        match self.receives.earliest_for(&queue) {
            Some(head) => {
                let receive = self.receives.take(&head.queue).unwrap();
                Some((receive, msg))
            }
            None => {
                self.messages.push(queue, msg);
                None
            }
        }
    }

    /// A receive is posted. It takes the earliest kept message that fits, which is taken out. Where
    /// none fits the answer is None, and the receive is kept, last. There is room for it, and fewer
    /// than the greatest `u64` were kept before.
    pub fn post(&mut self, receive: Posted) -> Option<Msg>
        requires room { 1 ≤ self.old.spare }
        requires count { self.old.count < 2 ^ 64 - 1 }
        ensures lists { self.new.lists ≡ (post self.old.lists receive).0 }
        ensures met { result ≡ (post self.old.lists receive).1 }
        ensures before { AreApart self.old.lists }
        ensures after { AreApart self.new.lists }
        ensures count { self.new.count ≡ (if is_some result then self.old.count else self.old.count + 1) }
        ensures spare { self.old.spare ≤ self.new.spare + 1 }
    {
        let queue = Queue::of_receive(&receive);
        match self.messages.earliest_of(&queue) {
            Some(head) => {
                let msg = self.messages.take(&head.queue).unwrap();
                Some(msg)
            }
            None => {
                self.receives.push(queue, receive);
                None
            }
        }
    }

    /// How many receives are posted on a context.
    pub fn posted(&self, ctx: u16) -> u64
        ensures value { result ≡ posted_on self.now.lists ctx }
        ensures any { has_posted self.now.lists ctx ≡ nat_lt 0 result }
    {
        self.receives.waiting(ctx)
    }

    /// Drops the kept messages of a context, and gives how many. All else stays.
    pub fn drop_ctx(&mut self, ctx: u16) -> u64
        ensures value { result ≡ kept_on self.old.lists ctx }
        ensures dropped { length self.new.lists.kept + result ≡ length self.old.lists.kept }
        ensures lists { self.new.lists ≡ drop_ctx self.old.lists ctx }
        ensures count { self.new.count ≡ self.old.count }
        ensures spare { self.old.spare ≤ self.new.spare }
    {
        self.messages.drop_ctx(ctx)
    }
}
