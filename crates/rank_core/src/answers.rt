//! Answers.
ghost use Rattle.std.specs.Prelude.{◌≡◌, ◌≤◌, true, Some, None, [], IsSome};
ghost use Rattle.agree_law.specs.declared.rows.Outcome.{Outcome as OutcomeSeen};
ghost use Rattle.agree_law.specs.Part.{stage_of};
ghost use Rattle.agree_law.specs.Moves.{close};
ghost use Rattle.mpi_law.specs.Local.Messages.{from_nobody};
ghost use Rattle.mpi_protocol.specs.Answers.{outcome_of, target_after, reply_of, received_reply, is_answerable, answers_receive, answered};
ghost use Rattle.mpi_protocol.specs.Step.{is_enabled};
ghost use Rattle.mpi_protocol.specs.Stepping.{Steps};

use crate::entries::Told;
use crate::messages::place_of;
use crate::rank::RankState;
use agree_law::{Outcome, Stage};
use bind_tab::Bound;
use mpi_base::{Act, Entry, ErrClass, Key, Msg, Name, Payload, Reply};
use mpi_protocol::Waits;

/// The reply to a receive with a room that has taken a message: one that is longer is used up.
fn received(room: u32, msg: &Msg) -> Reply
    ensures { result ≡ received_reply room msg.now }
{
    if msg.payload.bytes().len() > room as usize {
        return Reply::Refused(ErrClass::Truncate);
    }
    Reply::Received {
        source: Some(msg.source),
        tag: Some(msg.tag),
        payload: msg.payload.copy(),
    }
}

/// The reply to a receive from the null process.
fn nothing_received() -> Reply
    ensures { result ≡ from_nobody }
{
    let Some(payload) = Payload::new(b"") else {
        unreachable!()
    };
    Reply::Received {
        source: None,
        tag: None,
        payload,
    }
}

impl<const W: usize> RankState<W> {
    /// The reply at the end of a creation, whose target is bound or free from now on.
    fn end(&mut self, key: &Key, target: &Name, session: u64, outcome: Outcome) -> Reply
        ensures state { self.new.state ≡ record self.old.state { local = target_after self.old.state.local target.now session outcome } }
        ensures reply { result ≡ reply_of self.old.state.rank key.now outcome }
        ensures boxed { self.new.boxed ≡ self.old.boxed }
        ensures spare { self.old.spare ≤ self.new.spare }
    {
        match outcome {
            Outcome::Context(ctx) => {
                self.objects.fill(target, Bound::Comm(ctx, session));
                Reply::Comm {
                    ctx,
                    rank: place_of(&key.members, self.agree.rank()),
                    size: key.members.len(),
                }
            }
            Outcome::Exhausted => {
                self.objects.unbind(target);
                Reply::Refused(ErrClass::Exhausted)
            }
        }
    }

    /// What came of a creation; None where it is not decided.
    fn outcome(&self, key: &Key) -> Option<Outcome>
        ensures { result ≡ outcome_of (stage_of self.now.state.agree.opened key.now) }
    {
        match self.agree.stage(key) {
            Some(Stage::Done(outcome)) => Some(outcome),
            _ => None,
        }
    }

    /// A creation that is decided is closed, and replied to.
    fn end_creation(&mut self, key: &Key, target: &Name, session: u64) -> Reply
        requires decided { IsSome (outcome_of (stage_of self.old.state.agree.opened key.now)) }
        ensures state { (o : OutcomeSeen) → outcome_of (stage_of self.old.state.agree.opened key.now) ≡ Some o → self.new.state ≡ record self.old.state { agree = close self.old.state.agree key.now; local = target_after self.old.state.local target.now session o } }
        ensures reply { (o : OutcomeSeen) → outcome_of (stage_of self.old.state.agree.opened key.now) ≡ Some o → result ≡ reply_of self.old.state.rank key.now o }
        ensures boxed { self.new.boxed ≡ self.old.boxed }
        ensures spare { self.old.spare ≤ self.new.spare }
    {
        let Some(outcome) = self.outcome(key) else {
            unreachable!()
        };
        self.agree.finish(key);
        self.end(key, target, session, outcome)
    }

    /// A receive that has taken a message is over, and replied to; one from the null process has no
    /// number.
    fn end_receive(&mut self, thread: u8, number: u64) -> Reply
        requires there { is_answerable self.old.state (Waits.Receiving number) ≡ true }
        ensures state { self.new.state ≡ record (answers_receive self.old.state thread number).state { threads = self.old.state.threads } }
        ensures reply { Some result ≡ (answers_receive self.old.state thread number).reply }
        ensures boxed { self.new.boxed ≡ self.old.boxed }
        ensures spare { self.old.spare ≤ self.new.spare }
    {
        let _thread = thread;
        if number == 0 {
            return nothing_received();
        }
        let Some(row) = self.receives.find(number) else {
            unreachable!()
        };
        let Some(msg) = &row.taken else {
            unreachable!()
        };
        let reply = received(row.room, msg);
        self.receives.remove(number);
        reply
    }

    /// What a thread has waited for is over, and replied to; the threads stay.
    fn end_wait(&mut self, thread: u8, waits: Waits) -> Reply
        requires there { is_answerable self.old.state waits ≡ true }
        ensures state { self.new.state ≡ record (answered self.old.state thread waits).state { threads = self.old.state.threads } }
        ensures reply { Some result ≡ (answered self.old.state thread waits).reply }
        ensures boxed { self.new.boxed ≡ self.old.boxed }
        ensures spare { self.old.spare ≤ self.new.spare }
    {
        match waits {
            Waits::Creation {
                key,
                target,
                session,
            } => self.end_creation(&key, &target, session),
            Waits::Uncoloured { target, .. } => {
                self.objects.unbind(&target);
                Reply::Null
            }
            Waits::Receiving { number } => self.end_receive(thread, number),
            Waits::Freeing { .. } | Waits::Ending { .. } | Waits::Awaiting { .. } => Reply::Fine,
            Waits::Nothing => unreachable!(),
        }
    }

    /// A thread is answered for which what it waits for is there.
    #[tactic(auto, unfolding(mpi_protocol::specs::Step::is_enabled))]
    pub fn answer(&mut self, thread: u8) -> Entry
        requires enabled { is_enabled self.old.state (Act.Answer thread) ≡ true }
        ensures step { Steps self.old.state (Act.Answer thread) None self.new.state result [] }
        ensures rank { self.new.state.rank ≡ self.old.state.rank }
        ensures setting { self.new.state.setting ≡ self.old.state.setting }
        ensures boxed { self.new.boxed ≡ self.old.boxed }
        ensures spare { self.old.spare ≤ self.new.spare }
    {
        let waits = self.threads.take_waits(thread);
        let reply = self.end_wait(thread, waits);
        self.entry(
            Act::Answer { thread },
            Told {
                reply: Some(reply),
                ..Told::nothing()
            },
        )
    }
}
