//! Settles and verdicts.
ghost use Rattle.std.specs.Prelude.{◌≡◌, ℕ, ◌≤◌, ◌<◌, ◌+◌, ◌-◌, ◌^◌, ◌++◌, false, get_or, map, true, length};
ghost use Rattle.agree_law.specs.Rule.{is_key};
ghost use Rattle.agree_law.specs.Gather.{verdict_of};
ghost use Rattle.agree_law.specs.Verdicts.{awaits as awaits_now, awaits_ready as awaits_ready_at, awaits_round as awaits_round_at, decide as decided, may_settle_offers, pass_down, rounds_after, settle_offers, take_down, takes as taken, takes_down};
ghost use Rattle.agree_law.specs.Part.{round_of, stage_of};
ghost use Rattle.and_reduce.specs.Rooms.{room_of};
ghost use Rattle.and_reduce.specs.Rows.{IsPick, sent_of};
ghost use Rattle.agree_core.specs.Held.{Becomes, Makes};

use crate::agreements::Agreements;
use crate::offering::is_below;
use crate::rows::{let_go, set_stage};
use agree_law::{Outcome, Stage, Verdict};
use and_reduce::{Packet, Sent, is_child, is_first, member_at, place_in};
use mpi_base::{Key, Kind};

/// A verdict goes to the children of a place, in order of place.
fn send_down<const W: usize>(
    out: &mut Vec<Sent<W>>,
    key: &Key,
    parent: u16,
    round: u64,
    verdict: Verdict,
)
    requires out { 16 ≤ room_of out.old }
    ensures sent { (top : ℕ) → map (sent_of top) out.new.items ≡ map (sent_of top) out.old.items ++ pass_down key.now parent round verdict }
    ensures room { room_of out.old ≤ room_of out.new + 16 }
    ensures few { length out.new.items ≤ length out.old.items + 16 }
{
    for place in 0..key.members.len() {
        if is_child(parent, place) {
            out.push_reserved(Sent {
                to: member_at(key, place),
                packet: Packet::Down {
                    key: key.copy(),
                    round,
                    verdict,
                },
            });
        }
    }
}

/// Whether the verdict that all have called is for a creation at this stage.
fn awaits_ready(stage: Option<Stage>, round: u64) -> bool
    ensures { result ≡ awaits_ready_at stage round }
{
    matches!(stage, Some(Stage::Called)) && round == 0
}

/// Whether a verdict of a later round is for a creation at this stage.
fn awaits_round(stage: Option<Stage>, round: u64) -> bool
    ensures { result ≡ awaits_round_at stage round }
{
    match stage {
        Some(Stage::Offered { round: offered, .. }) => offered == round && round > 0,
        _ => false,
    }
}

impl<const W: usize> Agreements<W> {
    /// Takes a verdict at this rank: the gather and the creation go on, a final verdict lets go of
    /// the mask, and a context that is picked is not free any more.
    fn take(&mut self, key: &Key, round: u64, verdict: Verdict)
        requires room { 1 ≤ self.old.spare }
        requires round { round < 2 ^ 64 - 1 }
        requires pick { IsPick self.old.top verdict }
        ensures part { Becomes self.old self.new (taken (rounds_after self.old.part key.now round verdict) key.now round verdict) }
        ensures spare { self.old.spare ≤ self.new.spare + 1 }
    {
        match verdict {
            Verdict::Ready => {
                self.gathers.next_round(key, 1);
                set_stage(&mut self.opened, key, Stage::Waiting(1));
            }
            Verdict::Retry => {
                self.gathers.next_round(key, round + 1);
                let_go(&mut self.owner, key);
                set_stage(&mut self.opened, key, Stage::Waiting(round + 1));
            }
            Verdict::Context(ctx) => {
                self.gathers.remove(key);
                let_go(&mut self.owner, key);
                set_stage(&mut self.opened, key, Stage::Done(Outcome::Context(ctx)));
                self.mask.clear(ctx);
            }
            Verdict::Exhausted => {
                self.gathers.remove(key);
                let_go(&mut self.owner, key);
                set_stage(&mut self.opened, key, Stage::Done(Outcome::Exhausted));
            }
        }
    }

    /// A verdict is passed on to the children of this rank's place, and then taken.
    fn decide(&mut self, key: &Key, round: u64, verdict: Verdict, out: &mut Vec<Sent<W>>)
        requires room { 1 ≤ self.old.spare }
        requires round { round < 2 ^ 64 - 1 }
        requires pick { IsPick self.old.top verdict }
        requires out { 16 ≤ room_of out.old }
        ensures step { Makes (decided self.old.rank self.old.part key.now round verdict) self.old self.new out.old.items out.new.items }
        ensures spare { self.old.spare ≤ self.new.spare + 1 }
        ensures room { room_of out.old ≤ room_of out.new + 16 }
        ensures few { length out.new.items ≤ length out.old.items + 16 }
    {
        send_down(out, key, place_in(key, self.rank), round, verdict);
        self.take(key, round, verdict);
    }

    /// Whether this rank has place 0 of a key that is no exchange, and its gather is whole.
    pub fn may_settle(&self, key: &Key) -> bool
        ensures { result ≡ may_settle_offers self.now.rank self.now.part key.now }
    {
        key.kind != Kind::Share && is_first(key, self.rank) && self.gathers.is_ready(key, 0)
    }

    /// The first member settles a round, whose gather is whole: the verdict goes to the children of
    /// its place, in order of place, and is taken here too. Gives the verdict: `Ready` exactly in
    /// round 0; later the least context that all members offer where all own, `Exhausted` exactly
    /// where all own and there is none, and `Retry` exactly where some member does not own.
    pub fn settle(&mut self, key: &Key, out: &mut Vec<Sent<W>>) -> Verdict
        requires whole { may_settle_offers self.old.rank self.old.part key.now ≡ true }
        requires room { 1 ≤ self.old.spare }
        requires round { round_of self.old.part.rounds key.now < 2 ^ 64 - 1 }
        requires out { 16 ≤ room_of out.old }
        ensures verdict { result ≡ verdict_of self.old.top self.old.part.gathered key.now (round_of self.old.part.rounds key.now) }
        ensures pick { IsPick self.old.top result }
        ensures step { Makes (settle_offers self.old.rank self.old.top self.old.part key.now) self.old self.new out.old.items out.new.items }
        ensures spare { self.old.spare ≤ self.new.spare + 1 }
        ensures room { room_of out.old ≤ room_of out.new + 16 }
        ensures few { length out.new.items ≤ length out.old.items + 16 }
    {
        let round = self.gathers.round(key);
        let verdict = self.gathers.verdict(key);
        self.decide(key, round, verdict, out);
        verdict
    }

    /// Whether the key owns the mask.
    fn owns(&self, key: &Key) -> bool
        ensures { result ≡ is_key self.now.part.owner key.now }
    {
        match &self.owner {
            Some(owner) => owner.is_same(key),
            None => false,
        }
    }

    /// Whether a context is free at this rank.
    fn is_free(&self, ctx: u16) -> bool
        ensures { result ≡ get_or self.now.part.mask ctx false }
    {
        ctx >= 1 && ctx <= self.gathers.contexts() && self.mask.has(ctx)
    }

    /// Whether the creation is at a stage for which a verdict of a round is.
    fn awaits(&self, key: &Key, round: u64, verdict: Verdict) -> bool
        ensures { result ≡ awaits_now self.now.part key.now round verdict }
    {
        let stage = self.stage(key);
        match verdict {
            Verdict::Ready => awaits_ready(stage, round),
            Verdict::Retry | Verdict::Exhausted => awaits_round(stage, round),
            Verdict::Context(ctx) => {
                awaits_round(stage, round) && self.owns(key) && self.is_free(ctx)
            }
        }
    }

    /// Whether a `Down` from a rank is taken: the key is no exchange, this rank's place is a child of
    /// that rank's, and the key is called here and the round is 0 where the verdict is `Ready`, or
    /// has offered in that round where it is another; the key owns the mask and the context is free
    /// in it where the verdict is a context.
    #[tactic(auto, unfolding(agree_law::specs::Verdicts::takes_down))]
    pub fn may_take_verdict(&self, from: u16, key: &Key, round: u64, verdict: Verdict) -> bool
        ensures { result ≡ takes_down self.now.rank self.now.part from key.now round verdict }
    {
        key.kind != Kind::Share
            && is_below(key, from, self.rank)
            && self.awaits(key, round, verdict)
    }

    /// Takes a `Down` from a rank: the verdict goes to the children of this rank's place, in order of
    /// place, and is then taken here.
    pub fn take_verdict(
        &mut self,
        from: u16,
        key: &Key,
        round: u64,
        verdict: Verdict,
        out: &mut Vec<Sent<W>>,
    )
        requires taken { takes_down self.old.rank self.old.part from key.now round verdict ≡ true }
        requires room { 1 ≤ self.old.spare }
        requires round { round < 2 ^ 64 - 1 }
        requires out { 16 ≤ room_of out.old }
        ensures pick { IsPick self.old.top verdict }
        ensures step { Makes (take_down self.old.rank self.old.part from key.now round verdict) self.old self.new out.old.items out.new.items }
        ensures spare { self.old.spare ≤ self.new.spare + 1 }
        ensures room { room_of out.old ≤ room_of out.new + 16 }
        ensures few { length out.new.items ≤ length out.old.items + 16 }
    {
        let _from = from;
        let _rank = self.rank;
        self.decide(key, round, verdict, out);
    }
}
