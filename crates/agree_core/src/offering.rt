//! Calls and offers.
ghost use Rattle.std.specs.Prelude.{◌≡◌, ◌≤◌, ◌+◌, ◌||◌, ◌++◌, if◌then◌else◌, map, not, true, is_err, is_some, OnErr, OnOk, length};
ghost use Rattle.ctx_mask.specs.Masks.{none_of};
ghost use Rattle.mpi_base.specs.Keys.{key_before};
ghost use Rattle.agree_law.specs.Tree.{is_below as is_below_place, place_in as place_within};
ghost use Rattle.agree_law.specs.Rule.{is_least as is_least_key, is_waiting as is_waiting_at, may_own as may_own_now};
ghost use Rattle.agree_law.specs.Offers.{begin as begin_move, make_offer, may_offer as may_offer_now, take_up, takes_up, up_from};
ghost use Rattle.agree_law.specs.Part.{stage_of};
ghost use Rattle.and_reduce.specs.Fronts.{front};
ghost use Rattle.and_reduce.specs.Rooms.{room_of};
ghost use Rattle.and_reduce.specs.Rows.{sent_of};
ghost use Rattle.agree_core.specs.Held.{Makes, round_due as round_due_at};

use crate::agreements::{Agreements, Busy};
use crate::rows::{is_due, is_waiting, set_stage};
use agree_law::{CreationRow, Stage};
use and_reduce::{Packet, Sent, is_child, is_member, member_at, parent_of, place_in};
use ctx_mask::Mask;
use mpi_base::{Key, Kind};

/// Takes the mask for a key, where its offer owns.
fn own_mask(owner: &mut Option<Key>, key: &Key, own: bool)
    ensures { owner.new ≡ (if own then Some key.now else owner.old) }
{
    if own {
        *owner = Some(key.copy());
    }
}

/// Whether two ranks are members of a key, and the place of the lower one is a child of the other's.
pub(crate) fn is_below(key: &Key, upper: u16, lower: u16) -> bool
    ensures { result ≡ is_below_place upper lower key.now.members }
{
    is_member(key, lower)
        && is_member(key, upper)
        && is_child(place_in(key, upper), place_in(key, lower))
}

impl<const W: usize> Agreements<W> {
    /// An `Up` to the parent of this rank's place, where its gather of the key is whole.
    fn send_up(&self, key: &Key, out: &mut Vec<Sent<W>>)
        requires out { 1 ≤ room_of out.old }
        ensures sent { map (sent_of self.now.top) out.new.items ≡ map (sent_of self.now.top) out.old.items ++ up_from self.now.top self.now.part key.now (place_within key.now.members self.now.rank) }
        ensures room { room_of out.old ≤ room_of out.new + 1 }
        ensures few { length out.new.items ≤ length out.old.items + 1 }
    {
        let place = place_in(key, self.rank);
        if place > 0 && self.gathers.is_ready(key, place) {
            let joined = self.gathers.joined(key);
            out.push_reserved(Sent {
                to: member_at(key, parent_of(place)),
                packet: Packet::Up {
                    key: key.copy(),
                    round: self.gathers.round(key),
                    own: joined.own,
                    mask: joined.mask,
                },
            });
        }
    }

    /// A creation is called, whether or not its key is open here: a caller that holds each key until its
    /// call is answered, which is longer than it is open here, tells by that whether it is busy. So nothing
    /// is asked of the key, and nothing is refused. Its offer of round 0, which does not own, goes into
    /// this rank's gather, and an `Up` follows where the gather is then whole. There is room for it.
    pub fn open(&mut self, key: &Key, out: &mut Vec<Sent<W>>)
        requires room { 1 ≤ self.old.spare }
        requires out { 1 ≤ room_of out.old }
        ensures step { Makes (begin_move self.old.rank self.old.top self.old.part key.now) self.old self.new out.old.items out.new.items }
        ensures spare { self.old.spare ≤ self.new.spare + 1 }
        ensures room { room_of out.old ≤ room_of out.new + 1 }
        ensures few { length out.new.items ≤ length out.old.items + 1 }
    {
        self.opened.push_reserved(CreationRow {
            key: key.copy(),
            stage: Stage::Called,
        });
        self.gathers
            .put(key, place_in(key, self.rank), false, Mask::none());
        self.send_up(key, out);
    }

    /// A creation is called: it is open from now on, and its offer of round 0, which does not own,
    /// goes into this rank's gather. An `Up` follows where the gather is then whole.
    ///
    /// # Errors
    ///
    /// [`Busy`], with nothing changed, exactly where the creation is open here already.
    pub fn begin(&mut self, key: &Key, out: &mut Vec<Sent<W>>) -> Result<(), Busy>
        requires room { 1 ≤ self.old.spare }
        requires out { 1 ≤ room_of out.old }
        ensures busy { is_err result ≡ is_some (stage_of self.old.part.opened key.now) }
        ensures unchanged { OnErr result (self.new ≡ self.old) }
        ensures unsent { OnErr result (out.new ≡ out.old) }
        ensures step { OnOk result (Makes (begin_move self.old.rank self.old.top self.old.part key.now) self.old self.new out.old.items out.new.items) }
        ensures spare { self.old.spare ≤ self.new.spare + 1 }
        ensures room { room_of out.old ≤ room_of out.new + 1 }
        ensures few { length out.new.items ≤ length out.old.items + 1 }
    {
        if self.stage(key).is_some() {
            return Err(Busy);
        }
        self.open(key, out);
        Ok(())
    }

    /// Whether the creation waits for its offer of the round: it is open here, past round 0, has not
    /// offered in its round, and is not decided.
    pub fn may_offer(&self, key: &Key) -> bool
        ensures { result ≡ may_offer_now self.now.part key.now }
    {
        is_due(self.stage(key))
    }

    /// Whether no waiting key of this rank comes before the key.
    #[tactic(auto, unfolding(agree_law::specs::Rule::is_least))]
    fn is_least(&self, key: &Key) -> bool
        ensures { result ≡ is_least_key self.now.part.opened key.now }
    {
        self.opened.iter().all(
            |row| -> bool
                ensures { result ≡ (not (is_waiting_at (stage_of self.entry.now.part.opened row.now.key)) || not (key_before row.now.key key.entry.now)) }
            { !is_waiting(self.stage(&row.key)) || !row.key.is_before(key) },
        )
    }

    /// Whether an offer for the key owns the mask.
    #[tactic(auto, unfolding(agree_law::specs::Rule::may_own))]
    fn may_own(&self, key: &Key) -> bool
        ensures { result ≡ may_own_now self.now.part key.now }
    {
        self.owner.is_none() && self.is_least(key)
    }

    /// The mask that an offer carries.
    fn offered_mask(&self, own: bool) -> Mask<W>
        ensures { front self.now.top result ≡ (if own then self.now.part.mask else none_of (self.now.top + 1)) }
    {
        if own {
            return self.mask.copy();
        }
        Mask::none()
    }

    /// The round of a creation whose offer is due.
    fn round_due(&self, key: &Key) -> Option<u64>
        ensures { result ≡ round_due_at (stage_of self.now.part.opened key.now) }
    {
        match self.stage(key) {
            Some(Stage::Waiting(round)) => Some(round),
            _ => None,
        }
    }

    /// The offer of a creation's round goes into this rank's gather, and an `Up` follows where the
    /// gather is then whole. Gives whether the offer owns the mask: exactly where no key owns it and
    /// no waiting key of this rank comes before the key.
    pub fn offer(&mut self, key: &Key, out: &mut Vec<Sent<W>>) -> bool
        requires due { may_offer_now self.old.part key.now ≡ true }
        requires room { 1 ≤ self.old.spare }
        requires out { 1 ≤ room_of out.old }
        ensures own { result ≡ may_own_now self.old.part key.now }
        ensures step { Makes (make_offer self.old.rank self.old.top self.old.part key.now) self.old self.new out.old.items out.new.items }
        ensures spare { self.old.spare ≤ self.new.spare + 1 }
        ensures room { room_of out.old ≤ room_of out.new + 1 }
        ensures few { length out.new.items ≤ length out.old.items + 1 }
    {
        let Some(round) = self.round_due(key) else {
            unreachable!()
        };
        let own = self.may_own(key);
        let mask = self.offered_mask(own);
        own_mask(&mut self.owner, key, own);
        set_stage(&mut self.opened, key, Stage::Offered { round, own });
        self.gathers.put(key, place_in(key, self.rank), own, mask);
        self.send_up(key, out);
        own
    }

    /// Whether an `Up` of a round from a rank is taken: the key is no exchange, the rank's place is a
    /// child of this rank's, and the gather is at that round and has no offer of the place.
    #[tactic(auto, unfolding(agree_law::specs::Offers::takes_up))]
    pub fn may_take_offer(&self, from: u16, key: &Key, round: u64) -> bool
        ensures { result ≡ takes_up self.now.rank self.now.part from key.now round }
    {
        key.kind != Kind::Share
            && is_below(key, self.rank, from)
            && round == self.gathers.round(key)
            && !self.gathers.has(key, place_in(key, from))
    }

    /// Takes an `Up` from a rank. An `Up` of this rank follows where its gather is then whole.
    pub fn take_offer(
        &mut self,
        from: u16,
        key: &Key,
        round: u64,
        own: bool,
        mask: &Mask<W>,
        out: &mut Vec<Sent<W>>,
    )
        requires taken { takes_up self.old.rank self.old.part from key.now round ≡ true }
        requires room { 1 ≤ self.old.spare }
        requires out { 1 ≤ room_of out.old }
        ensures step { Makes (take_up self.old.rank self.old.top self.old.part from key.now round own (front self.old.top mask.now)) self.old self.new out.old.items out.new.items }
        ensures spare { self.old.spare ≤ self.new.spare + 1 }
        ensures room { room_of out.old ≤ room_of out.new + 1 }
        ensures few { length out.new.items ≤ length out.old.items + 1 }
    {
        let _round = round;
        let _rank = self.rank;
        self.gathers.put(key, place_in(key, from), own, mask.copy());
        self.send_up(key, out);
    }
}
