//! Shares of a split, and the classes that come of them.
ghost use Rattle.std.specs.Prelude.{◌≡◌, ℕ, ◌≤◌, ◌+◌, ◌++◌, map, option_map, slice_get, true, Some, length};
ghost use Rattle.agree_law.specs.Classes.{split_key as split_key_of};
ghost use Rattle.agree_law.specs.Shares.{begin_share as begun_share, colour_at as colour_of, divide as divided, may_settle_share as may_settle_share_now, settle_share as settled_share, share_list, take_share as taken_share, take_shares as taken_shares, takes_share, takes_shares, to_others};
ghost use Rattle.agree_law.specs.Packets.{Shares};
ghost use Rattle.agree_law.specs.Tree.{place_in as place_within};
ghost use Rattle.and_reduce.specs.Rooms.{room_of};
ghost use Rattle.and_reduce.specs.Rows.{sent_of};
ghost use Rattle.agree_core.specs.Held.{Becomes, Makes};
ghost use Rattle.agree_core.specs.Mates.{class_key};

use crate::agreements::Agreements;
use crate::classes::{share_at, split_key};
use crate::rows::{close_creation, is_own_share};
use agree_law::{CreationRow, Stage};
use and_reduce::{Packet, Sent, ShareList, is_first, is_member, member_at, place_in};
use mpi_base::{Key, Kind, Shared1};

/// All members' shares go to each member but the first, in order of place.
fn send_shares<const W: usize>(out: &mut Vec<Sent<W>>, key: &Key, list: &ShareList)
    requires out { 16 ≤ room_of out.old + 1 }
    ensures sent { (top : ℕ) → map (sent_of top) out.new.items ≡ map (sent_of top) out.old.items ++ to_others key.now.members (Shares key.now list.now) }
    ensures room { room_of out.old + 1 ≤ room_of out.new + 16 }
    ensures few { length out.new.items + 1 ≤ length out.old.items + 16 }
{
    for place in 1..key.members.len() {
        out.push_reserved(Sent {
            to: member_at(key, place),
            packet: Packet::Shares {
                key: key.copy(),
                list: list.copy(),
            },
        });
    }
}

/// The colour of a share that is there.
fn colour_at(share: Option<Shared1>) -> Option<i32>
    ensures { result ≡ colour_of share }
{
    match share {
        Some(share) => share.colour,
        None => None,
    }
}

impl<const W: usize> Agreements<W> {
    /// A split is called: it is open from now on, whether or not it was, and its share goes to the
    /// first member, which gathers it at once where it is this rank.
    pub fn begin_share(&mut self, key: &Key, share: Shared1, out: &mut Vec<Sent<W>>)
        requires room { 1 ≤ self.old.spare }
        requires out { 1 ≤ room_of out.old }
        ensures step { Makes (begun_share self.old.rank self.old.part key.now share) self.old self.new out.old.items out.new.items }
        ensures spare { self.old.spare ≤ self.new.spare + 1 }
        ensures room { room_of out.old ≤ room_of out.new + 1 }
        ensures few { length out.new.items ≤ length out.old.items + 1 }
    {
        self.opened.push_reserved(CreationRow {
            key: key.copy(),
            stage: Stage::Sharing(share),
        });
        if is_first(key, self.rank) {
            self.shares.put(key, 0, share);
        } else {
            out.push_reserved(Sent {
                to: member_at(key, 0),
                packet: Packet::Share {
                    key: key.copy(),
                    share,
                },
            });
        }
    }

    /// Whether a `Share` from a rank is taken: the key is an exchange, this rank is its first member,
    /// the other rank is another member, and its share is not there.
    #[tactic(auto, unfolding(agree_law::specs::Shares::takes_share))]
    pub fn may_take_share(&self, from: u16, key: &Key) -> bool
        ensures { result ≡ takes_share self.now.rank self.now.part from key.now }
    {
        key.kind == Kind::Share
            && is_first(key, self.rank)
            && is_member(key, from)
            && from != self.rank
            && self.shares.share(key, place_in(key, from)).is_none()
    }

    /// Takes a `Share` from a rank.
    pub fn take_share(&mut self, from: u16, key: &Key, share: Shared1)
        requires taken { takes_share self.old.rank self.old.part from key.now ≡ true }
        requires room { 1 ≤ self.old.spare }
        ensures part { Becomes self.old self.new (taken_share self.old.rank self.old.part from key.now share).part }
        ensures spare { self.old.spare ≤ self.new.spare + 1 }
    {
        let _rank = self.rank;
        self.shares.put(key, place_in(key, from), share);
    }

    /// Whether this rank is the first member of an exchange, and the shares of all members are there.
    pub fn may_settle_share(&self, key: &Key) -> bool
        ensures { result ≡ may_settle_share_now self.now.rank self.now.part key.now }
    {
        key.kind == Kind::Share && is_first(key, self.rank) && self.shares.is_whole(key)
    }

    /// The exchange is closed here; with a colour the creation of this rank's class is called, whose
    /// key it gives.
    fn divide(
        &mut self,
        key: &Key,
        colour: Option<i32>,
        list: &ShareList,
        out: &mut Vec<Sent<W>>,
    ) -> Option<Key>
        requires room { 1 ≤ self.old.spare }
        requires out { 1 ≤ room_of out.old }
        ensures opened { result ≡ option_map (λ c. split_key_of key.now (Some c) list.now) colour }
        ensures step { Makes (divided self.old.rank self.old.top self.old.part key.now colour list.now) self.old self.new out.old.items out.new.items }
        ensures spare { self.old.spare ≤ self.new.spare + 1 }
        ensures room { room_of out.old ≤ room_of out.new + 1 }
        ensures few { length out.new.items ≤ length out.old.items + 1 }
    {
        close_creation(&mut self.opened, key);
        let Some(colour) = colour else {
            return None;
        };
        let class = split_key(key, colour, list);
        self.open(&class, out);
        Some(class)
    }

    /// Whether all members' shares from a rank are taken: the key is an exchange whose first member
    /// the other rank is, this rank is a member and has told its share, and the list has one item for
    /// each member and at this rank's place its own.
    #[tactic(auto, unfolding(agree_law::specs::Shares::takes_shares))]
    pub fn may_take_shares(&self, from: u16, key: &Key, list: &ShareList) -> bool
        ensures { result ≡ takes_shares self.now.rank self.now.part from key.now list.now }
    {
        let shares = list.as_slice();
        key.kind == Kind::Share
            && is_first(key, from)
            && is_member(key, self.rank)
            && shares.len() == key.members.len() as usize
            && is_own_share(self.stage(key), share_at(shares, place_in(key, self.rank)))
    }

    /// The share of this rank in a list of all members' shares has a colour.
    fn own_colour(&self, key: &Key, list: &ShareList) -> Option<i32>
        ensures { result ≡ colour_of (slice_get list.now (place_within key.now.members self.now.rank)) }
    {
        colour_at(share_at(list.as_slice(), place_in(key, self.rank)))
    }

    /// Takes all members' shares from a rank: the exchange is closed here. With a colour the creation
    /// of this rank's class, over the members of its colour in order of (key, old rank), is called,
    /// whether or not it is open here; its key is given. None comes exactly where this rank's colour
    /// is undefined: nothing goes on then.
    pub fn take_shares(
        &mut self,
        from: u16,
        key: &Key,
        list: &ShareList,
        out: &mut Vec<Sent<W>>,
    ) -> Option<Key>
        requires taken { takes_shares self.old.rank self.old.part from key.now list.now ≡ true }
        requires room { 1 ≤ self.old.spare }
        requires out { 1 ≤ room_of out.old }
        ensures opened { result ≡ class_key self.old.rank key.now list.now }
        ensures step { Makes (taken_shares self.old.rank self.old.top self.old.part from key.now list.now) self.old self.new out.old.items out.new.items }
        ensures spare { self.old.spare ≤ self.new.spare + 1 }
        ensures room { room_of out.old ≤ room_of out.new + 1 }
        ensures few { length out.new.items ≤ length out.old.items + 1 }
    {
        let _from = from;
        let colour = self.own_colour(key, list);
        self.divide(key, colour, list, out)
    }

    /// The key of this rank's class by a list of all members' shares; None where its colour is undefined.
    fn own_class(&self, key: &Key, list: &ShareList) -> Option<Key>
        ensures { result ≡ class_key self.now.rank key.now list.now }
    {
        let colour = self.own_colour(key, list)?;
        Some(split_key(key, colour, list))
    }

    /// The first member settles an exchange, where all members' shares are there: the list goes to each
    /// other member, in order of place, and is taken here as in [`Agreements::take_shares`] where this
    /// rank's own share at its place is the one that it told. Gives the key of this rank's class by the
    /// list; None exactly where its colour there is undefined.
    pub fn settle_share(&mut self, key: &Key, out: &mut Vec<Sent<W>>) -> Option<Key>
        requires whole { may_settle_share_now self.old.rank self.old.part key.now ≡ true }
        requires room { 1 ≤ self.old.spare }
        requires out { 16 ≤ room_of out.old }
        ensures opened { result ≡ class_key self.old.rank key.now (share_list self.old.part.shares key.now) }
        ensures step { Makes (settled_share self.old.rank self.old.top self.old.part key.now) self.old self.new out.old.items out.new.items }
        ensures spare { self.old.spare ≤ self.new.spare + 1 }
        ensures room { room_of out.old ≤ room_of out.new + 16 }
        ensures few { length out.new.items ≤ length out.old.items + 16 }
    {
        let rank = self.rank;
        let list = self.shares.list(key);
        self.shares.remove(key);
        send_shares(out, key, &list);
        if self.may_take_shares(rank, key, &list) {
            self.take_shares(rank, key, &list, out)
        } else {
            self.own_class(key, &list)
        }
    }
}
