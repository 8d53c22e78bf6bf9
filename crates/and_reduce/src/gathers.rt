//! The offers that a rank gathers, with the rounds of its gathers.
ghost use Rattle.std.specs.Prelude.{◌≡◌, ◌≤◌, ◌+◌, ◌∷◌, ◌++◌, ◌||◌, ◌<◌, ℕ, [], false, get_or, length, map, not, IfSome, OnOk};
ghost use Rattle.std.specs.List.{list_all, range_with_len};
ghost use Rattle.agree_law.specs.Gather.{all_own as all_own_of, common_mask, has_offer as has_offer_of, is_ready as is_ready_at, least_common as least_common_of, verdict_of};
ghost use Rattle.agree_law.specs.Part.{drop_offers as dropped_offers, drop_round as dropped_rounds, round_of, set_round as round_put};
ghost use Rattle.agree_law.specs.Tree.{is_child as is_child_place};
ghost use Rattle.and_reduce.specs.Fronts.{front, HasPlaces};
ghost use Rattle.and_reduce.specs.Rows.{IsPick, offer_of};

use crate::offers::{OfferRow, all_own, common, drop_offers, has_offer};
use crate::tree::is_child;
use agree_law::{RoundRow, Verdict};
use ctx_mask::Mask;
use mpi_base::{Key, OutOfMemory};
use std::alloc::Global;
use std::marker::Model;

/// The offers that a rank gathers, of all keys, and the round of each gather. A gather without a
/// round is at round 0. Contexts count from 1 to a greatest one below `64 * W`; `W` is from 1 to 32.
#[derive(Drop)]
pub struct Gathers<const W: usize> {
    contexts: u16,
    offers: Vec<OfferRow<W>>,
    rounds: Vec<RoundRow>,
}

/// What all offers for a key say together.
#[derive(Drop)]
pub struct Joined<const W: usize> {
    /// Whether each of them owns.
    pub own: bool,
    /// The contexts that all of them carry.
    pub mask: Mask<W>,
}

impl<const W: usize> Model for Gathers<W> {
    ghost use Rattle.std.specs.Prelude.{map, min};
    ghost use Rattle.and_reduce.specs.Fronts.{HasPlaces};
    ghost use Rattle.and_reduce.specs.Rooms.{room_of};
    ghost use Rattle.and_reduce.specs.Rows.{Gathered, offer_of};

    ghost Value = { Gathered };

    ghost view = { λ g. record {
      top = g.contexts;
      offers = map (offer_of g.contexts) g.offers.items;
      rounds = g.rounds.items;
      spare = min (room_of g.offers) (room_of g.rounds);
    } };

    ghost invariant = { λ g. HasPlaces W g.contexts };
}

impl<const W: usize> Gathers<W> {
    /// Nothing gathered, for the contexts from 1 to `contexts`.
    pub fn none(alloc: Global, contexts: u16) -> Gathers<W>
        requires places { HasPlaces W contexts }
        ensures top { result.top ≡ contexts }
        ensures offers { result.offers ≡ [] }
        ensures rounds { result.rounds ≡ [] }
    {
        Gathers {
            contexts,
            offers: Vec::new(alloc),
            rounds: Vec::new(alloc),
        }
    }

    /// Makes room for one more offer and one more round.
    pub fn reserve(&mut self) -> Result<(), OutOfMemory>
        ensures top { self.new.top ≡ self.old.top }
        ensures offers { self.new.offers ≡ self.old.offers }
        ensures rounds { self.new.rounds ≡ self.old.rounds }
        ensures ok { OnOk result (1 ≤ self.new.spare) }
    {
        self.offers.reserve(1)?;
        self.rounds.reserve(1)?;
        Ok(())
    }

    /// The greatest context.
    pub fn contexts(&self) -> u16
        ensures value { result ≡ self.now.top }
        ensures places { HasPlaces W self.now.top }
    {
        self.contexts
    }

    /// All offers that are gathered, in the order in which they came.
    pub fn offers(&self) -> &[OfferRow<W>]
        ensures { map (offer_of self.now.top) result.now ≡ self.now.offers }
    {
        self.offers.as_slice()
    }

    /// Gathers the offer of a place. There is room for it.
    pub fn put(&mut self, key: &Key, place: u16, own: bool, mask: Mask<W>)
        requires room { 1 ≤ self.old.spare }
        ensures top { self.new.top ≡ self.old.top }
        ensures offers { self.new.offers ≡ self.old.offers ++ record { key = key.now; place = place; own = own; mask = front self.old.top mask.entry } ∷ [] }
        ensures rounds { self.new.rounds ≡ self.old.rounds }
        ensures spare { self.old.spare ≤ self.new.spare + 1 }
    {
        self.offers.push_reserved(OfferRow {
            key: key.copy(),
            place,
            own,
            mask,
        });
    }

    /// Whether the offer of a place is there.
    pub fn has(&self, key: &Key, place: u16) -> bool
        ensures { result ≡ has_offer_of self.now.offers key.now place }
    {
        has_offer(self.offers.as_slice(), key, place)
    }

    /// Whether the offers of a place and of each of its children are there.
    pub fn is_ready(&self, key: &Key, place: u16) -> bool
        ensures { result ≡ is_ready_at self.now.offers key.now place }
    {
        self.has(key, place) && self.has_children(key, place)
    }

    /// Whether the offer of each child of a place is there.
    fn has_children(&self, key: &Key, place: u16) -> bool
        ensures { result ≡ list_all (λ c. not (is_child_place place c) || has_offer_of self.now.offers key.now c) (range_with_len 0 (length key.now.members)) }
    {
        (0..key.members.len()).all(
            |child| -> bool
                ensures { result ≡ (not (is_child_place place child) || has_offer_of self.entry.now.offers key.entry.now child) }
            { !is_child(place, child) || self.has(key, child) },
        )
    }

    /// Whether all offers for a key own, and the contexts that all of them carry.
    pub fn joined(&self, key: &Key) -> Joined<W>
        ensures own { result.own ≡ all_own_of self.now.offers key.now }
        ensures mask { front self.now.top result.mask ≡ common_mask self.now.top self.now.offers key.now }
        ensures low { get_or result.mask 0 false ≡ false }
        ensures above { (c : ℕ) → self.now.top < c → get_or result.mask c false ≡ false }
    {
        Joined {
            own: self.all_own(key),
            mask: common(self.offers.as_slice(), key, self.contexts),
        }
    }

    fn all_own(&self, key: &Key) -> bool
        ensures { result ≡ all_own_of self.now.offers key.now }
    {
        all_own(self.offers.as_slice(), key)
    }

    fn least_common(&self, key: &Key) -> Option<u16>
        ensures value { result ≡ least_common_of self.now.top self.now.offers key.now }
        ensures pick { IfSome result (λ c. (1 ≤ c) × (c ≤ self.now.top)) }
    {
        common(self.offers.as_slice(), key, self.contexts).lowest()
    }

    /// The round whose offers are gathered for a key, from 0.
    pub fn round(&self, key: &Key) -> u64
        ensures { result ≡ round_of self.now.rounds key.now }
    {
        match self.rounds.iter().find(|row| row.key.is_same(key)) {
            Some(row) => row.round,
            None => 0,
        }
    }

    /// What the offers of a key's round say together: `Ready` exactly in round 0; later the least
    /// context that all offers carry where all own, `Exhausted` exactly where all own and there is
    /// none, and `Retry` exactly where some offer does not own.
    pub fn verdict(&self, key: &Key) -> Verdict
        ensures value { result ≡ verdict_of self.now.top self.now.offers key.now (round_of self.now.rounds key.now) }
        ensures pick { IsPick self.now.top result }
    {
        if self.round(key) == 0 {
            return Verdict::Ready;
        }
        if !self.all_own(key) {
            return Verdict::Retry;
        }
        match self.least_common(key) {
            Some(ctx) => Verdict::Context(ctx),
            None => Verdict::Exhausted,
        }
    }

    /// Takes out the offers for a key, whose gather is at this round from now on. There is room.
    pub fn next_round(&mut self, key: &Key, round: u64)
        requires room { 1 ≤ self.old.spare }
        ensures top { self.new.top ≡ self.old.top }
        ensures offers { self.new.offers ≡ dropped_offers self.old.offers key.now }
        ensures rounds { self.new.rounds ≡ round_put self.old.rounds key.now round }
        ensures spare { self.old.spare ≤ self.new.spare + 1 }
    {
        self.remove(key);
        self.rounds.push_reserved(RoundRow {
            key: key.copy(),
            round,
        });
    }

    /// Takes out the offers for a key, and its round.
    pub fn remove(&mut self, key: &Key)
        ensures top { self.new.top ≡ self.old.top }
        ensures offers { self.new.offers ≡ dropped_offers self.old.offers key.now }
        ensures rounds { self.new.rounds ≡ dropped_rounds self.old.rounds key.now }
        ensures spare { self.old.spare ≤ self.new.spare }
    {
        drop_offers(&mut self.offers, key);
        self.rounds.retain(|row| !row.key.is_same(key));
    }
}
