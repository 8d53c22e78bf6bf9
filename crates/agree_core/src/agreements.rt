//! What one rank holds of the agreement.
ghost use Rattle.std.specs.Prelude.{◌≡◌, ◌≤◌, ◌<◌, map, option_copied, OnOk};
ghost use Rattle.agree_law.specs.Moves.{close, give_back as given_back};
ghost use Rattle.agree_law.specs.Part.{fresh, round_of, stage_of};
ghost use Rattle.and_reduce.specs.Fronts.{front, HasPlaces};
ghost use Rattle.and_reduce.specs.Rows.{offer_of};
ghost use Rattle.agree_core.specs.Held.{Becomes, has_offered as has_offered_at, outcome_of};

use crate::rows::{close_creation, has_offered};
use agree_law::{CreationRow, Outcome, ShareRow, Stage};
use and_reduce::{Gathers, OfferRow, ShareGathers};
use ctx_mask::Mask;
use mpi_base::{Key, OutOfMemory};
use std::alloc::Global;
use std::marker::Model;

/// The creation is open here already.
#[derive(Clone, Copy, Debug, Drop, PartialEq, Eq)]
pub struct Busy;

/// One rank's part of the agreement: its mask, the key that owns it, the open creations, and the
/// offers and shares that it gathers. Contexts count from 1 to a greatest one below `64 * W`; `W` is
/// from 1 to 32.
///
/// A call that adds rows needs room for them, which [`Agreements::reserve`] makes. A call that sends
/// packets pushes them, each with its receiver, to a list in which there is room for them.
#[derive(Drop)]
pub struct Agreements<const W: usize> {
    pub(crate) rank: u16,
    pub(crate) mask: Mask<W>,
    pub(crate) owner: Option<Key>,
    pub(crate) opened: Vec<CreationRow>,
    pub(crate) gathers: Gathers<W>,
    pub(crate) shares: ShareGathers,
}

impl<const W: usize> Model for Agreements<W> {
    ghost use Rattle.std.specs.Prelude.{min};
    ghost use Rattle.and_reduce.specs.Fronts.{front};
    ghost use Rattle.and_reduce.specs.Rooms.{room_of};
    ghost use Rattle.agree_core.specs.Held.{Held, IsMask};

    ghost Value = { Held };

    ghost view = { λ a. record {
      rank = a.rank;
      top = a.gathers.top;
      part = record {
        mask = front a.gathers.top a.mask;
        owner = a.owner;
        opened = a.opened.items;
        gathered = a.gathers.offers;
        rounds = a.gathers.rounds;
        shares = a.shares.rows;
      };
      spare = min (room_of a.opened) (min a.gathers.spare a.shares.spare);
    } };

    ghost invariant = { λ a. IsMask W a.gathers.top a.mask };
}

#[tactic(auto, using(and_reduce::proofs::FrontFacts::front_facts))]
impl<const W: usize> Agreements<W> {
    /// A rank that has called nothing, for the contexts from 1 to `contexts`.
    pub fn start(alloc: Global, rank: u16, contexts: u16) -> Agreements<W>
        requires places { HasPlaces W contexts }
        ensures rank { result.rank ≡ rank }
        ensures top { result.top ≡ contexts }
        ensures part { result.part ≡ fresh contexts }
    {
        Agreements {
            rank,
            mask: Mask::full(contexts),
            owner: None,
            opened: Vec::new(alloc),
            gathers: Gathers::none(alloc, contexts),
            shares: ShareGathers::none(alloc),
        }
    }

    /// Makes room for one more row of each kind. The part stays, whatever it answers.
    pub fn reserve(&mut self) -> Result<(), OutOfMemory>
        ensures same { Becomes self.old self.new self.old.part }
        ensures ok { OnOk result (1 ≤ self.new.spare) }
    {
        self.opened.reserve(1)?;
        self.gathers.reserve()?;
        self.shares.reserve()?;
        Ok(())
    }

    /// This rank's number.
    pub fn rank(&self) -> u16
        ensures { result ≡ self.now.rank }
    {
        self.rank
    }

    /// The contexts that are free at this rank.
    pub fn mask(&self) -> &Mask<W>
        ensures { front self.now.top result.now ≡ self.now.part.mask }
    {
        &self.mask
    }

    /// The key that owns the mask; None exactly where no key does.
    pub fn owner(&self) -> Option<&Key>
        ensures { option_copied result ≡ self.now.part.owner }
    {
        self.owner.as_ref()
    }

    /// The open creations, in the order in which they were called.
    pub fn opened(&self) -> &[CreationRow]
        ensures { result.now ≡ self.now.part.opened }
    {
        self.opened.as_slice()
    }

    /// The offers that are gathered, in the order in which they came.
    pub fn offers(&self) -> &[OfferRow<W>]
        ensures { map (offer_of self.now.top) result.now ≡ self.now.part.gathered }
    {
        self.gathers.offers()
    }

    /// The shares that are gathered, in the order in which they came.
    pub fn shares(&self) -> &[ShareRow]
        ensures { result.now ≡ self.now.part.shares }
    {
        self.shares.shares()
    }

    /// How far a creation is; None exactly where it is not open here.
    pub fn stage(&self, key: &Key) -> Option<Stage>
        ensures { result ≡ stage_of self.now.part.opened key.now }
    {
        let row = self.opened.iter().find(|row| row.key.is_same(key))?;
        Some(row.stage)
    }

    /// The round whose offers this rank gathers for a key, from 0.
    pub fn round(&self, key: &Key) -> u64
        ensures { result ≡ round_of self.now.part.rounds key.now }
    {
        self.gathers.round(key)
    }

    /// Whether the creation has offered in its round, past round 0, and is not decided.
    pub fn is_offered(&self, key: &Key) -> bool
        ensures { result ≡ has_offered_at (stage_of self.now.part.opened key.now) }
    {
        has_offered(self.stage(key))
    }

    /// What came of a creation; None exactly where it is not open here or not decided.
    pub fn outcome(&self, key: &Key) -> Option<Outcome>
        ensures { result ≡ outcome_of (stage_of self.now.part.opened key.now) }
    {
        match self.stage(key) {
            Some(Stage::Done(outcome)) => Some(outcome),
            _ => None,
        }
    }

    /// Closes a creation.
    #[tactic(auto, unfolding(agree_law::specs::Moves::close))]
    pub fn finish(&mut self, key: &Key)
        ensures part { Becomes self.old self.new (close self.old.part key.now) }
        ensures spare { self.old.spare ≤ self.new.spare }
    {
        close_creation(&mut self.opened, key);
    }

    /// A context is free again at this rank.
    #[tactic(auto, unfolding(agree_law::specs::Moves::give_back))]
    pub fn give_back(&mut self, ctx: u16)
        requires context { (1 ≤ ctx) × (ctx ≤ self.old.top) }
        ensures part { Becomes self.old self.new (given_back self.old.part ctx) }
        ensures spare { self.old.spare ≤ self.new.spare }
    {
        self.mask.set(ctx);
    }
}
