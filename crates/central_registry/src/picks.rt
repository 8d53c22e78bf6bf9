//! Picks of creations, as the settles of a journal have them (MPI 4.0, 7.4.2; contexts and keys are this
//! project's own).
ghost use Rattle.std.specs.Prelude.{◌≡◌, ◌&&◌, [], if◌then◌else◌, None, Some, is_none, bytes_eq, IfOk, OnErr, OnOk};
ghost use Rattle.std.specs.List.{list_all, range_with_len};
ghost use Rattle.mpi_base.specs.MemberLists.{has_rank};
ghost use Rattle.mpi_law.specs.Registry.State.{creation_at};
ghost use Rattle.mpi_law.specs.Registry.Creations.{all_called, class_of, outcome_for};
ghost use Rattle.mpi_law.specs.Registry.Contexts.{comm_of, key_place, stands_for};
ghost use Rattle.mpi_law.specs.Registry.Events.{after_pick};
ghost use Rattle.mpi_law.specs.Registry.Runs.{MayPick, AllInUse};
ghost use Rattle.central_law.specs.Rest.{AtRest};
ghost use Rattle.mpi_law.specs.Registry.Tests.{can_pick, is_taken};
ghost use Rattle.central_law.specs.Fits.{PickFits};
ghost use Rattle.central_law.specs.After.{picked_state};
ghost use Rattle.central_registry.specs.Moves.{Moves};

use crate::tables::Tables;
use central_creations::{CreationName, Outcome};
use mpi_base::{Key, Kind, Members, OutOfMemory, Said};
use mpi_law::Setting;
use std::alloc::Global;

/// Whether a rank is a member.
#[tactic(auto, using(central_comms::proofs::PlaceFacts::is_some_position))]
fn is_member(members: &Members, rank: u16) -> bool
    ensures { result ≡ has_rank members.now rank }
{
    members.place_of(rank).is_some()
}

impl Tables {
    /// The place of the communicator that the parent of a key stands for at a rank, where the key has no
    /// string; an Err where the place is beyond 65,535.
    fn parent(&self, rank: u16, key: &Key) -> Result<Option<u16>, OutOfMemory>
        ensures { IfOk result (λ p. p ≡ (if bytes_eq key.now.tag [] then comm_of self.now.state.comms rank key.now.parent else None)) }
    {
        if !key.tag.bytes().is_empty() {
            return Ok(None);
        }
        match self.comms.place_of(rank, key.parent) {
            Some(place) => Ok(Some(u16::try_from(place).map_err(|_| OutOfMemory)?)),
            None => Ok(None),
        }
    }

    /// The name that a key stands for at a rank; an Err where its parent's place is beyond 65,535.
    fn name_for(&self, rank: u16, key: &Key) -> Result<Option<CreationName>, OutOfMemory>
        ensures { IfOk result (λ name. name ≡ stands_for self.now.state.comms rank key.now) }
    {
        if key.kind == Kind::From {
            if key.parent != 0 || key.number != 0 {
                return Ok(None);
            }
            return Ok(Some(CreationName::group_and_tag(key.members.copy(), key.tag.copy())));
        }
        let Some(parent) = self.parent(rank, key)? else {
            return Ok(None);
        };
        Ok(Some(match key.kind {
            Kind::Dup => CreationName::nth_dup(parent, key.number),
            Kind::Split | Kind::Share => CreationName::nth_split(parent, key.number),
            Kind::From | Kind::Group => {
                CreationName::group_on(parent, key.number, key.members.copy())
            }
        }))
    }

    /// The place of the creation that a key stands for at a rank; how many creations there are where there is
    /// none. An Err where its parent's place is beyond 65,535.
    fn key_place(&self, rank: u16, key: &Key) -> Result<usize, OutOfMemory>
        ensures { IfOk result (λ place. place ≡ key_place self.now.state rank key.now) }
    {
        Ok(match self.name_for(rank, key)? {
            Some(name) => self.creations.place_pickable(&name),
            None => self.creations.len(),
        })
    }

    /// Whether all have called the creation at a place, these are the members of the communicator that a rank
    /// gets by it, the rank among them, and nothing is picked for the rank.
    fn is_due(&self, place: usize, rank: u16, members: &Members) -> bool
        ensures { result ≡ (all_called (creation_at self.now.state place) && (has_rank members.now rank && (bytes_eq (class_of (creation_at self.now.state place) rank) members.now && is_none (outcome_for (creation_at self.now.state place) rank)))) }
    {
        self.creations.all_called(place)
            && is_member(members, rank)
            && self.creations.class_of(place, rank) == *members
            && self.creations.outcome_for(place, rank).is_none()
    }

    /// Whether something may be picked of the creation at this place, for a key that stands for it at a rank.
    fn can_pick(&self, rank: u16, key: &Key, place: usize) -> bool
        ensures { place ≡ key_place self.now.state rank key.now → result ≡ can_pick self.now.state rank key.now }
    {
        key.kind != Kind::Share
            && place < self.creations.len()
            && self.is_due(place, rank, &key.members)
    }

    /// Whether a context is in use at some member of a key.
    fn is_taken(&self, key: &Key, ctx: u16) -> bool
        ensures { result ≡ is_taken self.now.state key.now ctx }
    {
        for place in 0..key.members.len() {
            if let Some(member) = key.members.get(place) {
                if self.comms.is_in_use(member, ctx) {
                    return true;
                }
            }
        }
        false
    }

    /// Whether every context of a setting is in use at some member of a key.
    fn are_all_taken(&self, setting: &Setting, key: &Key) -> bool
        ensures { result ≡ list_all (is_taken self.now.state key.now) (range_with_len 1 setting.now.contexts) }
    {
        for ctx in 1..=setting.contexts {
            if !self.is_taken(key, ctx) {
                return false;
            }
        }
        true
    }

    /// A context is picked for the members of a key, of the creation at a place. After an Err nothing has
    /// changed.
    fn pick(&mut self, alloc: Global, place: usize, key: &Key, ctx: u16) -> Result<(), OutOfMemory>
        ensures ok { OnOk result (self.new.state ≡ after_pick self.old.state place key.now (Some ctx)) }
        ensures err { OnErr result (self.new.state ≡ self.old.state) }
    {
        let sessions = self.creations.sessions(alloc, place, &key.members)?;
        let comm = u16::try_from(self.comms.len()).map_err(|_| OutOfMemory)?;
        let members = key.members.copy();
        self.comms.add(ctx, members.copy(), sessions)?;
        if let Err(error) = self.creations.decide(place, members, Outcome::Made(comm)) {
            self.comms.drop_last();
            return Err(error);
        }
        Ok(())
    }

    /// Picks for the members of a key that no context is free, where that may be picked, and tells whether it
    /// may. Otherwise, and after an Err, nothing has changed.
    fn exhaust(&mut self, setting: &Setting, rank: u16, key: &Key) -> Result<bool, OutOfMemory>
        requires { AtRest setting.now self.old.state }
        ensures ok { IfOk result (λ moved. Moves (MayPick self.old.state rank key.now × AllInUse setting.now self.old.state key.now) self.old.state (after_pick self.old.state (key_place self.old.state rank key.now) key.now None) moved self.new.state) }
        ensures err { OnErr result (self.new.state ≡ self.old.state) }
    {
        let place = self.key_place(rank, key)?;
        if !self.can_pick(rank, key, place) || !self.are_all_taken(setting, key) {
            return Ok(false);
        }
        self.creations
            .decide(place, key.members.copy(), Outcome::NoneFree)?;
        Ok(true)
    }

    /// What a settle does: the pick that its entry has, where it may be made. Tells whether it may; otherwise,
    /// and after an Err, nothing has changed.
    pub(crate) fn settle(
        &mut self,
        alloc: Global,
        setting: &Setting,
        rank: u16,
        key: &Key,
        said: Option<Said>,
    ) -> Result<bool, OutOfMemory>
        requires { AtRest setting.now self.old.state }
        ensures ok { IfOk result (λ moved. Moves (PickFits setting.now self.old.state rank key.now said) self.old.state (picked_state self.old.state rank key.now said) moved self.new.state) }
        ensures err { OnErr result (self.new.state ≡ self.old.state) }
    {
        match said {
            Some(Said::Picked(ctx)) => {
                let place = self.key_place(rank, key)?;
                let is_ctx = 1 <= ctx && ctx <= setting.contexts;
                if !self.can_pick(rank, key, place) || !is_ctx || self.is_taken(key, ctx) {
                    return Ok(false);
                }
                self.pick(alloc, place, key, ctx)?;
                Ok(true)
            }
            Some(Said::Exhausted) => self.exhaust(setting, rank, key),
            Some(Said::Own | Said::Zero | Said::Ready | Said::Retry | Said::Shared) | None => {
                Ok(true)
            }
        }
    }
}
