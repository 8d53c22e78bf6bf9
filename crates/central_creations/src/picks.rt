//! What was picked for a creation.
ghost use Rattle.std.specs.Prelude.{◌≡◌};
ghost use Rattle.mpi_base.specs.MemberLists.{has_rank};

use mpi_base::Members;
use std::marker::Model;

/// What was picked for the members of a communicator to be.
#[derive(Clone, Copy, Drop)]
pub enum Outcome {
    /// The communicator, by its place in the registry.
    Made(u16),
    /// No context was free.
    NoneFree,
}

/// The outcome of a creation, or of one class of a split, and the members that it is for.
#[derive(Drop)]
pub(crate) struct Pick {
    pub(crate) members: Members,
    pub(crate) outcome: Outcome,
}

impl Model for Pick {
    ghost use Rattle.mpi_law.specs.Registry.State.{Pick as RegistryPick};
    ghost use Rattle.central_creations.specs.Outcomes.{outcome_seen};

    ghost Value = { RegistryPick };

    ghost view = { λ k. record { members = k.members; outcome = outcome_seen k.outcome } };
}

impl Pick {
    /// Whether it is for a rank.
    #[tactic(auto, using(central_comms::proofs::PlaceFacts::is_some_position))]
    pub(crate) fn is_for(&self, rank: u16) -> bool
        ensures { result ≡ has_rank self.now.members rank }
    {
        self.members.place_of(rank).is_some()
    }
}
