//! The callers of a creation.
use mpi_base::{Name, Shared1};
use std::marker::Model;

/// A member that has called a creation.
#[derive(Drop)]
pub struct Caller {
    /// Its rank in the world.
    pub rank: u16,
    /// The thread that called, from 0.
    pub thread: u8,
    /// The name to bind.
    pub target: Name,
    /// The caller's session of the communicator to be, by its count at the rank, from 1.
    pub session: u64,
    /// The caller's share, where the creation is a split.
    pub share: Option<Shared1>,
}

impl Model for Caller {
    ghost use Rattle.mpi_law.specs.Registry.State.{Caller as RegistryCaller};

    ghost Value = { RegistryCaller };

    ghost view = { λ k. record { rank = k.rank; thread = k.thread; target = k.target; session = k.session; share = k.share } };
}
