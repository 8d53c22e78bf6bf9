//! Lists of shares.
ghost use Rattle.std.specs.Prelude.{◌≡◌, ◌≤◌, ◌∷◌, ◌++◌, if◌then◌else◌, [], length, nat_lt};

use arrayvec::ArrayVec;
use mpi_base::{MOST_ITEMS, Shared1};
use std::marker::Model;

/// An ordered list of at most [`MOST_ITEMS`] shares.
#[derive(Drop, PartialEq, Eq)]
pub struct ShareList {
    shares: ArrayVec<Shared1, MOST_ITEMS>,
}

impl Model for ShareList {
    ghost use Rattle.std.specs.Prelude.{List, ◌≤◌, length};
    ghost use Rattle.mpi_base.specs.declared.shares.Shared1.{Shared1};
    ghost use Rattle.mpi_base.specs.declared.lists.TheConstants.{MOST_ITEMS};

    ghost Value = { List Shared1 };

    ghost view = { λ s. s.shares.items };

    ghost invariant = { λ s. length s.shares.items ≤ MOST_ITEMS };

    ghost inverse = { λ xs. record { shares = record { items = xs } } };
}

impl ShareList {
    /// The empty list.
    pub fn none() -> ShareList
        ensures { result ≡ [] }
    {
        ShareList {
            shares: ArrayVec::new(),
        }
    }

    /// Adds a share at the end. False, with nothing changed, exactly where the list is full.
    pub fn push(&mut self, share: Shared1) -> bool
        ensures when { result ≡ nat_lt (length self.old) MOST_ITEMS }
        ensures after { self.new ≡ (if result then self.old ++ share ∷ [] else self.old) }
    {
        self.shares.try_push(share).is_ok()
    }

    /// The shares, in order.
    pub fn as_slice(&self) -> &[Shared1]
        ensures value { result.now ≡ self.now }
        ensures small { length self.now ≤ MOST_ITEMS }
    {
        self.shares.as_slice()
    }

    /// The same list once more.
    pub fn copy(&self) -> ShareList
        ensures same { result ≡ self.now }
    {
        let mut shares = ArrayVec::new();
        let _ = shares.try_extend_from_slice(self.shares.as_slice());
        ShareList { shares }
    }
}
