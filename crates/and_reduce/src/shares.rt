//! The shares that a first member gathers.
ghost use Rattle.std.specs.Prelude.{◌≡◌, ◌≤◌, ◌+◌, ◌==◌, ◌&&◌, ◌∷◌, ◌++◌, [], find, length, is_some, option_map, OnOk};
ghost use Rattle.std.specs.List.{list_all, range_with_len};
ghost use Rattle.mpi_base.specs.Keys.{same_key};
ghost use Rattle.agree_law.specs.Shares.{share_here, share_list};
ghost use Rattle.agree_law.specs.Part.{drop_shares as dropped_shares};

use crate::share_lists::ShareList;
use agree_law::ShareRow;
use mpi_base::{Key, OutOfMemory, Shared1};
use std::alloc::Global;
use std::marker::Model;

/// The shares of splits that a rank gathers as first member, of all keys.
#[derive(Drop)]
pub struct ShareGathers {
    rows: Vec<ShareRow>,
}

/// The share of the member at a place.
fn find_share(rows: &[ShareRow], key: &Key, place: u16) -> Option<Shared1>
    ensures { result ≡ option_map (λ o. o.share) (find (λ o. same_key o.key key.now && (o.place == place)) rows.now) }
{
    let row = rows
        .iter()
        .find(|row| row.key.is_same(key) && row.place == place)?;
    Some(row.share)
}

impl Model for ShareGathers {
    ghost use Rattle.and_reduce.specs.Rooms.{room_of};
    ghost use Rattle.and_reduce.specs.Rows.{Gathered_shares};

    ghost Value = { Gathered_shares };

    ghost view = { λ g. record { rows = g.rows.items; spare = room_of g.rows } };
}

impl ShareGathers {
    /// No share gathered.
    pub fn none(alloc: Global) -> ShareGathers
        ensures { result.rows ≡ [] }
    {
        ShareGathers {
            rows: Vec::new(alloc),
        }
    }

    /// Makes room for one more share.
    pub fn reserve(&mut self) -> Result<(), OutOfMemory>
        ensures rows { self.new.rows ≡ self.old.rows }
        ensures ok { OnOk result (1 ≤ self.new.spare) }
    {
        self.rows.reserve(1)?;
        Ok(())
    }

    /// All shares that are gathered, in the order in which they came.
    pub fn shares(&self) -> &[ShareRow]
        ensures { result.now ≡ self.now.rows }
    {
        self.rows.as_slice()
    }

    /// Gathers the share of the member at a place. There is room for it.
    pub fn put(&mut self, key: &Key, place: u16, share: Shared1)
        requires room { 1 ≤ self.old.spare }
        ensures rows { self.new.rows ≡ self.old.rows ++ record { key = key.now; place = place; share = share } ∷ [] }
        ensures spare { self.old.spare ≤ self.new.spare + 1 }
    {
        self.rows.push_reserved(ShareRow {
            key: key.copy(),
            place,
            share,
        });
    }

    /// The share of the member at a place; None exactly where it is not there.
    pub fn share(&self, key: &Key, place: u16) -> Option<Shared1>
        ensures { result ≡ share_here self.now.rows key.now place }
    {
        find_share(self.rows.as_slice(), key, place)
    }

    /// Whether the shares of all members are there.
    pub fn is_whole(&self, key: &Key) -> bool
        ensures { result ≡ list_all (λ p. is_some (share_here self.now.rows key.now p)) (range_with_len 0 (length key.now.members)) }
    {
        (0..key.members.len()).all(
            |place| -> bool
                ensures { result ≡ is_some (share_here self.entry.now.rows key.entry.now place) }
            { self.share(key, place).is_some() },
        )
    }

    /// The shares of a key that are there, in order of place.
    pub fn list(&self, key: &Key) -> ShareList
        ensures { result ≡ share_list self.now.rows key.now }
    {
        let mut list = ShareList::none();
        for place in 0..key.members.len() {
            if let Some(share) = self.share(key, place) {
                list.push(share);
            }
        }
        list
    }

    /// Takes out the shares of a key.
    pub fn remove(&mut self, key: &Key)
        ensures rows { self.new.rows ≡ dropped_shares self.old.rows key.now }
        ensures spare { self.old.spare ≤ self.new.spare }
    {
        self.rows.retain(|row| !row.key.is_same(key));
    }
}
