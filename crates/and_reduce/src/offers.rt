//! Gathered offers, and what they say together.
ghost use Rattle.std.specs.Prelude.{◌≡◌, ℕ, ◌≤◌, ◌<◌, ◌==◌, ◌&&◌, ◌||◌, not, false, map, get_or};
ghost use Rattle.std.specs.List.{list_all};
ghost use Rattle.mpi_base.specs.Keys.{same_key};
ghost use Rattle.agree_law.specs.Gather.{common_mask};
ghost use Rattle.agree_law.specs.Part.{drop_offers as dropped_offers};
ghost use Rattle.and_reduce.specs.Fronts.{front, HasPlaces};
ghost use Rattle.and_reduce.specs.Rows.{has_row, offer_of};
ghost use Rattle.and_reduce.specs.Rooms.{room_of};

use ctx_mask::Mask;
use mpi_base::Key;

/// An offer that a place has gathered: its own, or what a child said of the child's subtree.
#[derive(Drop)]
pub struct OfferRow<const W: usize> {
    /// The creation's key.
    pub key: Key,
    /// The place of the member among the key's members, from 0.
    pub place: u16,
    /// Whether each member of the subtree owns.
    pub own: bool,
    /// The contexts that all of them offer.
    pub mask: Mask<W>,
}

/// Takes out the offers for a creation.
pub(crate) fn drop_offers<const W: usize>(offers: &mut Vec<OfferRow<W>>, key: &Key)
    ensures rows { (top : ℕ) → map (offer_of top) offers.new.items ≡ dropped_offers (map (offer_of top) offers.old.items) key.now }
    ensures room { room_of offers.old ≤ room_of offers.new }
{
    offers.retain(
        |row| -> bool
            ensures { result ≡ not (same_key row.now.key key.entry.now) }
        { !row.key.is_same(key) },
    );
}

/// Whether the offer of a place is there.
pub(crate) fn has_offer<const W: usize>(offers: &[OfferRow<W>], key: &Key, place: u16) -> bool
    ensures { result ≡ has_row offers.now key.now place }
{
    offers.iter().any(
        |row| -> bool
            ensures { result ≡ (same_key row.now.key key.entry.now && (row.now.place == place)) }
        { row.key.is_same(key) && row.place == place },
    )
}

/// Whether all offers for a key own.
pub(crate) fn all_own<const W: usize>(offers: &[OfferRow<W>], key: &Key) -> bool
    ensures { result ≡ list_all (λ o. not (same_key o.key key.now) || o.own) offers.now }
{
    offers.iter().all(
        |row| -> bool
            ensures { result ≡ (not (same_key row.now.key key.entry.now) || row.now.own) }
        { !row.key.is_same(key) || row.own },
    )
}

/// The contexts that all offers for a key carry.
pub(crate) fn common<const W: usize>(offers: &[OfferRow<W>], key: &Key, top: u16) -> Mask<W>
    requires places { HasPlaces W top }
    ensures value { front top result ≡ common_mask top (map (offer_of top) offers.now) key.now }
    ensures low { get_or result 0 false ≡ false }
    ensures above { (c : ℕ) → top < c → get_or result c false ≡ false }
{
    let mut common = Mask::full(top);
    for row in offers.iter() {
        if row.key.is_same(key) {
            common = common.and(&row.mask);
        }
    }
    common
}
