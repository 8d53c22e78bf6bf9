//! The places of a key's members, and the binomial tree over them.
ghost use Rattle.std.specs.Prelude.{◌≡◌};
ghost use Rattle.mpi_base.specs.MemberLists.{has_rank};
ghost use Rattle.agree_law.specs.Tree.{is_child as is_child_place, is_first as is_first_member, member_at as member_in, parent_of as parent_place, place_in as place_within};

use mpi_base::Key;

/// Whether a rank is a member of a key.
#[tactic(auto, using(crate::proofs::TreeFacts::tree_facts))]
pub fn is_member(key: &Key, rank: u16) -> bool
    ensures { result ≡ has_rank key.now.members rank }
{
    key.members.place_of(rank).is_some()
}

/// Whether a rank is the first member of a key.
pub fn is_first(key: &Key, rank: u16) -> bool
    ensures { result ≡ is_first_member rank key.now.members }
{
    match key.members.get(0) {
        Some(first) => first == rank,
        None => false,
    }
}

/// The place of a rank among a key's members, from 0; 0 too where it is no member.
pub fn place_in(key: &Key, rank: u16) -> u16
    ensures { result ≡ place_within key.now.members rank }
{
    key.members.place_of(rank).unwrap_or(0)
}

/// The rank at a place among a key's members; 0 where there is none.
#[tactic(auto, using(crate::proofs::TreeFacts::tree_facts))]
pub fn member_at(key: &Key, place: u16) -> u16
    ensures { result ≡ member_in key.now.members place }
{
    key.members.get(place).unwrap_or(0)
}

/// The parent of a place above 0: the place with its lowest one bit cleared.
#[tactic(auto, using(crate::proofs::TreeFacts::tree_facts))]
pub fn parent_of(place: u16) -> u16
    ensures { result ≡ parent_place place }
{
    place & place.saturating_sub(1)
}

/// Whether a place is a child of another.
pub fn is_child(parent: u16, place: u16) -> bool
    ensures { result ≡ is_child_place parent place }
{
    place > 0 && parent_of(place) == parent
}
