//! The place of the first row with two numbers.
ghost use Rattle.std.specs.Prelude.{◌≡◌, ℕ, ◌==◌, ◌&&◌, if◌then◌else◌, Some, None, OnErr, OnOk};
ghost use Rattle.std.specs.Option.{option_or};
ghost use Rattle.central_comms.specs.Pairs.{found_by};
ghost use Rattle.central_mail.specs.Indexed.{but_not};

use central_comms::Pairs;
use mpi_base::OutOfMemory;

/// The place of a new last row with two numbers is found by these, unless an earlier row's is. After an Err
/// nothing has changed.
pub(crate) fn add_last(
    places: &mut Pairs,
    first: u16,
    second: u64,
    place: usize,
) -> Result<(), OutOfMemory>
    ensures ok { OnOk result ((a b : ℕ) → found_by places.new a b ≡ option_or (found_by places.old a b) (if (first == a) && (second == b) then Some place else None)) }
    ensures err { OnErr result (places.new ≡ places.old) }
{
    if places.get(first, second).is_none() {
        places.insert(first, second, place)?;
    }
    Ok(())
}

/// The place of a last row with two numbers, which is taken out, is not found by these any more; an earlier
/// row's still is.
pub(crate) fn let_last_go(places: &mut Pairs, first: u16, second: u64, place: usize)
    ensures { (a b : ℕ) → found_by places.new a b ≡ (if (first == a) && (second == b) then but_not place (found_by places.old a b) else found_by places.old a b) }
{
    if places.get(first, second) == Some(place) {
        places.remove(first, second);
    }
}
