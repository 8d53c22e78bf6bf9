//! Where the first split of each name is.
ghost use Rattle.std.specs.Prelude.{◌≡◌, ℕ, if◌then◌else◌, Some, None, is_some, OnErr, OnOk};
ghost use Rattle.central_comms.specs.Pairs.{found_by};
ghost use Rattle.mpi_law.specs.Registry.State.{Nth_split};
ghost use Rattle.mpi_law.specs.Registry.Creations.{same_name};
ghost use Rattle.central_creations.specs.Found.{split_in, first_or};

use crate::names::CreationName;
use central_comms::Pairs;
use mpi_base::OutOfMemory;

/// The place of the first split of this name; None where there is none.
pub(crate) fn first(splits: &Pairs, name: &CreationName) -> Option<usize>
    ensures { result ≡ split_in splits.now name.now }
{
    let (parent, number) = name.split()?;
    splits.get(parent, number)
}

/// Where the name is the first of a split, it is that of the split at the place. After an Err nothing has
/// changed.
pub(crate) fn enter(
    splits: &mut Pairs,
    name: &CreationName,
    place: usize,
) -> Result<(), OutOfMemory>
    ensures ok { OnOk result ((p n : ℕ) → found_by splits.new p n ≡ first_or (found_by splits.old p n) (same_name name.now (Nth_split p n)) place) }
    ensures err { OnErr result (splits.new ≡ splits.old) }
{
    if let Some((parent, number)) = name.split() {
        if splits.get(parent, number).is_none() {
            splits.insert(parent, number, place)?;
        }
    }
    Ok(())
}
