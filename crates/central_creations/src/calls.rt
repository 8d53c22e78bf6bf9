//! How many calls of dup and split on a communicator a rank has made.
ghost use Rattle.std.specs.Prelude.{◌≡◌, ℕ, ◌+◌, ◌==◌, ◌&&◌, if◌then◌else◌, unwrap_or, IfOk, IsSome, OnOk};
ghost use Rattle.central_comms.specs.Pairs.{found_by};
ghost use Rattle.mpi_law.specs.Registry.Creations.{is_place};
ghost use Rattle.central_creations.specs.Found.{count_in};

use central_comms::Pairs;
use mpi_base::OutOfMemory;

/// How many calls of a rank on the communicator at a place are counted.
pub(crate) fn count(calls: &Pairs, parent: u16, rank: u16) -> usize
    ensures { result ≡ count_in calls.now parent rank }
{
    calls.get(parent, u64::from(rank)).unwrap_or(0)
}

/// The count that a rank has after one call more on the communicator at a place, and room for it. The
/// counts stay.
pub(crate) fn next(calls: &mut Pairs, parent: Option<u16>, rank: u16) -> Result<usize, OutOfMemory>
    ensures next { IfOk result (λ n. (p : ℕ) → parent ≡ Some p → (n ≡ count_in calls.old p rank + 1) × IsSome (found_by calls.new p rank)) }
    ensures same { (p r : ℕ) → count_in calls.new p r ≡ count_in calls.old p r }
{
    let Some(place) = parent else {
        return Ok(0);
    };
    let count = count(calls, place, rank);
    let next = count.checked_add(1).ok_or(OutOfMemory)?;
    calls.insert(place, u64::from(rank), count)?;
    Ok(next)
}

/// A rank has made one call more on the communicator at a place: this count, for which there is room.
pub(crate) fn raise(calls: &mut Pairs, parent: Option<u16>, rank: u16, next: usize)
    requires { (p : ℕ) → parent ≡ Some p → (next ≡ count_in calls.old p rank + 1) × IsSome (found_by calls.old p rank) }
    ensures { (p r : ℕ) → count_in calls.new p r ≡ (if is_place p parent && (rank == r) then count_in calls.old p r + 1 else count_in calls.old p r) }
{
    if let Some(place) = parent {
        calls.replace(place, u64::from(rank), next);
    }
}
