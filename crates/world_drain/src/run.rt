//! The drain.
ghost use Rattle.std.specs.Prelude.{◌≡◌, ◌≤◌, ◌+◌, length, OnOk};
ghost use Rattle.mpi_protocol.specs.Order.{IsQuiet};
ghost use Rattle.projection_law.specs.Premises.{SetsAreOfRanks};
ghost use Rattle.wayout_law.specs.Potential.{bound};
ghost use Rattle.world_drain.specs.Drains.{Goes};

use crate::choices::next_choice;
use mpi_base::OutOfMemory;
use mpi_law::Scripts;
use registry_law::callers_names_are_known;
use wayout_law::drains_are_short;
use world_core::World;

/// Makes the first choice, again and again, until there is none.
///
/// It makes at most `(n + 32) * (u + l) + f` steps, for n ranks, u operations of the scripts that are not
/// answered, l live pairs of a rank and a communicator and f packets on the links, all at the start. On
/// want of memory the world stands after the steps made so far.
pub fn drain<const W: usize>(world: &mut World<W>, scripts: &Scripts) -> Result<(), OutOfMemory>
    requires ranks { scripts.now.ranks ≡ world.old.setting.ranks }
    requires sets { SetsAreOfRanks world.old.setting }
    ensures setting { world.new.setting ≡ world.old.setting }
    ensures drained { Goes scripts.now world.old world.new }
    ensures short { length world.new.entries ≤ length world.old.entries + bound scripts.now world.old.world }
    ensures quiet { OnOk result (IsQuiet world.new.world scripts.now) }
{
    callers_names_are_known();
    drains_are_short();
    let _ = world.journal();
    while let Some(choice) = next_choice(world, scripts) {
        world.reserve_step(choice.rank)?;
        world.step(choice);
        let _ = world.journal();
    }
    Ok(())
}
