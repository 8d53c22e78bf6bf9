//! Changes of the rows of open creations, and what a stage says.
ghost use Rattle.std.specs.Prelude.{◌≡◌, ◌≤◌, if◌then◌else◌};
ghost use Rattle.agree_law.specs.Rule.{is_waiting as is_waiting_at, let_go as owner_left};
ghost use Rattle.agree_law.specs.Offers.{is_due as is_due_at};
ghost use Rattle.agree_law.specs.Shares.{is_own_share as is_own_share_at};
ghost use Rattle.agree_law.specs.Part.{close_creation as closed_rows, set_stage as staged_rows};
ghost use Rattle.and_reduce.specs.Rooms.{room_of};
ghost use Rattle.agree_core.specs.Held.{has_offered as has_offered_at};

use agree_law::{CreationRow, Stage};
use mpi_base::{Key, Shared1};

/// Moves a creation on to a stage.
pub(crate) fn set_stage(opened: &mut Vec<CreationRow>, key: &Key, stage: Stage)
    ensures rows { opened.new.items ≡ staged_rows opened.old.items key.now stage }
    ensures room { room_of opened.old ≤ room_of opened.new }
{
    for row in opened.iter_mut() {
        if row.key.is_same(key) {
            row.stage = stage;
        }
    }
}

/// Takes a creation out.
pub(crate) fn close_creation(opened: &mut Vec<CreationRow>, key: &Key)
    ensures rows { opened.new.items ≡ closed_rows opened.old.items key.now }
    ensures room { room_of opened.old ≤ room_of opened.new }
{
    opened.retain(|row| !row.key.is_same(key));
}

/// Whether a creation at this stage competes for the mask.
pub(crate) fn is_waiting(stage: Option<Stage>) -> bool
    ensures { result ≡ is_waiting_at stage }
{
    matches!(stage, Some(Stage::Waiting(_) | Stage::Offered { .. }))
}

/// Whether a creation at this stage is due for its offer.
pub(crate) fn is_due(stage: Option<Stage>) -> bool
    ensures { result ≡ is_due_at stage }
{
    matches!(stage, Some(Stage::Waiting(_)))
}

/// Whether a creation at this stage has made its offer and is not decided.
pub(crate) fn has_offered(stage: Option<Stage>) -> bool
    ensures { result ≡ has_offered_at stage }
{
    matches!(stage, Some(Stage::Offered { .. }))
}

/// Lets go of the mask, where the key owns it.
pub(crate) fn let_go(owner: &mut Option<Key>, key: &Key)
    ensures { owner.new ≡ owner_left owner.old key.now }
{
    if let Some(holder) = owner {
        if holder.is_same(key) {
            *owner = None;
        }
    }
}

/// Whether an item of the list of all members' shares is the share that a creation at this stage told.
pub(crate) fn is_own_share(stage: Option<Stage>, item: Option<Shared1>) -> bool
    ensures { result ≡ is_own_share_at stage item }
{
    match (stage, item) {
        (Some(Stage::Sharing(told)), Some(item)) => told == item,
        _ => false,
    }
}
