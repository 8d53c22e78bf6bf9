//! The first choice.
ghost use Rattle.std.specs.Prelude.{◌≡◌, ◌<◌, ◌+◌, false, None, IfSome, option_copied, length};
ghost use Rattle.std.specs.Option.{IfNone};
ghost use Rattle.mpi_law.specs.ScriptLists.{next_op as next_op_of};
ghost use Rattle.mpi_law.specs.declared.setting.TheConstants.{THREADS};
ghost use Rattle.mpi_protocol.specs.Order.{IsFirstChoice, IsQuiet};
ghost use Rattle.rank_core.specs.Next.{is_offer};
ghost use Rattle.world_drain.specs.Searches.{IsOfKind, IsCallOf, IsFirstOf, NoneOf, IsLeast, number_of, number_of_offer, lesser};

use mpi_base::{Act, Choice, Key, Op};
use mpi_law::{Scripts, THREADS};
use rank_core::StepKind;
use world_core::World;

/// The first delivery, by sender and receiver.
fn first_delivery<const W: usize>(world: &World<W>) -> Option<Choice>
    ensures ranks { length world.now.world.ranks ≡ world.now.setting.ranks }
    ensures found { IfSome result (IsFirstOf world.now.world (IsOfKind world.now.world 1)) }
    ensures none { IfNone result (NoneOf (IsOfKind world.now.world 1)) }
{
    let ranks = world.setting().ranks;
    for from in 0..ranks {
        if world.has_sent(from) {
            for rank in 0..ranks {
                let choice = Choice {
                    rank,
                    act: Act::Deliver { from },
                };
                if world.enabled(&choice) {
                    return Some(choice);
                }
            }
        }
    }
    None
}

/// The first step of a kind but an offer, by rank, then by thread, key or context.
fn first_of<const W: usize>(world: &World<W>, kind: StepKind) -> Option<Choice>
    requires { is_offer kind ≡ false }
    ensures found { IfSome result (IsFirstOf world.now.world (IsOfKind world.now.world (number_of kind))) }
    ensures none { IfNone result (NoneOf (IsOfKind world.now.world (number_of kind))) }
{
    for rank in 0..world.setting().ranks {
        if world.has_next(rank, kind) {
            if let Some(act) = world.next(rank, kind, None) {
                return Some(Choice { rank, act });
            }
        }
    }
    None
}

/// The lesser of an offer that counts and one that may be there, which is of no later rank.
fn keep_least(least: Option<(Key, u16)>, key: &Key, rank: u16) -> Option<(Key, u16)>
    ensures { result ≡ lesser least key.now rank }
{
    match least {
        Some(known) if !key.is_before(&known.0) => Some(known),
        _ => Some((key.copy(), rank)),
    }
}

/// The least offer by key and rank, where the offers of one more rank count too.
fn keep_least_of<const W: usize>(
    world: &World<W>,
    offered: bool,
    rank: u16,
    known: Option<(Key, u16)>,
) -> Option<(Key, u16)>
    requires rank { rank < world.now.setting.ranks }
    requires known { IsLeast world.now.world offered rank known }
    ensures { IsLeast world.now.world offered (rank + 1) result }
{
    let mut least = known;
    for row in world.opened(rank) {
        if world.may_offer(rank, &row.key) && world.is_offered(&row.key) == offered {
            least = keep_least(least, &row.key, rank);
        }
    }
    least
}

/// The first offer by key and rank, of those for a key that some rank has offered, or of the others.
fn first_offer<const W: usize>(world: &World<W>, offered: bool) -> Option<Choice>
    ensures found { IfSome result (IsFirstOf world.now.world (IsOfKind world.now.world (number_of_offer offered))) }
    ensures none { IfNone result (NoneOf (IsOfKind world.now.world (number_of_offer offered))) }
{
    let mut least = None;
    for rank in 0..world.setting().ranks {
        least = keep_least_of(world, offered, rank, least);
    }
    let (key, rank) = least?;
    Some(Choice {
        rank,
        act: Act::Offer { key },
    })
}

/// The operation that a thread calls after so many calls; None at the end of its script.
fn next_op(scripts: &Scripts, rank: u16, thread: u8, calls: u64) -> Option<&Op>
    requires rank { rank < scripts.now.ranks }
    requires thread { thread < THREADS }
    ensures { option_copied result ≡ next_op_of scripts.now rank thread calls }
{
    if calls >= scripts.len(rank, thread) as u64 {
        return None;
    }
    Some(scripts.op(rank, thread, calls as u32))
}

/// The first call of the next operation of a script, by rank and thread.
fn first_call<const W: usize>(world: &World<W>, scripts: &Scripts) -> Option<Choice>
    requires ranks { scripts.now.ranks ≡ world.now.setting.ranks }
    ensures found { IfSome result (IsFirstOf world.now.world (IsCallOf world.now.world scripts.now)) }
    ensures none { IfNone result (NoneOf (IsCallOf world.now.world scripts.now)) }
{
    for rank in 0..world.setting().ranks {
        for thread in 0..THREADS {
            if world.idle(rank, thread) {
                if let Some(op) = next_op(scripts, rank, thread, world.calls(rank, thread)) {
                    return Some(Choice {
                        rank,
                        act: Act::Call {
                            thread,
                            op: op.copy(),
                        },
                    });
                }
            }
        }
    }
    None
}

/// The first choice in the drain's order (`mpi_protocol/specs/Order`) of those that may be made, where
/// a call is the next operation of its script. None exactly where the world is quiet: no choice but a
/// call may be made, and each thread that waits for nothing is at the end of its script.
pub fn next_choice<const W: usize>(world: &World<W>, scripts: &Scripts) -> Option<Choice>
    requires ranks { scripts.now.ranks ≡ world.now.setting.ranks }
    ensures rank { IfSome result (λ c. c.rank < world.now.setting.ranks) }
    ensures found { IfSome result (IsFirstChoice world.now.world scripts.now) }
    ensures quiet { IfNone result (IsQuiet world.now.world scripts.now) }
{
    if let Some(choice) = first_delivery(world) {
        return Some(choice);
    }
    if let Some(choice) = first_of(world, StepKind::Answer) {
        return Some(choice);
    }
    if let Some(choice) = first_of(world, StepKind::Settle) {
        return Some(choice);
    }
    if let Some(choice) = first_offer(world, true) {
        return Some(choice);
    }
    if let Some(choice) = first_offer(world, false) {
        return Some(choice);
    }
    if let Some(choice) = first_of(world, StepKind::Leave) {
        return Some(choice);
    }
    if let Some(choice) = first_of(world, StepKind::Back) {
        return Some(choice);
    }
    first_call(world, scripts)
}
