//! What the ranks of a generated job do, part by part.
ghost use Rattle.std.specs.Prelude.{◌≡◌, ◌+◌, ◌%◌, ◌≤◌, ◌<◌, ◌^◌, [], ◌∷◌, codes, pos, Some, OnOk};
ghost use Rattle.mpi_law.specs.ScriptLists.{total_of};
ghost use Rattle.pset_reg.specs.Sets.{world_name};
ghost use Rattle.job_gen.specs.Parts.{ops_in};
ghost use Rattle.job_gen.specs.Parts as spec;
ghost use Rattle.job_gen.specs.Adding.{with_ops, with_part};

use mpi_base::{Name, Op, OutOfMemory, Payload, PsetName, SrcArg, StringTag};
use mpi_law::Scripts;

/// The ranks of a generated job.
pub(crate) const RANKS: u16 = 4;

/// How many tags the messages of a generated job have.
const TAGS: u32 = 32_768;

/// A part of a generated job.
#[derive(Clone, Copy, Debug, Drop, PartialEq, Eq)]
pub(crate) enum Part {
    /// Each rank opens a session, and makes a communicator of all ranks.
    Start,
    /// Each rank duplicates the communicator, and frees the duplicate.
    Duplicate,
    /// Each rank splits the communicator, by whether its number is even, and frees what it gets.
    Split {
        /// The key of rank 0. The keys of the others follow it, and 0 follows 3.
        first: u16,
    },
    /// A rank sends a message, perhaps to itself, and it is received.
    Message {
        /// The sender.
        from: u16,
        /// The receiver.
        to: u16,
        /// The number of the round, told by the message's tag and byte.
        number: u32,
    },
    /// Each rank makes one communicator of all ranks more, and frees it.
    Create,
    /// Each rank frees the first communicator, and ends its session.
    End,
}

/// The name of the session.
fn session() -> Name
    ensures { result ≡ codes "s" }
{
    Name::new(b"s").unwrap()
}

/// The name of the group of all ranks.
fn group() -> Name
    ensures { result ≡ codes "w" }
{
    Name::new(b"w").unwrap()
}

/// The name of the communicator of all ranks.
fn whole() -> Name
    ensures { result ≡ codes "c" }
{
    Name::new(b"c").unwrap()
}

/// The name of the communicator of a round.
fn short_lived() -> Name
    ensures { result ≡ codes "d" }
{
    Name::new(b"d").unwrap()
}

/// The name of the set of all ranks.
fn world() -> PsetName
    ensures { result ≡ world_name }
{
    PsetName::new(b"mpi://WORLD").unwrap()
}

/// The tag of the first creation.
fn first_tag() -> StringTag
    ensures { result ≡ codes "gen" }
{
    StringTag::new(b"gen").unwrap()
}

/// The tag of the creations of rounds.
fn round_tag() -> StringTag
    ensures { result ≡ codes "x" }
{
    StringTag::new(b"x").unwrap()
}

/// The message of a round: one byte.
fn byte(number: u32) -> Payload
    ensures { result ≡ number % 256 ∷ [] }
{
    Payload::new(&[(number % 256) as u8]).unwrap()
}

/// The split that a rank calls: its colour is 0 where its number is even and else 1.
fn split(rank: u16, first: u16) -> Op
    ensures { result ≡ Op.Split spec.whole (Some (pos (rank % 2))) (pos ((rank + first) % RANKS)) spec.short_lived }
{
    let colour = i32::from(rank % 2);
    let key = (u32::from(rank) + u32::from(first)) % u32::from(RANKS);
    Op::Split(whole(), Some(colour), key as i32, short_lived())
}

/// Adds the send or the receive of a message, where the rank has one of them, or both.
fn add_message(
    scripts: &mut Scripts,
    rank: u16,
    from: u16,
    to: u16,
    number: u32,
) -> Result<(), OutOfMemory>
    requires rank { rank < scripts.old.ranks }
    requires room { total_of scripts.old + 2 < 2 ^ 32 }
    ensures { OnOk result (scripts.new ≡ with_ops scripts.old rank (ops_in (Part.Message from to number) rank)) }
{
    let tag = number % TAGS;
    if rank == from {
        let send = Op::Send(whole(), Some(u32::from(to)), tag, byte(number));
        scripts.push(rank, 0, send)?;
    }
    if rank == to {
        let source = SrcArg::At(u32::from(from));
        scripts.push(rank, 0, Op::Recv(whole(), source, Some(tag), 1))?;
    }
    Ok(())
}

/// Adds the operations of a rank in a part.
fn add_ops(scripts: &mut Scripts, part: Part, rank: u16) -> Result<(), OutOfMemory>
    requires rank { rank < scripts.old.ranks }
    requires room { total_of scripts.old + 3 < 2 ^ 32 }
    ensures { OnOk result (scripts.new ≡ with_ops scripts.old rank (ops_in part rank)) }
{
    match part {
        Part::Start => {
            scripts.push(rank, 0, Op::Session(session()))?;
            scripts.push(rank, 0, Op::Pset(session(), world(), group()))?;
            scripts.push(rank, 0, Op::Create(group(), first_tag(), whole()))
        }
        Part::Duplicate => {
            scripts.push(rank, 0, Op::Dup(whole(), short_lived()))?;
            scripts.push(rank, 0, Op::Free(short_lived()))
        }
        Part::Split { first } => {
            scripts.push(rank, 0, split(rank, first))?;
            scripts.push(rank, 0, Op::Free(short_lived()))
        }
        Part::Message { from, to, number } => add_message(scripts, rank, from, to, number),
        Part::Create => {
            scripts.push(rank, 0, Op::Create(group(), round_tag(), short_lived()))?;
            scripts.push(rank, 0, Op::Free(short_lived()))
        }
        Part::End => {
            scripts.push(rank, 0, Op::Free(whole()))?;
            scripts.push(rank, 0, Op::Finalize(session()))
        }
    }
}

/// Adds a part: the operations of each rank in it.
#[tactic(auto, using(crate::proofs::Totals::total_ranks, crate::proofs::Totals::same_ranks))]
pub(crate) fn add_part(scripts: &mut Scripts, part: Part) -> Result<(), OutOfMemory>
    requires ranks { scripts.old.ranks ≡ RANKS }
    requires room { total_of scripts.old + 12 < 2 ^ 32 }
    ensures { OnOk result (scripts.new ≡ with_part scripts.old part) }
{
    for rank in 0..RANKS {
        add_ops(scripts, part, rank)?;
    }
    Ok(())
}
