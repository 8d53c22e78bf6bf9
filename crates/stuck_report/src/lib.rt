//! Who waits for what at the end of a run, in words for a person.
#![tactic(auto)]

ghost use Rattle.std.specs.Prelude.{◌≡◌, reverse};
ghost use Rattle.std.specs.Option.{option_copied};
ghost use Rattle.stuck_report.specs.Waits.{is_entry_of, last_of, open_call, thread_in, waits_in};
ghost use Rattle.stuck_report.specs.Missing.{before_last, bound_by, creation_group, group_target, group_told, has_called, is_alike, is_binding, is_calling, last_bound, members_waited, missing, name_bound, not_calling};
ghost use Rattle.stuck_report.specs.Places.{before_place, entry_at, is_in_table, noted, slot_of};

use mpi_base::{Act, Entry, MOST_RANKS, Members, Name, Op, Reply};
use mpi_law::THREADS;
use script_text::{Line, write_op};
use std::marker::Model;
use std::{fmt, str};

/// How many threads a world has at most.
const MOST_THREADS: usize = MOST_RANKS as usize * THREADS as usize;

/// The most threads that are told one by one.
const MOST_TOLD: usize = 20;

/// Who waits for what at the end of a journal, in words: a line for each thread whose last call has no
/// reply, by rank and thread, at most 20, and then how many more there are.
///
/// Of a creation from a group it also tells which members have not called it, where the journal tells
/// the members: those without a thread that waits in a call of the same operation, with the same tag and
/// the same members.
#[derive(Drop)]
pub struct Stuck<'a> {
    entries: &'a [Entry],
    /// The place of the last entry of each thread, at `THREADS` times its rank and its own number.
    places: [Option<usize>; MOST_THREADS],
}

impl<'a> Model for Stuck<'a> {
    ghost use Rattle.std.specs.Prelude.{List};
    ghost use Rattle.mpi_base.specs.declared.entries.Entry.{Entry};
    ghost use Rattle.stuck_report.specs.Places.{TellsLast};

    ghost Value = { List Entry };

    ghost view = { λ s. s.entries.now };

    ghost invariant = { λ s. TellsLast s.places s.entries.now s.entries.now };
}

/// The thread that calls or is answered.
fn thread_of(act: &Act) -> Option<u8>
    ensures { result ≡ thread_in act.now }
{
    match act {
        Act::Call { thread, .. } | Act::Answer { thread } => Some(*thread),
        Act::Deliver { .. }
        | Act::Offer { .. }
        | Act::Settle { .. }
        | Act::Leave { .. }
        | Act::Back { .. } => None,
    }
}

/// Whether an entry is a call or an answer of a thread of a rank.
fn is_of(entry: &Entry, rank: u16, thread: u8) -> bool
    ensures { result ≡ is_entry_of rank thread entry.now }
{
    entry.choice.rank == rank && thread_of(&entry.choice.act) == Some(thread)
}

/// The operation of a call without a reply.
fn unanswered(entry: &Entry) -> Option<&Op>
    ensures { option_copied result ≡ open_call entry.now }
{
    match (&entry.choice.act, &entry.reply) {
        (Act::Call { op, .. }, None) => Some(op),
        _ => None,
    }
}

/// Whether a thread has a place in the table.
fn has_slot(rank: u16, thread: u8) -> bool
    ensures { result ≡ is_in_table rank thread }
{
    rank < MOST_RANKS && thread < THREADS
}

/// The place of a thread in the table.
fn slot(rank: u16, thread: u8) -> usize
    ensures { result ≡ slot_of rank thread }
{
    THREADS as usize * rank as usize + thread as usize
}

/// The place of the last entry of a thread.
fn last_place(entries: &[Entry], rank: u16, thread: u8) -> Option<usize>
    ensures entry { entry_at entries.now result ≡ last_of entries.now rank thread }
    ensures before { before_place entries.now result ≡ before_last entries.now rank thread }
{
    let mut last = None;
    for (place, entry) in entries.iter().enumerate() {
        if is_of(entry, rank, thread) {
            last = Some(place);
        }
    }
    last
}

/// Notes where the last entry of a thread stands.
fn note(places: &mut [Option<usize>; MOST_THREADS], place: usize, entry: &Entry)
    ensures { places.new ≡ noted places.old place entry.now }
{
    if let Some(thread) = thread_of(&entry.choice.act) {
        if has_slot(entry.choice.rank, thread) {
            places[slot(entry.choice.rank, thread)] = Some(place);
        }
    }
}

/// The name that an operation binds to a group.
fn group_target(op: &Op) -> Option<&Name>
    ensures { option_copied result ≡ group_target op.now }
{
    match op {
        Op::Pset(_, _, target)
        | Op::Union(_, _, target)
        | Op::Intersect(_, _, target)
        | Op::Difference(_, _, target)
        | Op::Incl(_, _, target)
        | Op::Excl(_, _, target)
        | Op::RangeIncl(_, _, target)
        | Op::RangeExcl(_, _, target)
        | Op::Group(_, target) => Some(target),
        _ => None,
    }
}

/// The name that a step binds to a group.
fn name_bound(act: &Act) -> Option<&Name>
    ensures { option_copied result ≡ name_bound act.now }
{
    match act {
        Act::Call { op, .. } => group_target(op),
        _ => None,
    }
}

/// The members of the group that a reply tells.
fn group_told(reply: &Option<Reply>) -> Option<Members>
    ensures { result ≡ group_told reply.now }
{
    match reply {
        Some(Reply::Group(members)) => Some(members.copy()),
        _ => None,
    }
}

/// Whether an entry is a call at a rank that binds a name to a group, where it is not refused.
fn is_binding(entry: &Entry, rank: u16, name: &Name) -> bool
    ensures { result ≡ is_binding rank name.now entry.now }
{
    if entry.choice.rank != rank {
        return false;
    }
    match name_bound(&entry.choice.act) {
        Some(bound) => name == bound,
        None => false,
    }
}

/// The members of the group that an entry binds to a name at a rank.
fn bound_by(entry: &Entry, rank: u16, name: &Name) -> Option<Members>
    ensures { result ≡ bound_by rank name.now entry.now }
{
    if is_binding(entry, rank, name) {
        group_told(&entry.reply)
    } else {
        None
    }
}

/// The members of the group that was bound last to a name at a rank.
fn last_bound(entries: &[Entry], rank: u16, name: &Name) -> Option<Members>
    ensures { result ≡ last_bound (reverse entries.now) rank name.now }
{
    let mut last = None;
    for entry in entries {
        if let Some(members) = bound_by(entry, rank, name) {
            last = Some(members);
        }
    }
    last
}

/// The group from which an operation makes a communicator.
fn creation_group(op: &Op) -> Option<&Name>
    ensures { option_copied result ≡ creation_group op.now }
{
    match op {
        Op::Create(group, _, _) | Op::CreateGroup(_, group, _, _) => Some(group),
        _ => None,
    }
}

/// Whether both operations are creations of one kind with one tag.
fn is_alike(first: &Op, second: &Op) -> bool
    ensures { result ≡ is_alike first.now second.now }
{
    match (first, second) {
        (Op::Create(_, a, _), Op::Create(_, b, _)) => a == b,
        (Op::CreateGroup(_, _, a, _), Op::CreateGroup(_, _, b, _)) => a == b,
        _ => false,
    }
}

impl<'a> Stuck<'a> {
    /// Who waits at the end of a journal.
    pub fn at_end(entries: &'a [Entry]) -> Stuck<'a>
        ensures { result ≡ entries.now }
    {
        let mut places = [None; MOST_THREADS];
        for (place, entry) in entries.iter().enumerate() {
            note(&mut places, place, entry);
        }
        Stuck { entries, places }
    }

    /// The place of the last entry of a thread.
    fn place(&self, rank: u16, thread: u8) -> Option<usize>
        ensures entry { entry_at self.now result ≡ last_of self.now rank thread }
        ensures before { before_place self.now result ≡ before_last self.now rank thread }
    {
        if has_slot(rank, thread) {
            self.places[slot(rank, thread)]
        } else {
            last_place(self.entries, rank, thread)
        }
    }

    /// The last entry of a thread.
    fn last_of(&self, rank: u16, thread: u8) -> Option<&'a Entry>
        ensures { option_copied result ≡ last_of self.now rank thread }
    {
        self.entries.get(self.place(rank, thread)?)
    }

    /// The operation in which a thread waits: that of its last entry, where this is a call without a reply.
    pub fn waits_in(&self, rank: u16, thread: u8) -> Option<&'a Op>
        ensures { option_copied result ≡ waits_in self.now rank thread }
    {
        unanswered(self.last_of(rank, thread)?)
    }

    /// The entries before the last one of a thread.
    fn before_last(&self, rank: u16, thread: u8) -> &'a [Entry]
        ensures { reverse result.now ≡ before_last self.now rank thread }
    {
        match self.place(rank, thread) {
            Some(place) => match self.entries.split_at_checked(place) {
                Some((before, _)) => before,
                None => self.entries,
            },
            None => &[],
        }
    }

    /// The members of the creation from a group in which a thread waits, where the journal tells them.
    fn members_waited(&self, rank: u16, thread: u8) -> Option<Members>
        ensures { result ≡ members_waited self.now rank thread }
    {
        let group = creation_group(self.waits_in(rank, thread)?)?;
        last_bound(self.before_last(rank, thread), rank, group)
    }

    /// Whether a thread waits in a creation like this one, with the same members.
    fn is_calling(&self, op: &Op, members: &Members, rank: u16, thread: u8) -> bool
        ensures { result ≡ is_calling self.now op.now members.now rank thread }
    {
        let Some(called) = self.waits_in(rank, thread) else {
            return false;
        };
        if !is_alike(op, called) {
            return false;
        }
        match self.members_waited(rank, thread) {
            Some(others) => *members == others,
            None => false,
        }
    }

    /// Whether a thread of a rank waits in a creation like this one, with the same members.
    fn has_called(&self, op: &Op, members: &Members, rank: u16) -> bool
        ensures { result ≡ has_called self.now op.now members.now rank }
    {
        (0..THREADS).any(
            |thread| -> bool
                ensures { result ≡ is_calling self.entry.now op.entry.now members.entry.now rank thread }
            { self.is_calling(op, members, rank, thread) },
        )
    }

    /// The members of a creation that have not called it.
    fn not_calling(&self, op: &Op, members: &Members) -> Members
        ensures { result ≡ not_calling self.now op.now members.now }
    {
        let mut missing = Members::none();
        for place in 0..members.len() {
            if let Some(rank) = members.get(place) {
                if !self.has_called(op, members, rank) {
                    missing.push(rank);
                }
            }
        }
        missing
    }

    /// The members that have not called the creation in which a thread waits. None where it waits in no
    /// creation from a group, or where the journal does not tell the members.
    pub fn missing(&self, rank: u16, thread: u8) -> Option<Members>
        ensures { result ≡ missing self.now rank thread }
    {
        let op = self.waits_in(rank, thread)?;
        let members = self.members_waited(rank, thread)?;
        Some(self.not_calling(op, &members))
    }

    /// Writes what a thread waits in.
    fn write_thread<W: fmt::Write>(
        &self,
        f: &mut fmt::Formatter<W>,
        rank: u16,
        thread: u8,
        op: &Op,
    ) -> fmt::Result {
        let mut line = Line::new();
        write_op(op, &mut line);
        let text = str::from_utf8(line.as_slice()).unwrap_or("");
        write!(
            f,
            "mpisess: rank {rank}, thread {thread} waits in \"{text}\""
        )?;
        match self.missing(rank, thread) {
            Some(missing) => write_missing(f, &missing),
            None => Ok(()),
        }
    }
}

/// Writes which members have not called a creation.
fn write_missing<W: fmt::Write>(f: &mut fmt::Formatter<W>, missing: &Members) -> fmt::Result {
    let Some(first) = missing.get(0) else {
        return Ok(());
    };
    if missing.len() == 1 {
        return write!(f, "; rank {first} has not called it");
    }
    write!(f, "; ranks {first}")?;
    for place in 1..missing.len() {
        if let Some(rank) = missing.get(place) {
            write!(f, ", {rank}")?;
        }
    }
    f.write_str(" have not called it")
}

impl<'a> fmt::Display for Stuck<'a> {
    /// Writes the lines, with a line feed between two.
    fn fmt<W: fmt::Write>(&self, f: &mut fmt::Formatter<W>) -> fmt::Result {
        let mut count: usize = 0;
        for rank in 0..MOST_RANKS {
            for thread in 0..THREADS {
                if let Some(op) = self.waits_in(rank, thread) {
                    if count < MOST_TOLD {
                        f.write_str(if count == 0 { "" } else { "\n" })?;
                        self.write_thread(f, rank, thread, op)?;
                    }
                    count = count.saturating_add(1);
                }
            }
        }
        if count > MOST_TOLD {
            let more = count - MOST_TOLD;
            write!(f, "\nmpisess: and {more} more")?;
        }
        Ok(())
    }
}
