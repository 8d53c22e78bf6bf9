//! Sessions of the program, as examples.
ghost use Rattle.std.specs.Prelude.{◌≡◌, ◌≤◌};

use crate::session::{Done, mpisess_calm};
use crate::status::Status;
use history_text::{Line, read_entry, write_entry};
use io_edge::{MemorySink, MemorySource, Source, SureSink, SureSource};
use job_file::read_job;
use job_law::sets_of_jobs_are_of_ranks;
use journal_summary::Summary;
use mpi_base::Choice;
use std::alloc::Global;
use std::process::Abort;
use std::test::Fail;
use stuck_report::Stuck;
use world_core::World;
use world_drain::drain;

const SCRIPT: &[u8] = b"session s\npset s mpi://SELF -> g\ncreate g \"a\" -> c\n";

/// The words of the command line of a generated job.
fn gen_words(alloc: Global, number: &str, ops: &str) -> Result<Vec<String>, Fail> {
    let mut words = Vec::new(alloc);
    for word in ["gen", number, ops] {
        words.push(word.to_string(alloc)?)?;
    }
    Ok(words)
}

/// The one word of the command line.
fn words(alloc: Global, word: &str) -> Result<Vec<String>, Fail> {
    let mut words = Vec::new(alloc);
    words.push(word.to_string(alloc)?)?;
    Ok(words)
}

/// A sink in memory with ample room, of which one call may fail.
fn sink(alloc: Global, piece: usize, fails: Option<u64>) -> Result<MemorySink, Fail>
    requires { 1 ≤ piece }
{
    let mut failing = Vec::new(alloc);
    if let Some(number) = fails {
        failing.push(number)?;
    }
    let mut sink = MemorySink::new(alloc, piece, failing);
    sink.reserve(100_000)?;
    Ok(sink)
}

/// A session with this input, of which so many bytes come at once, and this sink.
fn solo(alloc: Global, input: &[u8], piece: usize, sink: &mut MemorySink) -> Result<Done, Fail>
    requires { 1 ≤ piece }
{
    let mut source = SureSource::new(input.to_vec(alloc)?, piece);
    Ok(mpisess_calm(alloc, &words(alloc, "solo")?, &mut source, sink))
}

/// A session with this job, and this sink.
fn serial(alloc: Global, job: &[u8], sink: &mut MemorySink) -> Result<Done, Fail> {
    let mut source = SureSource::new(job.to_vec(alloc)?, 1_000);
    Ok(mpisess_calm(alloc, &words(alloc, "serial")?, &mut source, sink))
}

#[test]
fn a_creation_and_a_duplicate_find_no_context_where_63_are_taken(
    rt: HostRuntime,
) -> Result<(), Fail> {
    let alloc = rt.alloc();
    let mut script = format!(in alloc; "session s\npset s mpi://SELF -> g\n")?;
    let mut journal = format!(in alloc;
        "0 call 0 session s => ok\n0 call 0 pset s mpi://SELF -> g => group [0]\n"
    )?;
    for number in 1..=63 {
        script.push_str(format!(in alloc; "create g \"a\" -> c{number}\n")?.as_str())?;
        journal.push_str(format!(in alloc;
            "0 call 0 create g \"a\" -> c{number}\n0 settle from \"a\" [0] # ready\n0 offer from \"a\" [0] # own\n0 settle from \"a\" [0] # pick ctx={number}\n0 answer 0 => comm ctx={number} rank=0 size=1\n"
        )?.as_str())?;
    }
    script.push_str("create g \"a\" -> c64\ndup c1 -> d\n")?;
    journal.push_str(
        "\
0 call 0 create g \"a\" -> c64
0 settle from \"a\" [0] # ready
0 offer from \"a\" [0] # own
0 settle from \"a\" [0] # pick exhausted
0 answer 0 => err EXHAUSTED
0 call 0 dup c1 -> d
0 settle dup 1 0 [0] # ready
0 offer dup 1 0 [0] # own
0 settle dup 1 0 [0] # pick exhausted
0 answer 0 => err EXHAUSTED
",
    )?;
    let mut sink = sink(alloc, 1_000, None)?;
    let done = solo(alloc, script.as_bytes(), 1_000, &mut sink)?;
    assert_eq!(rt; done.status, Status::Fine);
    assert_eq!(rt; sink.bytes(), journal.as_bytes());
    Ok(())
}

#[test]
fn a_longer_input_is_cut_and_too_long(rt: HostRuntime) -> Result<(), Fail> {
    let alloc = rt.alloc();
    let mut source = SureSource::new(vec![in alloc; b'\n'; 4_194_313]?, 4_000);
    let done = mpisess_calm(
        alloc,
        &words(alloc, "solo")?,
        &mut source,
        &mut SureSink::new(),
    );
    assert_eq!(rt; done.status, Status::TooLong);
    assert_eq!(rt; source.read(&mut [0; 9]), Ok(8));
    Ok(())
}

#[test]
fn a_source_that_fails_at_its_second_read_gives_nothing(rt: HostRuntime) -> Result<(), Fail> {
    let alloc = rt.alloc();
    let mut source = MemorySource::new(SCRIPT.to_vec(alloc)?, 4, vec![in alloc; 2]?);
    let mut sink = sink(alloc, 7, None)?;
    let done = mpisess_calm(alloc, &words(alloc, "solo")?, &mut source, &mut sink);
    assert_eq!(rt; done.status, Status::ReadFault);
    assert_eq!(rt; source.fault_count(), 1);
    assert_eq!(rt; sink.bytes(), b"".as_slice());
    Ok(())
}

#[test]
fn a_sink_that_fails_at_its_second_write_has_a_front(rt: HostRuntime) -> Result<(), Fail> {
    let mut sink = sink(rt.alloc(), 7, Some(2))?;
    let done = solo(rt.alloc(), SCRIPT, 4, &mut sink)?;
    assert_eq!(rt; done.status, Status::WriteFault);
    assert_eq!(rt; done.journal.len(), 7);
    assert_eq!(rt; sink.bytes(), b"0 call ".as_slice());
    assert_eq!(rt; sink.fault_count(), 1);
    Ok(())
}

const REFUSALS: &[u8] = b"\
session s
session t
pset s mpi://SELF -> g
pset t mpi://SELF -> h
union g h -> u
psets s
nth s 1
nth s 2
info s mpi://WORLD
pset s mpi://SELF -> g
difference g g -> n
create n \"a\" -> c
free g
dup x -> y
";

const REFUSALS_JOURNAL: &[u8] = b"\
0 call 0 session s => ok
0 call 0 session t => ok
0 call 0 pset s mpi://SELF -> g => group [0]
0 call 0 pset t mpi://SELF -> h => group [0]
0 call 0 union g h -> u => err MPI_ERR_SESSION
0 call 0 psets s => psets 2
0 call 0 nth s 1 => name mpi://SELF
0 call 0 nth s 2 => err MPI_ERR_ARG
0 call 0 info s mpi://WORLD => info mpi_size=1
0 call 0 pset s mpi://SELF -> g => err MPI_ERR_ARG
0 call 0 difference g g -> n => group []
0 call 0 create n \"a\" -> c => null
0 call 0 free g => err MPI_ERR_COMM
0 call 0 dup x -> y => err MPI_ERR_COMM
";

#[test]
fn refusals_are_the_same_in_any_pieces(rt: HostRuntime) -> Result<(), Fail> {
    for piece in [1, 7, 4_096] {
        let mut sink = sink(rt.alloc(), 7, None)?;
        let done = solo(rt.alloc(), REFUSALS, piece, &mut sink)?;
        assert_eq!(rt; done.status, Status::Fine);
        assert_eq!(rt; sink.bytes(), REFUSALS_JOURNAL);
    }
    Ok(())
}

const AGREED: &[u8] = b"\
0 call 0 session s => ok
0 call 0 pset s mpi://WORLD -> g => group [0,1]
0 call 0 create g \"t\" -> c
1 call 0 session s => ok
1 call 0 pset s mpi://WORLD -> g => group [0,1]
1 call 0 create g \"t\" -> c
0 deliver 1 up 0 zero from \"t\" [0,1]
0 settle from \"t\" [0,1] # ready
1 deliver 0 down 0 ready from \"t\" [0,1]
0 offer from \"t\" [0,1] # own
1 offer from \"t\" [0,1] # own
0 deliver 1 up 1 own from \"t\" [0,1]
0 settle from \"t\" [0,1] # pick ctx=1
1 deliver 0 down 1 ctx=1 from \"t\" [0,1]
0 answer 0 => comm ctx=1 rank=0 size=2
1 answer 0 => comm ctx=1 rank=1 size=2
";

const EXHAUSTED: &[u8] = b"\
0 call 0 dup c -> d
1 call 0 dup c -> d
0 deliver 1 up 0 zero dup 1 0 [0,1]
0 settle dup 1 0 [0,1] # ready
1 deliver 0 down 0 ready dup 1 0 [0,1]
0 offer dup 1 0 [0,1] # own
1 offer dup 1 0 [0,1] # own
0 deliver 1 up 1 own dup 1 0 [0,1]
0 settle dup 1 0 [0,1] # pick exhausted
1 deliver 0 down 1 exhausted dup 1 0 [0,1]
0 answer 0 => err EXHAUSTED
1 answer 0 => err EXHAUSTED
";

#[test]
fn two_ranks_agree_and_find_no_second_context(rt: HostRuntime) -> Result<(), Fail> {
    let mut sink = sink(rt.alloc(), 1_000, None)?;
    let job = b"\
format = 1
ranks = 2
contexts = 1
[scripts]
'0.0' = \"session s\\npset s mpi://WORLD -> g\\ncreate g \\\"t\\\" -> c\\ndup c -> d\"
'1.0' = \"session s\\npset s mpi://WORLD -> g\\ncreate g \\\"t\\\" -> c\\ndup c -> d\"
";
    let done = serial(rt.alloc(), job, &mut sink)?;
    assert_eq!(rt; done.status, Status::Fine);
    let (agreed, exhausted) = sink.bytes().split_at(AGREED.len().min(sink.bytes().len()));
    assert_eq!(rt; agreed, AGREED);
    assert_eq!(rt; exhausted, EXHAUSTED);
    Ok(())
}

const APART: &[u8] = b"\
0 call 0 session s => ok
0 call 0 pset s mpi://WORLD -> g => group [0,1]
0 call 0 create g \"t\" -> c
1 call 0 session s => ok
1 call 0 pset s mpi://WORLD -> g => group [0,1]
1 call 0 create g \"u\" -> c
0 deliver 1 up 0 zero from \"u\" [0,1]
";

const WAITING: &str = "\
mpisess: rank 0, thread 0 waits in \"create g \"t\" -> c\"; rank 1 has not called it
mpisess: rank 1, thread 0 waits in \"create g \"u\" -> c\"; rank 0 has not called it";

#[test]
fn two_ranks_with_unlike_tags_wait(rt: HostRuntime) -> Result<(), Fail> {
    let mut sink = sink(rt.alloc(), 1_000, None)?;
    let job = b"\
format = 1
ranks = 2
[scripts]
'0.0' = \"session s\\npset s mpi://WORLD -> g\\ncreate g \\\"t\\\" -> c\"
'1.0' = \"session s\\npset s mpi://WORLD -> g\\ncreate g \\\"u\\\" -> c\"
";
    let done = serial(rt.alloc(), job, &mut sink)?;
    assert_eq!(rt; done.status, Status::Stuck);
    assert_eq!(rt; sink.bytes(), APART);
    let waiting = format!(in rt.alloc(); "{}", Stuck::at_end(done.journal.as_slice()))?;
    assert_eq!(rt; waiting.as_str(), WAITING);
    Ok(())
}

/// The choice of a line.
fn choice_of(rt: &impl Abort, line: &str) -> Choice {
    let entry = read_entry(line.as_bytes()).expect(rt, "a line of a journal");
    entry.choice
}

/// Makes the choices of these lines; what each gives is the line.
fn drive(rt: &impl Abort, world: &mut World<1>, lines: &[&str]) -> Result<(), Fail>
    ensures { world.new.setting ≡ world.old.setting }
{
    for line in lines {
        let choice = choice_of(rt, line);
        assert!(rt; choice.rank < world.setting().ranks, "{line}");
        assert!(rt; world.enabled(&choice), "{line}");
        world.reserve_step(choice.rank)?;
        world.step(choice);
        let entry = world.journal().as_slice().last().expect(rt, "an entry");
        let mut text = Line::new();
        write_entry(entry, &mut text);
        assert_eq!(rt; text.as_slice(), line.as_bytes());
    }
    Ok(())
}

/// Whether a line is one of the journal.
fn has_line(world: &World<1>, line: &str) -> bool {
    for entry in world.journal().as_slice() {
        let mut text = Line::new();
        write_entry(entry, &mut text);
        if text.as_slice() == line.as_bytes() {
            return true;
        }
    }
    false
}

const TWO_CALL: [&str; 6] = [
    "0 call 0 session s => ok",
    "0 call 0 pset s mpi://WORLD -> g => group [0,1]",
    "0 call 0 create g \"t\" -> c",
    "1 call 0 session s => ok",
    "1 call 0 pset s mpi://WORLD -> g => group [0,1]",
    "1 call 0 create g \"t\" -> c",
];

#[test]
fn no_round_is_decided_before_all_packets_are_there(rt: HostRuntime) -> Result<(), Fail> {
    let job = read_job(rt.alloc(), b"format = 1\nranks = 2").expect(&rt, "a job");
    let mut world = World::<1>::start(rt.alloc(), job.setting)?;
    drive(&rt, &mut world, &TWO_CALL)?;
    let settle = choice_of(&rt, "0 settle from \"t\" [0,1] # ready");
    let deliver = choice_of(&rt, "0 deliver 1 up 0 zero from \"t\" [0,1]");
    assert!(rt; !world.enabled(&settle));
    assert!(rt; world.enabled(&deliver));
    Ok(())
}

const EARLY_MESSAGE: [&str; 28] = [
    "0 call 0 session s => ok",
    "0 call 0 pset s mpi://WORLD -> g => group [0,1,2]",
    "0 call 0 create g \"t\" -> c",
    "1 call 0 session s => ok",
    "1 call 0 pset s mpi://WORLD -> g => group [0,1,2]",
    "1 call 0 create g \"t\" -> c",
    "2 call 0 session s => ok",
    "2 call 0 pset s mpi://WORLD -> g => group [0,1,2]",
    "2 call 0 create g \"t\" -> c",
    "0 deliver 1 up 0 zero from \"t\" [0,1,2]",
    "0 deliver 2 up 0 zero from \"t\" [0,1,2]",
    "0 settle from \"t\" [0,1,2] # ready",
    "1 deliver 0 down 0 ready from \"t\" [0,1,2]",
    "2 deliver 0 down 0 ready from \"t\" [0,1,2]",
    "0 offer from \"t\" [0,1,2] # own",
    "1 offer from \"t\" [0,1,2] # own",
    "2 offer from \"t\" [0,1,2] # own",
    "0 deliver 1 up 1 own from \"t\" [0,1,2]",
    "0 deliver 2 up 1 own from \"t\" [0,1,2]",
    "0 settle from \"t\" [0,1,2] # pick ctx=1",
    "1 deliver 0 down 1 ctx=1 from \"t\" [0,1,2]",
    "1 answer 0 => comm ctx=1 rank=1 size=3",
    "1 call 0 send c 2 7 abcd => ok",
    "2 deliver 1 msg ctx=1 lane=0 number=1",
    "2 deliver 0 down 1 ctx=1 from \"t\" [0,1,2]",
    "2 answer 0 => comm ctx=1 rank=2 size=3",
    "2 call 0 recv c 1 7 16 # match 1 1.1",
    "2 answer 0 => recv src=1 tag=7 len=2 abcd",
];

#[test]
fn a_message_may_come_before_its_communicator(rt: HostRuntime) -> Result<(), Fail> {
    let job = read_job(rt.alloc(), b"format = 1\nranks = 3").expect(&rt, "a job");
    let mut world = World::<1>::start(rt.alloc(), job.setting)?;
    drive(&rt, &mut world, &EARLY_MESSAGE)
}

const OVERLAPPING: &[u8] = b"\
format = 1
ranks = 3
[psets]
'app://a' = [0, 1]
'app://b' = [1, 2]
[scripts]
'0.0' = \"session s\\npset s app://a -> g\\ncreate g \\\"t\\\" -> x\"
'1.0' = \"session s\\npset s app://a -> g\\ncreate g \\\"t\\\" -> x\"
'1.1' = \"pset s app://b -> h\\ncreate h \\\"t\\\" -> y\"
'2.0' = \"session s\\npset s app://b -> h\\ncreate h \\\"t\\\" -> y\"
";

const RETRY: [&str; 21] = [
    "0 call 0 session s => ok",
    "0 call 0 pset s app://a -> g => group [0,1]",
    "0 call 0 create g \"t\" -> x",
    "1 call 0 session s => ok",
    "1 call 0 pset s app://a -> g => group [0,1]",
    "1 call 0 create g \"t\" -> x",
    "1 call 1 pset s app://b -> h => group [1,2]",
    "1 call 1 create h \"t\" -> y",
    "2 call 0 session s => ok",
    "2 call 0 pset s app://b -> h => group [1,2]",
    "2 call 0 create h \"t\" -> y",
    "1 deliver 2 up 0 zero from \"t\" [1,2]",
    "1 settle from \"t\" [1,2] # ready",
    "1 offer from \"t\" [1,2] # own",
    "0 deliver 1 up 0 zero from \"t\" [0,1]",
    "0 settle from \"t\" [0,1] # ready",
    "0 offer from \"t\" [0,1] # own",
    "1 deliver 0 down 0 ready from \"t\" [0,1]",
    "1 offer from \"t\" [0,1] # zero",
    "0 deliver 1 up 1 zero from \"t\" [0,1]",
    "0 settle from \"t\" [0,1] # retry",
];

const RETRIED: [&str; 4] = [
    "1 answer 1 => comm ctx=1 rank=0 size=2",
    "2 answer 0 => comm ctx=1 rank=1 size=2",
    "0 answer 0 => comm ctx=2 rank=0 size=2",
    "1 answer 0 => comm ctx=2 rank=1 size=2",
];

#[test]
fn a_creation_whose_rank_is_taken_tries_again(rt: HostRuntime) -> Result<(), Fail> {
    sets_of_jobs_are_of_ranks();
    let job = read_job(rt.alloc(), OVERLAPPING).expect(&rt, "a job");
    let mut world = World::<1>::start(rt.alloc(), job.setting)?;
    drive(&rt, &mut world, &RETRY)?;
    drain(&mut world, &job.scripts)?;
    for line in &RETRIED {
        assert!(rt; has_line(&world, line), "{line}");
    }
    Ok(())
}

#[test]
fn generated_jobs_give_their_summaries(rt: HostRuntime) -> Result<(), Fail> {
    let alloc = rt.alloc();
    let bare = "ops=20 steps=70 picks=1 exhausted=0 matches=0 retries=0 dropped=0\n";
    let message = "ops=22 steps=74 picks=1 exhausted=0 matches=1 retries=0 dropped=0\n";
    for (ops, status, text) in [
        ("19", Status::Usage, ""),
        ("20", Status::Fine, bare),
        ("27", Status::Fine, bare),
        ("28", Status::Fine, message),
        ("29", Status::Fine, message),
    ] {
        let mut source = SureSource::new(b"unread".to_vec(alloc)?, 9);
        let mut sink = sink(alloc, 7, None)?;
        let done = mpisess_calm(alloc, &gen_words(alloc, "1", ops)?, &mut source, &mut sink);
        assert_eq!(rt; done.status, status);
        assert_eq!(rt; sink.bytes(), text.as_bytes());
        assert_eq!(rt; source.read(&mut [0; 9]), Ok(6));
    }
    Ok(())
}

#[test]
fn a_large_generated_job_ends_with_one_summary(rt: HostRuntime) -> Result<(), Fail> {
    let alloc = rt.alloc();
    let words = gen_words(alloc, "2", "4000")?;
    let mut source = SureSource::new(Vec::new(alloc), 1);
    let mut first = sink(alloc, 1_000, None)?;
    let done = mpisess_calm(alloc, &words, &mut source, &mut first);
    assert_eq!(rt; done.status, Status::Fine);
    let ops = Summary::of(done.journal.as_slice()).ops;
    assert!(rt; (3_994..=4_000).contains(&ops) && ops % 2 == 0, "{ops}");
    let mut second = sink(alloc, 1_000, None)?;
    let again = mpisess_calm(alloc, &words, &mut source, &mut second);
    assert_eq!(rt; again.status, Status::Fine);
    assert_eq!(rt; first.bytes(), second.bytes());
    Ok(())
}
