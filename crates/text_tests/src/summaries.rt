//! Summaries of journals, as examples.
use history_text::read_entry;
use io_edge::MemorySink;
use journal_summary::write_summary;
use mpi_base::Entry;
use std::alloc::Global;
use std::process::Abort;
use std::test::Fail;

/// Two ranks make a communicator.
const PAIR: &str = "\
0 call 0 session s => ok
0 call 0 pset s mpi://WORLD -> g => group [0,1]
0 call 0 create g \"t\" -> c
1 call 0 session s => ok
1 call 0 pset s mpi://WORLD -> g => group [0,1]
1 call 0 create g \"t\" -> c
0 deliver 1 up 0 zero from \"t\" [0,1]
0 settle from \"t\" [0,1] # ready
1 deliver 0 down 0 ready from \"t\" [0,1]
0 offer from \"t\" [0,1] # own
1 offer from \"t\" [0,1] # own
0 deliver 1 up 1 own from \"t\" [0,1]
0 settle from \"t\" [0,1] # pick ctx=1
1 deliver 0 down 1 ctx=1 from \"t\" [0,1]
0 answer 0 => comm ctx=1 rank=0 size=2
1 answer 0 => comm ctx=1 rank=1 size=2
";

/// A message overtakes what its receiver is told of the communicator.
const EARLY: &str = "\
1 deliver 0 down 1 ctx=1 from \"t\" [0,1,2]
1 answer 0 => comm ctx=1 rank=1 size=3
1 call 0 send c 2 7 abcd => ok
2 deliver 1 msg ctx=1 lane=0 number=1
2 deliver 0 down 1 ctx=1 from \"t\" [0,1,2]
2 answer 0 => comm ctx=1 rank=2 size=3
2 call 0 recv c 1 7 16 # match 1 1.1
2 answer 0 => recv src=1 tag=7 len=2 abcd
";

/// One member does not own its mask.
const RETRY: &str = "\
1 deliver 2 up 0 zero from \"t\" [1,2]
1 settle from \"t\" [1,2] # ready
1 offer from \"t\" [1,2] # own
0 deliver 1 up 0 zero from \"t\" [0,1]
0 settle from \"t\" [0,1] # ready
0 offer from \"t\" [0,1] # own
1 deliver 0 down 0 ready from \"t\" [0,1]
1 offer from \"t\" [0,1] # zero
0 deliver 1 up 1 zero from \"t\" [0,1]
0 settle from \"t\" [0,1] # retry
";

/// Lines of other journals.
const OTHERS: &str = "\
0 settle dup 1 0 [0,1] # pick exhausted
0 call 0 recv c 0 4 2 # match 1 0.1
0 answer 0 => err MPI_ERR_TRUNCATE
0 back 1 # drop 1
1 back 1 # drop 0
";

/// The entries of a journal.
fn entries(rt: &(impl Abort + Alloc<A = Global>), journal: &str) -> Result<Vec<Entry>, Fail> {
    let mut entries = Vec::new(rt.alloc());
    for line in journal.lines() {
        entries.push(read_entry(line.as_bytes()).expect(rt, "an entry"))?;
    }
    Ok(entries)
}

#[test]
fn journals_are_summed_up(rt: HostRuntime) -> Result<(), Fail> {
    for (journal, text) in [
        (
            PAIR,
            "ops=6 steps=16 picks=1 exhausted=0 matches=0 retries=0 dropped=0\n",
        ),
        (
            EARLY,
            "ops=2 steps=8 picks=0 exhausted=0 matches=1 retries=0 dropped=0\n",
        ),
        (
            RETRY,
            "ops=0 steps=10 picks=0 exhausted=0 matches=0 retries=1 dropped=0\n",
        ),
        (
            OTHERS,
            "ops=1 steps=5 picks=0 exhausted=1 matches=1 retries=0 dropped=1\n",
        ),
        (
            "",
            "ops=0 steps=0 picks=0 exhausted=0 matches=0 retries=0 dropped=0\n",
        ),
    ] {
        let entries = entries(&rt, journal)?;
        let mut sink = MemorySink::new(rt.alloc(), 1_000, Vec::new(rt.alloc()));
        sink.reserve(1_000)?;
        assert!(rt; write_summary(&mut sink, entries.as_slice()).is_ok());
        assert_eq!(rt; sink.bytes(), text.as_bytes());
    }
    Ok(())
}
