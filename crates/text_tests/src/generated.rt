//! Jobs from numbers, as examples.
use job_gen::{generate, read_words};
use script_text::{Line, write_op};
use std::alloc::Global;
use std::test::Fail;

/// Four ranks make a communicator, and end.
const BARE: &[u8] = b"\
0 session s
0 pset s mpi://WORLD -> w
0 create w \"gen\" -> c
0 free c
0 finalize s
1 session s
1 pset s mpi://WORLD -> w
1 create w \"gen\" -> c
1 free c
1 finalize s
2 session s
2 pset s mpi://WORLD -> w
2 create w \"gen\" -> c
2 free c
2 finalize s
3 session s
3 pset s mpi://WORLD -> w
3 create w \"gen\" -> c
3 free c
3 finalize s
";

/// In between rank 1 sends rank 0 a message.
const MESSAGE: &[u8] = b"\
0 session s
0 pset s mpi://WORLD -> w
0 create w \"gen\" -> c
0 recv c 1 0 1
0 free c
0 finalize s
1 session s
1 pset s mpi://WORLD -> w
1 create w \"gen\" -> c
1 send c 0 0 00
1 free c
1 finalize s
2 session s
2 pset s mpi://WORLD -> w
2 create w \"gen\" -> c
2 free c
2 finalize s
3 session s
3 pset s mpi://WORLD -> w
3 create w \"gen\" -> c
3 free c
3 finalize s
";

/// The scripts of the job that two words tell: a line for each operation, behind its rank.
fn told(alloc: Global, number: &str, ops: &str) -> Result<Vec<u8>, Fail> {
    let mut text = Vec::new(alloc);
    let Some((number, ops)) = read_words(number, ops) else {
        text.extend_from_slice(b"nothing")?;
        return Ok(text);
    };
    let (setting, scripts) = generate(alloc, number, ops)?;
    for rank in 0..setting.ranks {
        for thread in 0..8 {
            for place in 0..scripts.len(rank, thread) {
                text.extend_from_slice(format!(in alloc; "{rank} ")?.as_bytes())?;
                let mut line = Line::new();
                write_op(scripts.op(rank, thread, place), &mut line);
                text.extend_from_slice(line.as_slice())?;
                text.push(b'\n')?;
            }
        }
    }
    Ok(text)
}

#[test]
fn words_tell_their_jobs(rt: HostRuntime) -> Result<(), Fail> {
    for (number, ops, text) in [
        ("1", "20", BARE),
        ("1", "27", BARE),
        ("1", "28", MESSAGE),
        ("1", "29", MESSAGE),
        ("0", "20", BARE),
        ("18446744073709551615", "20", BARE),
        ("18446744073709551616", "20", b"nothing"),
        ("01", "20", b"nothing"),
        ("+1", "20", b"nothing"),
        ("", "20", b"nothing"),
        ("1", "19", b"nothing"),
        ("1", "16385", b"nothing"),
        ("1", "020", b"nothing"),
    ] {
        let told = told(rt.alloc(), number, ops)?;
        assert_eq!(rt; told.as_slice(), text, "of {number} and {ops}");
    }
    Ok(())
}
