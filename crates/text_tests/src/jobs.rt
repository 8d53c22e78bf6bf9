//! Jobs and scripts, as examples.
ghost use Rattle.std.specs.Prelude.{◌≡◌, IfOk};

use job_file::{Job, JobFault, read_job, read_solo};
use mpi_base::PsetName;
use script_text::read_line;
use std::alloc::Global;
use std::process::Abort;
use std::test::Fail;

/// The job that the bytes are.
fn job(rt: &(impl Abort + Alloc<A = Global>), bytes: &[u8]) -> Result<Job, Fail>
    ensures { IfOk result (λ job. job.scripts.ranks ≡ job.setting.ranks) }
{
    assert!(rt; bytes.len() < 1_000_000);
    Ok(read_job(rt.alloc(), bytes)?)
}

/// The text of a fault.
fn text(alloc: Global, fault: &JobFault) -> Result<String, Fail> {
    Ok(format!(in alloc; "{fault}")?)
}

/// What is said of the bytes.
fn told(rt: &(impl Abort + Alloc<A = Global>), bytes: &[u8]) -> Result<String, Fail> {
    assert!(rt; bytes.len() < 1_000_000);
    let read = read_job(rt.alloc(), bytes);
    match &read {
        Ok(_) => Ok("a job".to_string(rt.alloc())?),
        Err(fault) => text(rt.alloc(), fault),
    }
}

/// What is said of a script of one rank.
fn solo_told(alloc: Global, script: &[u8]) -> Result<String, Fail> {
    let read = read_solo(alloc, script);
    match &read {
        Ok(_) => Ok("a script".to_string(alloc)?),
        Err(fault) => text(alloc, fault),
    }
}

/// A job of two ranks with these keys, whose values are the line so many times.
fn job_with(alloc: Global, scripts: &[(&str, &str, usize)]) -> Result<String, Fail> {
    let mut text = "format = 1\nranks = 2\n[scripts]\n".to_string(alloc)?;
    for (key, line, times) in scripts {
        text.push_str("\"")?;
        text.push_str(key)?;
        text.push_str("\" = '''\n")?;
        for _ in 0..*times {
            text.push_str(line)?;
        }
        text.push_str("'''\n")?;
    }
    Ok(text)
}

#[test]
fn hostile_jobs_have_their_faults(rt: HostRuntime) -> Result<(), Fail> {
    let sets = "psets, \"app://a\": a free name, and different ranks of the job, are wanted";
    let world = "psets, \"mpi://X\": a free name, and different ranks of the job, are wanted";
    let thread = "scripts, \"00.0\": a rank of the job, a dot and a thread below 8 are wanted";
    for (text, said) in [
        ("", "format: the key is missing"),
        ("format = 1", "ranks: the key is missing"),
        (
            "format = 1\nranks = 0",
            "ranks: a number from 1 to 16 is wanted",
        ),
        (
            "format = 1\nranks = 17",
            "ranks: a number from 1 to 16 is wanted",
        ),
        (
            "format = -1\nranks = 2",
            "format: a number from 1 to 1 is wanted",
        ),
        (
            "format = 1\nranks = 2\ncontexts = 64",
            "contexts: a number from 1 to 63 is wanted",
        ),
        ("format = \"1\"\nranks = 2", "format: an integer is wanted"),
        ("format = 1\nranks = 2.0", "ranks: an integer is wanted"),
        (
            "format = 1\nranks = 2\npsets = 1",
            "psets: a table of arrays of integers is wanted",
        ),
        (
            "format = 1\nranks = 2\npsets.a = [0, true]",
            "psets, \"a\": an array of integers is wanted",
        ),
        (
            "format = 1\nranks = 2\nscripts.a = 1",
            "scripts, \"a\": a string is wanted",
        ),
        ("format = 1\nranks = 2\nrank = 2", "\"rank\": unknown key"),
        ("rank = 2", "\"rank\": unknown key"),
        ("\"\\u001b\" = 2", "\"\\x1b\": unknown key"),
        (
            "format = 1\nranks = 2\n[psets]\n\"app://a\" = [0,2]\n",
            sets,
        ),
        (
            "format = 1\nranks = 2\n[psets]\n\"app://a\" = [0,1,0]\n",
            sets,
        ),
        ("format = 1\nranks = 2\n[psets]\n\"app://a\" = [-1]\n", sets),
        ("format = 1\nranks = 2\n[psets]\n\"mpi://X\" = [0]\n", world),
        (
            "format = 1\nranks = 2\n[scripts]\n\"00.0\" = \"\"\n",
            thread,
        ),
        (
            "format = 1\nranks = 2\n[scripts]\n\"0.0\" = \"sess",
            "line 4, column 14: this is not TOML",
        ),
    ] {
        assert_eq!(rt; told(&rt, text.as_bytes())?.as_str(), said);
    }
    Ok(())
}

#[test]
fn the_first_fault_counts(rt: HostRuntime) -> Result<(), Fail> {
    assert_eq!(rt;
        told(&rt, b"=\n\xff")?.as_str(),
        "line 2, column 1: this is not UTF-8"
    );
    for (text, said) in [
        ("rank = 2\n=", "line 2, column 1: this is not TOML"),
        ("rank = 2", "\"rank\": unknown key"),
        ("format = \"1\"", "ranks: the key is missing"),
        ("format = 2\nranks = \"2\"", "ranks: an integer is wanted"),
        (
            "format = 1\nranks = 0\npsets.\"mpi://X\" = [0]",
            "ranks: a number from 1 to 16 is wanted",
        ),
        (
            "format = 1\nranks = 2\npsets.z = [0]\npsets.b = [2]\npsets.c = [2]\nscripts.\"0.8\" = \"\"",
            "psets, \"b\": a free name, and different ranks of the job, are wanted",
        ),
        (
            "format = 1\nranks = 2\nscripts.\"0.0\" = \"sess\"\nscripts.\"0.8\" = \"\"",
            "scripts, \"0.8\": a rank of the job, a dot and a thread below 8 are wanted",
        ),
        (
            "format = 1\nranks = 2\nscripts.\"1.0\" = \"sess\"\nscripts.\"0.7\" = \"\\n dup c ->\"",
            "rank 0, thread 7, line 2, column 10: the line ends where one more word is wanted",
        ),
    ] {
        assert_eq!(rt; told(&rt, text.as_bytes())?.as_str(), said);
    }
    Ok(())
}

#[test]
fn scripts_are_counted(rt: HostRuntime) -> Result<(), Fail> {
    let long = "rank 1, thread 0: the script has more than 4,096 lines";
    let many = "the scripts have more than 16,384 operations";
    let (line, full) = ("session s\n", 4_096);
    let feeds = job_with(rt.alloc(), &[("0.0", "\n", full)])?;
    assert_eq!(rt; told(&rt, feeds.as_bytes())?.as_str(), "a job");
    let late = job_with(rt.alloc(), &[("1.0", "\n", full + 1), ("0.0", "sess\n", 1)])?;
    assert_eq!(rt; told(&rt, late.as_bytes())?.as_str(), long);
    let four = [
        ("0.0", line, full),
        ("0.1", line, full),
        ("1.2", line, full),
        ("1.7", line, full),
    ];
    let most = job_with(rt.alloc(), &four)?;
    assert_eq!(rt; job(&rt, most.as_bytes())?.scripts.total(), 16_384);
    let (a, b, c, d) = (four[0], four[1], four[2], four[3]);
    let more = job_with(rt.alloc(), &[a, b, c, d, ("0.4", line, 1)])?;
    assert_eq!(rt; told(&rt, more.as_bytes())?.as_str(), many);
    Ok(())
}

#[test]
fn a_job_is_read(rt: HostRuntime) -> Result<(), Fail> {
    let lines = [
        "session s",
        "pset s mpi://WORLD -> g",
        "create g \"t\" -> c",
    ];
    let text =
        b"format = 1\nranks = 2\n[scripts]\n\"1.0\" = \"session s\\npset s mpi://WORLD -> g\\r\\n\\n# t\\ncreate g \\\"t\\\" -> c\\n\"\n[psets]\nb = [1, 0]\na = [1]\n";
    let job = job(&rt, text)?;
    assert_eq!(rt; (job.setting.ranks, job.setting.contexts), (2, 63));
    for (place, name) in ["mpi://WORLD", "mpi://SELF", "a", "b"].iter().enumerate() {
        assert!(rt; job.setting.psets.nth(place as u32) == PsetName::new(name.as_bytes()));
    }
    assert_eq!(rt; job.scripts.total(), 3);
    assert_eq!(rt; job.scripts.len(1, 0), 3);
    for (place, line) in lines.iter().enumerate() {
        let op = job.scripts.op(1, 0, place as u32).copy();
        assert!(rt; read_line(line.as_bytes()) == Ok(op));
    }
    Ok(())
}

#[test]
fn a_script_of_one_rank_is_read(rt: HostRuntime) -> Result<(), Fail> {
    let lines = [
        "session s",
        "pset s mpi://WORLD -> g",
        "create g \"a\" -> c",
    ];
    let script =
        b"# a script\n session   s\r\n\n  # blank\npset s mpi://WORLD ->  g \ncreate g \"a\" -> c";
    let job = read_solo(rt.alloc(), script)?;
    let psets = job.setting.psets.size();
    assert_eq!(rt;
        (job.setting.ranks, job.setting.contexts, psets),
        (1, 63, 2)
    );
    assert_eq!(rt; (job.scripts.len(0, 0), job.scripts.total()), (3, 3));
    for (place, line) in lines.iter().enumerate() {
        let op = job.scripts.op(0, 0, place as u32).copy();
        assert!(rt; read_line(line.as_bytes()) == Ok(op));
    }
    Ok(())
}

#[test]
fn a_script_of_one_rank_has_its_fault(rt: HostRuntime) -> Result<(), Fail> {
    for (script, said) in [
        (
            "session s\ndup c > d",
            "rank 0, thread 0, line 2, column 7: unknown word",
        ),
        (
            "session s\nsend c 0 1 -\ndup c ->",
            "rank 0, thread 0, line 3, column 9: the line ends where one more word is wanted",
        ),
        (
            "\n# send\nsend c 0 1 0g",
            "rank 0, thread 0, line 3, column 12: an even number of hexadecimal digits, or - for no bytes, is wanted",
        ),
        (
            "session s\r\r\n",
            "rank 0, thread 0, line 1, column 9: a name, a process set or a string is wanted",
        ),
    ] {
        assert_eq!(rt; solo_told(rt.alloc(), script.as_bytes())?.as_str(), said);
    }
    let long = "rank 0, thread 0: the script has more than 4,096 lines";
    let mut script = Vec::new(rt.alloc());
    for _ in 0..4_096 {
        script.extend_from_slice(b"session s\n")?;
    }
    assert_eq!(rt; read_solo(rt.alloc(), &script)?.scripts.len(0, 0), 4_096);
    script.push(b'\n')?;
    assert_eq!(rt; solo_told(rt.alloc(), &script)?.as_str(), long);
    Ok(())
}
