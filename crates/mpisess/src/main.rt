//! The program `mpisess`: a job is read from standard input, run, and its journal written to standard
//! output. Faults go to standard error, and so does who waits for what where a job ends stuck.
#![tactic(auto)]

mod command;
mod input;
mod jobs;
mod output;
mod session;
mod status;
#[cfg(test)]
mod tests;

use io_edge::{StdSink, StdSource};
use job_file::JobFault;
use mpi_base::Entry;
use session::mpisess_calm;
use status::Status;
use std::alloc::Global;
use std::process::ExitCode;
use std::rt::Env;
use std::{env, io};
use stuck_report::Stuck;

const VERSION: &str = "mpisess 0.1";

const USAGE: &str = "\
usage: mpisess serial < JOB > JOURNAL
       mpisess solo < SCRIPT > JOURNAL
       mpisess gen NUMBER OPS > SUMMARY
       mpisess --help
       mpisess --version";

const HELP: &str = "\
usage: mpisess serial < JOB > JOURNAL
       mpisess solo < SCRIPT > JOURNAL
       mpisess gen NUMBER OPS > SUMMARY

Runs the job of many ranks, or the script of one, and writes a line for each step, with each reply. Or
makes a job of four ranks from a NUMBER below 2 to the 64th, with at most OPS operations (20 to 16,384),
runs it and writes one line of counts.

A job is a TOML document with these keys:
  format = 1                      the format of the job
  ranks = NUM                     how many ranks there are, 1 to 16
  contexts = NUM                  how many contexts, 1 to 63; 63 where the key is missing
  [psets]                         process sets: \"app://NAME\" = [0, 1]
  [scripts]                       scripts, by rank and thread (0 to 7): \"0.0\" = \"\"\"LINES\"\"\"

The lines of a script:
  session NAME                    opens a session
  finalize NAME                   ends a session
  psets NAME                      tells how many process sets there are
  nth NAME NUM                    tells the name of a process set
  info NAME PSET                  tells the size of a process set
  pset NAME PSET -> NAME          makes the group of a process set
  union NAME NAME -> NAME         makes a group of two; also intersect, difference
  incl NAME LIST -> NAME          makes a group of listed ranks; also excl
  range_incl NAME RANGES -> NAME  makes a group of ranges of ranks; also range_excl
  translate NAME LIST NAME        tells ranks of one group as ranks of another
  compare NAME NAME               compares groups
  size NAME, rank NAME            tell the size of a group, and the rank in it
  gfree NAME                      frees a group
  create NAME STRING -> NAME      makes a communicator from a group and a string tag
  create_group NAME NAME NUM -> NAME  makes one from a communicator, a group and a tag
  dup NAME -> NAME                duplicates a communicator
  split NAME COLOUR KEY -> NAME   makes a communicator for each colour
  group NAME -> NAME              makes the group of a communicator
  ccompare NAME NAME              compares communicators
  csize NAME, crank NAME          tell the size of a communicator, and the rank in it
  free NAME                       frees a communicator
  send NAME RANK TAG HEX          sends bytes
  recv NAME RANK TAG ROOM         receives; RANK and TAG may be any
  irecv NAME RANK TAG ROOM -> NAME  posts a receive
  wait NAME                       waits for a posted receive
  await NAME                      waits until another thread has bound a name
Spaces stand between the words. Blank lines and lines that begin with # are passed.

The process ends with 0 where the journal was written and every script is ended, 1 where the words were
not understood, 2 where the job cannot be run, 3 where the journal was written and some thread waits for
ever, 4 or 5 where reading or writing failed, 6 where the input has more than 4,194,304 bytes, and 7
where no memory was left.";

/// How the program ended, and what was wrong with the job.
type Outcome = (Status, Option<JobFault>);

fn main(rt: HostRuntime) -> ExitCode {
    let (status, fault) = match command_words(&rt) {
        Ok(words) => answer(&rt, &words),
        Err(status) => (status, None),
    };
    let _ = match fault {
        Some(fault) => complain_of_job(&rt, &fault),
        None => complain(&rt, status),
    };
    ExitCode::from(status.number())
}

/// The words of the command line behind the program's name. Words that are no UTF-8 are no command.
fn command_words(rt: &(impl Env + Alloc<A = Global>)) -> Result<Vec<String>, Status> {
    let words = match env::args(rt) {
        Ok(words) => words,
        Err(error) if error.kind() == io::ErrorKind::OutOfMemory => return Err(Status::Memory),
        Err(_) => return Err(Status::Usage),
    };
    match words.skip(1).collect(rt.alloc()) {
        Ok(words) => Ok(words),
        Err(_) => Err(Status::Memory),
    }
}

/// Answers the words of the command line.
fn answer(rt: &(impl Input + Print + Eprint + Alloc<A = Global>), words: &[String]) -> Outcome {
    match words {
        [word] if word.as_str() == "--help" => (printed(rt.println(HELP)), None),
        [word] if word.as_str() == "--version" => (printed(rt.println(VERSION)), None),
        _ => {
            let mut source = StdSource::new(rt);
            let mut sink = StdSink::new(rt);
            let done = mpisess_calm(rt.alloc(), words, &mut source, &mut sink);
            if done.status == Status::Stuck {
                let _ = tell_waiting(rt, done.journal.as_slice());
            }
            (done.status, done.fault)
        }
    }
}

/// The status after printing.
fn printed(outcome: io::Result<()>) -> Status {
    match outcome {
        Ok(()) => Status::Fine,
        Err(_) => Status::WriteFault,
    }
}

/// Says on standard error who waits for what at the end of a journal.
fn tell_waiting(rt: &impl Eprint, entries: &[Entry]) -> io::Result<()> {
    rt.eprintln(Stuck::at_end(entries))
}

/// Says on standard error what went wrong, in words. Who waits where a job ends stuck is said already.
fn complain(rt: &impl Eprint, status: Status) -> io::Result<()> {
    match status {
        Status::Fine | Status::Stuck => Ok(()),
        Status::Usage => rt.eprintln(USAGE),
        _ => eprintln!(rt; "mpisess: {status}"),
    }
}

/// Says on standard error what is wrong with the job, and where.
fn complain_of_job(rt: &impl Eprint, fault: &JobFault) -> io::Result<()> {
    eprintln!(rt; "mpisess: {fault}")
}
