//! Replays the journal of a generated job on the central registry: the job is run as `mpisess gen` runs it,
//! each entry of its journal is tried as a step of the registry, and the registry is asked whether it is
//! closed at the end.
#![tactic(auto)]

mod replay;
#[cfg(test)]
mod tests;

use job_gen::read_words;
use mpi_base::OutOfMemory;
use replay::{Replay, replay_generated};
use std::alloc::Global;
use std::process::ExitCode;
use std::rt::Env;
use std::{env, io};

const USAGE: &str = "usage: registry_replay NUMBER OPS";

/// Replays the generated job that two words tell; None where they tell none.
fn replayed(alloc: Global, words: &[String]) -> Result<Option<Replay>, OutOfMemory> {
    let [number, ops] = words else {
        return Ok(None);
    };
    match read_words(number.as_str(), ops.as_str()) {
        Some((number, ops)) => Ok(Some(replay_generated(alloc, number, ops)?)),
        None => Ok(None),
    }
}

/// The words of the command line behind the program's name.
fn command_words(rt: &(impl Env + Alloc<A = Global>)) -> Option<Vec<String>> {
    env::args(rt).ok()?.skip(1).collect(rt.alloc()).ok()
}

fn main(rt: HostRuntime) -> ExitCode {
    let Some(words) = command_words(&rt) else {
        let _ = eprintln!(rt; "{USAGE}");
        return ExitCode::FAILURE;
    };
    match replayed(rt.alloc(), &words) {
        Ok(Some(replay)) => {
            let _ = println!(rt;
                "steps={} all={} closed={}",
                replay.journal.len(),
                replay.all,
                replay.closed
            );
            ExitCode::SUCCESS
        }
        Ok(None) => {
            let _ = eprintln!(rt; "{USAGE}");
            ExitCode::FAILURE
        }
        Err(fault) => {
            let _ = eprintln!(rt; "registry_replay: {fault}");
            ExitCode::FAILURE
        }
    }
}
