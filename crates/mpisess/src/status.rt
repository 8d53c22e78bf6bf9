//! How sessions end.
ghost use Rattle.std.specs.Prelude.{◌≡◌};
ghost use Rattle.mpisess.specs.Stops.{status_number, stop_status, stop_fault};

use crate::input::InputError;
use job_file::JobFault;
use mpi_base::OutOfMemory;
use std::fmt;

/// How a session ended.
#[derive(Clone, Copy, Debug, PartialEq, Eq, Drop)]
pub enum Status {
    /// The job was run until every script was ended, and its journal written.
    Fine,
    /// The words of the command line name no session.
    Usage,
    /// The input is no job that can be run.
    BadJob,
    /// The job was run until nothing was left to do, though some thread waits, and its journal written.
    Stuck,
    /// The source failed.
    ReadFault,
    /// The job was run, and the sink failed.
    WriteFault,
    /// The input has more than 4,194,304 bytes.
    TooLong,
    /// No memory was left.
    Memory,
}

impl Status {
    /// The number with which the process ends.
    pub fn number(self) -> u8
        ensures { result ≡ status_number self }
    {
        match self {
            Status::Fine => 0,
            Status::Usage => 1,
            Status::BadJob => 2,
            Status::Stuck => 3,
            Status::ReadFault => 4,
            Status::WriteFault => 5,
            Status::TooLong => 6,
            Status::Memory => 7,
        }
    }
}

impl fmt::Display for Status {
    /// Writes how the session ended, in words.
    fn fmt<W: fmt::Write>(&self, f: &mut fmt::Formatter<W>) -> fmt::Result {
        f.write_str(match self {
            Status::Fine => "every script is ended",
            Status::Usage => "the command line was not understood",
            Status::BadJob => "standard input is no job that can be run",
            Status::Stuck => "some thread waits for ever",
            Status::ReadFault => "standard input could not be read",
            Status::WriteFault => "standard output could not be written",
            Status::TooLong => "standard input has more than 4,194,304 bytes",
            Status::Memory => "no memory was left",
        })
    }
}

/// Why a session stopped before its job was run.
#[derive(Drop)]
pub(crate) enum Stop {
    /// The source failed.
    ReadFault,
    /// The input has more than 4,194,304 bytes.
    TooLong,
    /// The input is no job that can be run.
    BadJob(JobFault),
    /// No memory was left.
    Memory,
}

impl Stop {
    /// The status of the session.
    pub(crate) fn status(&self) -> Status
        ensures { result ≡ stop_status self.now }
    {
        match self {
            Stop::ReadFault => Status::ReadFault,
            Stop::TooLong => Status::TooLong,
            Stop::BadJob(_) => Status::BadJob,
            Stop::Memory => Status::Memory,
        }
    }

    /// What was wrong with the job.
    pub(crate) fn fault(self) -> Option<JobFault>
        ensures { result ≡ stop_fault self }
    {
        match self {
            Stop::BadJob(fault) => Some(fault),
            Stop::ReadFault | Stop::TooLong | Stop::Memory => None,
        }
    }
}

impl From<InputError> for Stop {
    ghost use Rattle.std.specs.Prelude.{◌≡◌};
    ghost use Rattle.mpisess.specs.Stops.{stop_of_input};

    ghost from_gives = { λ value stop. stop ≡ stop_of_input value };

    fn from(error: InputError) -> Stop {
        match error {
            InputError::Fault => Stop::ReadFault,
            InputError::TooLong => Stop::TooLong,
            InputError::Memory => Stop::Memory,
        }
    }
}

impl From<JobFault> for Stop {
    ghost use Rattle.std.specs.Prelude.{◌≡◌};
    ghost use Rattle.mpisess.specs.Stops.{stop_of_job};

    ghost from_gives = { λ value stop. stop ≡ stop_of_job value };

    fn from(fault: JobFault) -> Stop {
        match fault {
            JobFault::Memory => Stop::Memory,
            fault => Stop::BadJob(fault),
        }
    }
}

impl From<OutOfMemory> for Stop {
    ghost use Rattle.std.specs.Prelude.{◌≡◌};
    ghost use Rattle.mpisess.specs.declared.status.Stop.TheVariants.{Memory};

    ghost from_gives = { λ _ stop. stop ≡ Memory };

    fn from(_error: OutOfMemory) -> Stop {
        Stop::Memory
    }
}
