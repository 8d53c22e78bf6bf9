//! Counts of a journal's entries.
ghost use Rattle.std.specs.Prelude.{◌≡◌, ◌+◌, ◌-◌, ◌*◌, ◌<◌, ◌≤◌, ◌^◌, []};
ghost use Rattle.journal_summary.specs.Summaries.{summary_of, is_call, settled};
ghost use Rattle.journal_summary.specs.Counting.{with_entry};

use mpi_base::{Act, Entry, Said};

/// The counts of a journal.
#[derive(Clone, Copy, Debug, Drop, PartialEq, Eq)]
pub struct Summary {
    /// The calls.
    pub ops: u64,
    /// All entries.
    pub steps: u64,
    /// The settles that pick a context.
    pub picks: u64,
    /// The settles that say that no context is free at every member.
    pub exhausted: u64,
    /// The entries that bring a receive and a message together.
    pub matches: u64,
    /// The settles that say that one more round is needed.
    pub retries: u64,
    /// The messages that give-backs dropped.
    pub dropped: u128,
}

/// Whether an entry is a call.
fn is_called(entry: &Entry) -> bool
    ensures { result ≡ is_call entry.now }
{
    matches!(entry.choice.act, Act::Call { .. })
}

/// What a settle says.
fn said(entry: &Entry) -> Option<Said>
    ensures { result ≡ settled entry.now }
{
    match entry.choice.act {
        Act::Settle { .. } => entry.said,
        Act::Call { .. }
        | Act::Answer { .. }
        | Act::Deliver { .. }
        | Act::Offer { .. }
        | Act::Leave { .. }
        | Act::Back { .. } => None,
    }
}

impl Summary {
    /// The summary of a journal.
    pub fn of(entries: &[Entry]) -> Summary
        ensures { result ≡ summary_of entries.now }
    {
        let mut summary = Summary::none();
        for entry in entries {
            summary = summary.with(entry);
        }
        summary
    }

    /// The summary of no entry.
    fn none() -> Summary
        ensures { result ≡ summary_of [] }
    {
        Summary {
            ops: 0,
            steps: 0,
            picks: 0,
            exhausted: 0,
            matches: 0,
            retries: 0,
            dropped: 0,
        }
    }

    /// The summary with one entry more.
    fn with(self, entry: &Entry) -> Summary
        requires ops { self.ops < 2 ^ 64 - 1 }
        requires steps { self.steps < 2 ^ 64 - 1 }
        requires picks { self.picks < 2 ^ 64 - 1 }
        requires exhausted { self.exhausted < 2 ^ 64 - 1 }
        requires matches { self.matches < 2 ^ 64 - 1 }
        requires retries { self.retries < 2 ^ 64 - 1 }
        requires dropped { self.dropped + 2 ^ 64 < 2 ^ 128 }
        ensures value { result ≡ with_entry self entry.now }
        ensures dropped { result.dropped ≤ self.dropped + (2 ^ 64 - 1) }
    {
        let said = said(entry);
        Summary {
            ops: self.ops + u64::from(is_called(entry)),
            steps: self.steps + 1,
            picks: self.picks + u64::from(matches!(said, Some(Said::Picked(_)))),
            exhausted: self.exhausted + u64::from(matches!(said, Some(Said::Exhausted))),
            matches: self.matches + u64::from(entry.matched.is_some()),
            retries: self.retries + u64::from(matches!(said, Some(Said::Retry))),
            dropped: self.dropped + u128::from(entry.dropped.unwrap_or(0)),
        }
    }
}
