//! Every counter of a rank is at most the number of steps that it has made. The law is a function without a
//! body, and holds of any acts and packets, also of those that the protocol does not allow.
#![tactic(auto)]

ghost use Rattle.std.specs.Prelude.{◌≡◌, ◌≤◌, ◌<◌, ◌+◌, ℕ, Bool, Option, Some, All};
ghost use Rattle.mpi_base.specs.declared.keys.Key.{Key};
ghost use Rattle.mpi_base.specs.declared.entries.Act.{Act};
ghost use Rattle.mpi_law.specs.declared.setting.Setting.{Setting};
ghost use Rattle.agree_law.specs.declared.rows.Stage.TheVariants.{Waiting, Offered};
ghost use Rattle.agree_law.specs.Part.{stage_of, round_of};
ghost use Rattle.mpi_protocol.specs.Packets.{Packet};
ghost use Rattle.mpi_protocol.specs.Rank.{Rank, fresh, thread_at};
ghost use Rattle.mpi_protocol.specs.Step.{step};
ghost use Rattle.rank_law.specs.Counts.{CountsWithin};

/// Nothing is counted at the start, and what bounds all counters before a step bounds them after it with one
/// more. With it stands what code asks of single counters.
pub fn counts_rise()
    ensures fresh { (s : Setting) (r n : ℕ) → CountsWithin n (fresh s r) }
    ensures step { (n : ℕ) (x : Rank) (act : Act) (p : Option Packet) → CountsWithin n x → CountsWithin (n + 1) (step x act p).state }
    ensures rise { (n m : ℕ) (x : Rank) → CountsWithin n x → n ≤ m → CountsWithin m x }
    ensures thread { (n : ℕ) (x : Rank) (t : ℕ) → CountsWithin n x → (thread_at x t).calls ≤ n }
    ensures calls { (n m : ℕ) (x : Rank) → CountsWithin n x → n < m → All (λ row. row.calls < m) x.comms.rows }
    ensures round { (n : ℕ) (x : Rank) (key : Key) → CountsWithin n x → round_of x.agree.rounds key ≤ n }
    ensures waiting { (n : ℕ) (x : Rank) (key : Key) (i : ℕ) → CountsWithin n x → stage_of x.agree.opened key ≡ Some (Waiting i) → i ≤ n }
    ensures offered { (n : ℕ) (x : Rank) (key : Key) (i : ℕ) (own : Bool) → CountsWithin n x → stage_of x.agree.opened key ≡ Some (Offered i own) → i ≤ n }
{}
