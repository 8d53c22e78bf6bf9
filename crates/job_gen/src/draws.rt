//! Numbers that are drawn one after the other, and the rounds that they tell.
ghost use Rattle.std.specs.Prelude.{◌≡◌, ◌^◌, ◌<◌, ◌%◌};
ghost use Rattle.job_gen.specs.Draws.{next_state, drawn, round_from};

use crate::parts::{Part, RANKS};

/// The state of the draws.
#[derive(Drop)]
pub(crate) struct Draws {
    state: u64,
}

impl Draws {
    /// Draws that begin with a number.
    pub(crate) fn of(number: u64) -> Draws
        ensures { result.state ≡ number }
    {
        Draws { state: number }
    }

    /// The next number.
    #[tactic(auto, unfolding(crate::specs::Draws::next_state))]
    fn draw(&mut self) -> u64
        ensures state { self.new.state ≡ next_state self.old.state }
        ensures value { result ≡ drawn self.new.state }
    {
        let next = u128::from(self.state) * 6_364_136_223_846_793_005 + 1_442_695_040_888_963_407;
        self.state = (next % (1 << 64)) as u64;
        self.state >> 33
    }

    /// One of the ranks.
    fn rank(&mut self) -> u16
        ensures state { self.new.state ≡ next_state self.old.state }
        ensures value { result ≡ drawn self.new.state % RANKS }
    {
        (self.draw() % u64::from(RANKS)) as u16
    }

    /// The next round, which has this number.
    pub(crate) fn round(&mut self, number: u32) -> Part
        ensures part { result ≡ (round_from number self.old.state).part }
        ensures state { self.new.state ≡ (round_from number self.old.state).state }
    {
        match self.draw() % 4 {
            0 => Part::Duplicate,
            1 => Part::Split { first: self.rank() },
            2 => Part::Message {
                from: self.rank(),
                to: self.rank(),
                number,
            },
            _ => Part::Create,
        }
    }
}
