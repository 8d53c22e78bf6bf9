//! Numbers that are found by two numbers.
ghost use Rattle.std.specs.Prelude.{◌≡◌, ℕ, ◌==◌, ◌&&◌, if◌then◌else◌, Some, None, OnErr, OnOk, option_map};
ghost use Rattle.std.specs.Map.{lookup};
ghost use Rattle.central_comms.specs.declared.pairs.Pair.{Pair as Two};
ghost use Rattle.central_comms.specs.Pairs.{found_by, same_pair};

use indexmap::IndexMap;
use mpi_base::OutOfMemory;
use std::alloc::Global;
use std::marker::Model;

/// Two numbers, such as a rank and a count.
#[derive(Clone, Copy, Drop, PartialEq, Eq, Hash)]
pub(crate) struct Pair {
    first: u16,
    second: u64,
}

/// Numbers, each found by two numbers, such as the place of a message by its sender and its count.
#[derive(Drop)]
pub struct Pairs {
    numbers: IndexMap<Pair, usize>,
}

impl Model for Pairs {
    ghost use Rattle.std.specs.Prelude.{ℕ, List};
    ghost use Rattle.central_comms.specs.declared.pairs.Pair.{Pair as Two};

    ghost Value = { List (Two × ℕ) };

    ghost view = { λ s. s.numbers.entries };
}

/// Another number is found by a pair that finds one.
fn replace(numbers: &mut IndexMap<Pair, usize>, pair: Pair, number: usize)
    ensures { (q : Two) → lookup (same_pair q) numbers.new.entries ≡ (if same_pair pair q then option_map (λ _. number) (lookup (same_pair q) numbers.old.entries) else lookup (same_pair q) numbers.old.entries) }
{
    if let Some(found) = numbers.get_mut(&pair) {
        *found = number;
    }
}

impl Pairs {
    /// No number is found.
    pub fn none(alloc: Global) -> Pairs
        ensures { (a b : ℕ) → found_by result a b ≡ None }
    {
        Pairs {
            numbers: IndexMap::new(alloc),
        }
    }

    /// The number that is found by these two, if there is one.
    pub fn get(&self, first: u16, second: u64) -> Option<usize>
        ensures { result ≡ found_by self.now first second }
    {
        self.numbers.get(&Pair { first, second }).copied()
    }

    /// A number is found by these two, in the place of the one before. After an Err nothing has changed.
    pub fn insert(&mut self, first: u16, second: u64, number: usize) -> Result<(), OutOfMemory>
        ensures ok { OnOk result ((a b : ℕ) → found_by self.new a b ≡ (if (first == a) && (second == b) then Some number else found_by self.old a b)) }
        ensures err { OnErr result (self.new ≡ self.old) }
    {
        self.numbers.insert(Pair { first, second }, number)?;
        Ok(())
    }

    /// Another number is found by these two, where one is. Otherwise nothing changes.
    pub fn replace(&mut self, first: u16, second: u64, number: usize)
        ensures { (a b : ℕ) → found_by self.new a b ≡ (if (first == a) && (second == b) then option_map (λ _. number) (found_by self.old a b) else found_by self.old a b) }
    {
        replace(&mut self.numbers, Pair { first, second }, number);
    }

    /// No number is found by these two any more.
    pub fn remove(&mut self, first: u16, second: u64)
        ensures { (a b : ℕ) → found_by self.new a b ≡ (if (first == a) && (second == b) then None else found_by self.old a b) }
    {
        self.numbers.swap_remove(&Pair { first, second });
    }
}
