//! Jobs that are made from a number: four ranks, of which thread 0 of each has a script.
#![tactic(auto)]

mod draws;
mod job;
mod parts;
mod words;

pub use job::{
    LEAST_OPS, MOST_OPS, generate, generated_jobs_are_one, generated_operations_are_well_formed,
};
pub use words::read_words;
