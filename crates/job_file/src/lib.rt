//! Job files and scripts, read.
#![tactic(auto)]

mod faults;
mod job;
mod keys;
mod lines;
mod messages;
mod place;
mod scripts;
mod sets;
mod solo;
mod top;

pub use faults::JobFault;
pub use job::{Job, jobs_tell, read_job};
pub use keys::{KeyText, TopKey};
pub use solo::{read_solo, solo_tells};
