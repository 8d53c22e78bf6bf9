//! Examples of plain types and of texts: tokens, scripts, lines of a journal, jobs and summaries.
#![tactic(auto)]

#[cfg(test)]
mod base;
#[cfg(test)]
mod generated;
#[cfg(test)]
mod jobs;
#[cfg(test)]
mod journals;
#[cfg(test)]
mod operations;
#[cfg(test)]
mod scripts;
#[cfg(test)]
mod summaries;
#[cfg(test)]
mod tokens;
