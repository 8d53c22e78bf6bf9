//! Examples of the parts of a rank and of the registry that runs: groups, sets, sessions, links, names,
//! the agreement on a context, matching, what a call does, and the lists of the registry.
#![tactic(auto)]

#[cfg(test)]
mod agreements;
#[cfg(test)]
mod calls;
#[cfg(test)]
mod communicators;
#[cfg(test)]
mod gathers;
#[cfg(test)]
mod groups;
#[cfg(test)]
mod held_scripts;
#[cfg(test)]
mod links;
#[cfg(test)]
mod matching;
#[cfg(test)]
mod names;
#[cfg(test)]
mod plans;
#[cfg(test)]
mod registry_comms;
#[cfg(test)]
mod registry_creations;
#[cfg(test)]
mod registry_mail;
#[cfg(test)]
mod registry_ranks;
#[cfg(test)]
mod rows;
#[cfg(test)]
mod sessions;
#[cfg(test)]
mod sets;
