//! Tests alone, of the stores of which `run` is made (segments, slots, drafts, queues, inboxes, groups and their rounds) and of
//! sources and sinks: mostly of public calls that no command makes. They are apart from `component_tests`, so that no more crates
//! than they name are read for their proof. Helpers are named and made as there.
#![tactic(auto)]

#[cfg(test)]
mod drafts;
#[cfg(test)]
mod groups;
#[cfg(test)]
mod lists;
#[cfg(test)]
mod messages;
#[cfg(test)]
mod pendings;
#[cfg(test)]
mod queues;
#[cfg(test)]
mod rounds;
#[cfg(test)]
mod segments;
#[cfg(test)]
mod slots;
#[cfg(test)]
mod streams;
