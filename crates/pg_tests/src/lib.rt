//! Tests of what no run of the program shows, over the crates below it: values that no statement gives yet, the lines of
//! outcomes that none has, scripts of several sessions, events of the core, tasks, and sources and sinks that fail in
//! mid-stream.
#![tactic(auto)]

#[cfg(test)]
mod adjacency;
#[cfg(test)]
mod changes;
#[cfg(test)]
mod events;
#[cfg(test)]
mod expressions;
#[cfg(test)]
mod outside;
#[cfg(test)]
mod scripts;
#[cfg(test)]
mod store;
#[cfg(test)]
mod tasks;
#[cfg(test)]
mod transcripts;
#[cfg(test)]
mod values;
