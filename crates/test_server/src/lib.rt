//! Tests of what no socket shows of a threaded server: halls that many threads call, and workers
//! over wires in memory.
#![tactic(auto)]

#[cfg(test)]
mod hall;
#[cfg(test)]
mod stage;
#[cfg(test)]
mod workers;
