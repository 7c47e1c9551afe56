//! Tests of connections: what the operator learns of them, and sockets over streams in memory.
#![tactic(auto)]

#[cfg(test)]
mod connections;
#[cfg(test)]
mod sockets;
#[cfg(test)]
mod streams;
