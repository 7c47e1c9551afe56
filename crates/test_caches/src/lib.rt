//! Tests of one user's cache: lines of the protocol and their outcomes, on the plain cache and on
//! the fast one.
#![tactic(auto)]

#[cfg(test)]
mod alike;
#[cfg(test)]
mod draws;
#[cfg(test)]
mod fixtures;
#[cfg(test)]
mod rows;
#[cfg(test)]
mod table;
#[cfg(test)]
mod traces;
#[cfg(test)]
mod waiting;
