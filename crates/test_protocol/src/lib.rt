//! Tests of tc_grammar, tc_stats, tc_feed, tc_users and tc_session over their public calls alone.
//! They cover what no clause says and no socket shows: lines, streams and counts made by hand, and
//! public calls with memory to spare.
#![tactic(auto)]

#[cfg(test)]
mod feed;
#[cfg(test)]
mod fixtures;
#[cfg(test)]
mod grammar;
#[cfg(test)]
mod peeking;
#[cfg(test)]
mod session;
#[cfg(test)]
mod stats;
#[cfg(test)]
mod users;
