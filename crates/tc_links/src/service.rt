//! What a worker serves all its connections with.
use crate::gate::Gate;
use std::alloc::Global;
use std::sync::Wait;
use tc_locked::{Clock, Hall, Naming};
use tc_plain::Cache;
use tc_users::Users;

#[derive(Drop)]
pub struct Service<'a, R: Wait, C: Cache, N: Naming, G: Gate> {
    pub rt: &'a R,
    pub alloc: Global,
    pub hall: &'a Hall<C, N>,
    pub users: &'a Users,
    pub clock: &'a Clock,
    pub gate: &'a G,
}
