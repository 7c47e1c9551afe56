//! What a call under a user's lock returns.
use crate::call_entry::Slip;
use crate::witness::Witness;

/// The result of a successful call.
#[derive(Drop)]
pub struct Called {
    /// What the caller receives.
    pub slip: Slip,
    /// The entry, in proofs alone.
    pub entry: Witness,
}
