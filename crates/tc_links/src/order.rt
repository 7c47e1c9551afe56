//! The order in which a connection's calls are entered.
ghost use Rattle.std.specs.Prelude.{◌≡◌};
ghost use Rattle.tc_links.specs.Talks.{number_after as nth_after};

/// Returns the number of a connection's latest entry after one more entry of this number; `None` if
/// the number isn't above the last one, or an earlier one wasn't.
pub(crate) fn number_after(last: Option<u64>, number: u64) -> Option<u64>
    ensures { result ≡ nth_after last number }
{
    match last {
        Some(before) if before < number => Some(number),
        _ => None,
    }
}
