//! What a server does at its end, and what it keeps for that.
ghost use Rattle.std.specs.Prelude.{◌≡◌, ◌<◌};
ghost use Rattle.tc_net.specs.Ends.{journal_of, page_length};

use tc_plain::Journal;

/// What a server does once the given number of connections were closed.
#[derive(Clone, Copy, PartialEq, Eq)]
pub enum AtEnd {
    /// It ends.
    Leaves,
    /// It repeats the calls of each user's last page, tells its audience what differs, and ends.
    Audits,
}

impl AtEnd {
    /// Whether a server keeps what an audit reads: the calls on each user's page, and the cache's
    /// state when the page began.
    pub fn journal(self) -> Journal
        ensures { result ≡ journal_of self }
    {
        match self {
            AtEnd::Leaves => Journal::Off,
            AtEnd::Audits => Journal::On,
        }
    }

    /// Returns how many entries a page has, if the settings ask for `journal`. Without an audit a
    /// page never ends, since nobody would read it.
    pub(crate) fn page_length(self, journal: usize) -> usize
        requires { 0 < journal }
        ensures value { result ≡ page_length self journal }
        ensures some { 0 < result }
    {
        match self {
            AtEnd::Leaves => usize::MAX,
            AtEnd::Audits => journal,
        }
    }
}
