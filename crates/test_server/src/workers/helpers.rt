//! When a worker that has no time left gets a helper, and when the helper goes. By hand, for three
//! workers, the first of which serves all users.
use std::alloc::Global;
use std::process::Abort;
use std::sync::Arc;
use std::test::*;
use tc_fairness::{Balance, Did, Shares, Traffic};
use tc_links::Homes;
use tc_users::UserNo;

/// How busy the three workers are, in thousandths of their time: the first has no time left, and
/// the others have some.
const FIRST: [u64; 3] = [1_000, 200, 100];

/// The first and the third have no time left.
const BOTH: [u64; 3] = [1_000, 200, 1_000];

/// None of them has time left.
const ALL: [u64; 3] = [1_000, 1_000, 1_000];

/// The workers that serve connections 1 and 2 of user 1, counted from 0; `None` is the first
/// worker.
type Places = [Option<usize>; 2];

/// What the policy should have decided after some looks.
#[derive(Clone, Copy)]
enum Asked {
    /// Not compared.
    No,
    /// The first worker serves both connections.
    Alone,
    /// The third worker serves connection 1.
    Helped,
}

impl Asked {
    fn places(self) -> Option<Places> {
        match self {
            Asked::No => None,
            Asked::Alone => Some([None, None]),
            Asked::Helped => Some([Some(2), None]),
        }
    }
}

/// The number of looks and how busy the workers are in each. The bytes that the first and the third
/// worker sent to their own users for each look. The expected decision after the last look.
type Looks = (u32, [u64; 3], u64, u64, Asked);

/// Why the policy decides so, and the looks in order.
static TRIALS: [(&str, &[Looks]); 7] = [
    (
        "once the load was the same for five looks, who has most time takes every second connection",
        &[
            (6, FIRST, 100, 0, Asked::Alone),
            (1, FIRST, 100, 0, Asked::Helped),
        ],
    ),
    (
        "a load that doubles with each look is not put down to a helper, for none comes",
        &[
            (1, FIRST, 100, 0, Asked::No),
            (1, FIRST, 200, 0, Asked::No),
            (1, FIRST, 400, 0, Asked::No),
            (1, FIRST, 800, 0, Asked::No),
            (1, FIRST, 1_600, 0, Asked::No),
            (1, FIRST, 3_200, 0, Asked::No),
            (1, FIRST, 6_400, 0, Asked::No),
            (1, FIRST, 12_800, 0, Asked::Alone),
        ],
    ),
    (
        "a twelfth more is not sent, so the helper goes after its trial, and is not tried again soon",
        &[
            (7, FIRST, 100, 0, Asked::No),
            (7, BOTH, 107, 0, Asked::Alone),
            (49, FIRST, 100, 0, Asked::Alone),
        ],
    ),
    (
        "a twelfth more is sent, so the helper stays; and it goes once one worker would do",
        &[
            (7, FIRST, 100, 0, Asked::No),
            (7, BOTH, 108, 0, Asked::Helped),
            (19, [200, 0, 300], 108, 0, Asked::Helped),
            (1, [200, 0, 300], 108, 0, Asked::Alone),
        ],
    ),
    (
        "a helper that paid is kept for some ten seconds, though nobody else has time to be tried",
        &[
            (7, FIRST, 100, 0, Asked::No),
            (7, BOTH, 108, 0, Asked::No),
            (399, ALL, 108, 0, Asked::Helped),
            (1, ALL, 108, 0, Asked::Alone),
        ],
    ),
    (
        "under another load as much is sent without the helper",
        &[
            (7, FIRST, 100, 0, Asked::No),
            (7, BOTH, 108, 0, Asked::No),
            (40, BOTH, 108, 0, Asked::Helped),
            (7, BOTH, 300, 0, Asked::Alone),
            (7, FIRST, 288, 0, Asked::No),
            (49, FIRST, 288, 0, Asked::Alone),
        ],
    ),
    (
        "the third worker's own users want its time",
        &[
            (7, FIRST, 100, 0, Asked::No),
            (7, BOTH, 108, 0, Asked::No),
            (3, BOTH, 108, 50, Asked::Helped),
            (1, BOTH, 108, 50, Asked::Alone),
        ],
    ),
];

/// The policy, the figures that it looks at, and the places of the first worker's connections.
#[derive(Drop)]
struct Dealt {
    balance: Balance,
    did: Did,
    homes: Homes,
}

/// Returns the policy for three workers, each of which serves its users alone.
fn deal(alloc: Global) -> Result<Dealt, Fail> {
    let shares = Arc::new(alloc, Shares::new(alloc, 3)?)?;
    let homes = Homes::by_user(0, 3, Some(Arc::try_clone(&shares)?));
    Ok(Dealt {
        balance: Balance::new(alloc, shares, 3)?,
        did: Did::new(alloc, 3)?,
        homes,
    })
}

impl Dealt {
    /// Sets how many calls a worker made, and how many bytes it sent, for the users of a home.
    fn send(&mut self, worker: usize, home: usize, calls: u64, bytes: u64) {
        self.did.set_traffic(worker, home, Traffic { calls, bytes });
    }

    /// Makes the looks of one row.
    fn look(&mut self, looks: &Looks) {
        let (times, busy, bytes, own, _) = *looks;
        for (worker, busy) in busy.into_iter().enumerate() {
            self.did.set_busy(worker, busy);
        }
        self.send(0, 0, 100, bytes);
        self.send(2, 0, 50, 0);
        self.send(2, 2, own, own);
        for _ in 0..times {
            self.balance.look(&self.did);
        }
    }

    fn places(&self) -> Places {
        let user = UserNo::new(1);
        [self.homes.elsewhere(user, 1), self.homes.elsewhere(user, 2)]
    }
}

/// Makes a trial's looks, and expects the decision of each row.
fn expect_trial(rt: &(impl AllocGlobal + Abort), why: &str, trial: &[Looks]) -> Result<(), Fail> {
    let mut dealt = deal(rt.alloc())?;
    for looks in trial {
        dealt.look(looks);
        if let Some(places) = looks.4.places() {
            assert!(rt; dealt.places() == places, "{why}");
        }
    }
    Ok(())
}

/// Guards throughput: a busy user must get a second worker if that pays, and give it back if it
/// does not.
#[test]
fn a_helper_comes_and_goes_by_what_is_sent(rt: HostRuntime) -> Result<(), Fail> {
    for (why, trial) in &TRIALS {
        expect_trial(&rt, *why, *trial)?;
    }
    Ok(())
}
