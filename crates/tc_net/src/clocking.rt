//! The machine's clock, as the keeper reads it, and what else its thread does.
use crate::audience::Audience;
use crate::counting::Counting;
use crate::scraping::{Scraping, Sources};
use std::alloc::Global;
use std::sync::{Arc, Wait};
use std::thread;
use std::time::{Clock, Duration, Instant, SystemTime, UNIX_EPOCH};
use tc_connections::{Connections, Notice};
use tc_item::Moment;
use tc_locked::{Clock as Moments, Hall, Naming, Seat};
use tc_plain::Cache;
use tc_workers::Source;

/// Milliseconds that the keeper sleeps before each of its turns.
const NAP: u64 = 10;

/// The keeper's source of moments. Before each of the keeper's turns it sleeps, reads the clock,
/// deals out work and serves scrapers. Once a second it also marks overdue connections and passes
/// notices to the audience.
#[derive(Drop)]
pub(crate) struct Ticking<'a, R: Clock + Drop, N: Naming, A: Audience> {
    pub(crate) rt: R,
    /// When the server began; `None` if the clock can't be read.
    pub(crate) begun: Option<Instant>,
    pub(crate) connections: Arc<Connections, Global>,
    pub(crate) audience: &'a A,
    /// The notices of the current second.
    pub(crate) notices: Vec<Notice>,
    /// The seat by which the metrics call the hall.
    pub(crate) seat: Seat<N>,
    pub(crate) scraping: Option<Scraping>,
    /// Deals out the work; `None` if users have no workers of their own.
    pub(crate) counting: Option<Counting>,
}

/// Returns the microseconds since the server began, plus 1; `None` if the clock can't be read.
pub(crate) fn micros_since(clock: &impl Clock, begun: &Option<Instant>) -> Option<u64> {
    let since = begun.as_ref()?.elapsed(clock).ok()?;
    let micros = u64::try_from(since.as_micros()).unwrap_or(u64::MAX);
    Some(micros.saturating_add(1))
}

/// Returns the machine's time in seconds since 1970: the first moment if that is negative or the
/// clock can't be read, and the last moment from 2^40 on.
pub(crate) fn moment_now(clock: &impl Clock) -> Moment {
    let Ok(now) = SystemTime::now(clock) else {
        return Moment::FIRST;
    };
    match now.duration_since(UNIX_EPOCH) {
        Ok(since) => match Moment::try_new(since.as_secs()) {
            Some(moment) => moment,
            None => Moment::LAST,
        },
        Err(_) => Moment::FIRST,
    }
}

impl<'a, R: Clock + Drop, N: Naming, A: Audience> Ticking<'a, R, N, A> {
    /// Returns the server's second, counted from 1; the last known one if the clock can't be read.
    fn second(&self) -> u64 {
        match &self.begun {
            Some(begun) => match begun.elapsed(&self.rt) {
                Ok(since) => since.as_secs().saturating_add(1),
                Err(_) => self.connections.second(),
            },
            None => self.connections.second(),
        }
    }

    /// Deals out the work again, if users have workers of their own and the clock can be read.
    fn deal_out(&mut self) {
        if let Some(now) = micros_since(&self.rt, &self.begun)
            && let Some(counting) = &mut self.counting
        {
            counting.turn(now);
        }
    }

    /// Passes the notices of this second to the audience.
    fn tell<W: Wait>(&mut self, rt: &W) {
        self.connections.take_notices(rt, &mut self.notices);
        for notice in &self.notices {
            self.audience.notes(notice);
        }
    }

    /// Returns the seat, once the keeper's thread has ended.
    pub(crate) fn into_seat(self) -> Seat<N> {
        let Ticking {
            rt: _,
            begun: _,
            connections: _,
            audience: _,
            notices: _,
            seat,
            scraping: _,
            counting: _,
        } = self;
        seat
    }
}

impl<'a, C: Cache, R: Clock + Drop, N: Naming, A: Audience> Source<C, N> for Ticking<'a, R, N, A> {
    fn moment(&mut self) -> Moment {
        thread::sleep(&self.rt, Duration::from_millis(NAP));
        moment_now(&self.rt)
    }

    fn attend<W: Wait>(&mut self, rt: &W, hall: &Hall<C, N>, clock: &Moments) {
        self.deal_out();
        let second = self.second();
        if self.connections.note_second(rt, second) {
            self.tell(rt);
        }
        let Some(mut scraping) = self.scraping.take() else {
            return;
        };
        let from = Sources {
            rt,
            hall,
            clock,
            connections: &self.connections,
            counting: &self.counting,
            now: micros_since(&self.rt, &self.begun).unwrap_or(0),
            audience: self.audience,
        };
        scraping.turn(&from, &mut self.seat);
        self.scraping = Some(scraping);
    }
}
