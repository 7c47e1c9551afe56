//! The metrics of each worker.
ghost use Rattle.std.specs.Prelude.{◌≡◌};
ghost use Rattle.tc_metrics.specs.MetricsText.{worker_name, worker_help, worker_is_gauge};
ghost use Rattle.tc_metrics.specs.MetricsText.{worker_number, worker_unit, worker_metrics};

/// The figures of one worker.
#[derive(Clone, Copy, PartialEq, Eq)]
pub struct WorkerFigures {
    /// The worker's number, from 0.
    pub worker: u64,
    /// Microseconds that it did not wait since the server's start.
    pub busy_micros: u64,
    /// Microseconds of its longest turn since the last scrape.
    pub longest_turn_micros: u64,
    /// How many users have it as their home.
    pub users: u64,
}

/// A metric that each worker has.
#[derive(Clone, Copy, PartialEq, Eq)]
pub enum WorkerMetric {
    BusySeconds,
    LongestTurn,
    Users,
}

impl WorkerMetric {
    /// Returns all of them, in the order in which the text has them.
    #[tactic(auto, unfolding(crate::specs::MetricsText::worker_metrics))]
    pub fn all() -> [WorkerMetric; 3]
        ensures { result ≡ worker_metrics }
    {
        [
            WorkerMetric::BusySeconds,
            WorkerMetric::LongestTurn,
            WorkerMetric::Users,
        ]
    }

    /// Returns its name.
    pub fn name(self) -> &'static str
        ensures { result.now ≡ worker_name self }
    {
        match self {
            WorkerMetric::BusySeconds => "partcached_worker_busy_seconds_total",
            WorkerMetric::LongestTurn => "partcached_worker_longest_turn_seconds",
            WorkerMetric::Users => "partcached_worker_users",
        }
    }

    /// Returns its help line.
    pub fn help(self) -> &'static str
        ensures { result.now ≡ worker_help self }
    {
        match self {
            WorkerMetric::BusySeconds => "Seconds that the worker did not wait.",
            WorkerMetric::LongestTurn => "The worker's longest turn since the last scrape.",
            WorkerMetric::Users => "Users whose connections the worker serves first.",
        }
    }

    /// Whether it is a gauge, which may go down; otherwise it is a counter.
    pub fn is_gauge(self) -> bool
        ensures { result ≡ worker_is_gauge self }
    {
        !matches!(self, WorkerMetric::BusySeconds)
    }

    /// Returns its value for a worker.
    pub fn number(self, worker: &WorkerFigures) -> u64
        ensures { result ≡ worker_number self worker.now }
    {
        match self {
            WorkerMetric::BusySeconds => worker.busy_micros,
            WorkerMetric::LongestTurn => worker.longest_turn_micros,
            WorkerMetric::Users => worker.users,
        }
    }

    /// Returns what follows its number: the exponent of one that counts millionths.
    pub fn unit(self) -> &'static str
        ensures { result.now ≡ worker_unit self }
    {
        match self {
            WorkerMetric::Users => "",
            _ => "e-6",
        }
    }
}
