//! The metrics of the server itself.
ghost use Rattle.std.specs.Prelude.{◌≡◌};
ghost use Rattle.tc_metrics.specs.MetricsText.{own_name, own_help, own_is_gauge, own_number, own_unit};
ghost use Rattle.tc_metrics.specs.MetricsText.{own_metrics};

/// The figures of the server.
#[derive(Clone, Copy, PartialEq, Eq)]
pub struct ServerFigures {
    /// Connections that have not logged in.
    pub unbound: u64,
    /// Logins that were refused.
    pub refused_logins: u64,
    /// Connections that were closed, or not let in, for a limit on connections.
    pub limited: u64,
    /// Notices that got no line of their own in the log.
    pub left_out: u64,
    /// Resident memory in bytes; 0 if unknown.
    pub resident: u64,
    /// Processor time in milliseconds; 0 if unknown.
    pub cpu_millis: u64,
    /// How many descriptors are open; 0 if unknown.
    pub open_fds: u64,
    /// How many descriptors may be open; 0 if unknown.
    pub max_fds: u64,
    /// How many seconds the server has run.
    pub uptime: u64,
}

/// A metric of the server.
#[derive(Clone, Copy, PartialEq, Eq)]
pub enum OwnMetric {
    UnboundConnections,
    RefusedLogins,
    LimitedConnections,
    LeftOutLines,
    ResidentMemory,
    CpuSeconds,
    OpenFds,
    MaxFds,
    Uptime,
}

impl OwnMetric {
    /// Returns all of them, in the order in which the text has them.
    #[tactic(auto, unfolding(crate::specs::MetricsText::own_metrics))]
    pub fn all() -> [OwnMetric; 9]
        ensures { result ≡ own_metrics }
    {
        [
            OwnMetric::UnboundConnections,
            OwnMetric::RefusedLogins,
            OwnMetric::LimitedConnections,
            OwnMetric::LeftOutLines,
            OwnMetric::ResidentMemory,
            OwnMetric::CpuSeconds,
            OwnMetric::OpenFds,
            OwnMetric::MaxFds,
            OwnMetric::Uptime,
        ]
    }

    /// Returns its name.
    pub fn name(self) -> &'static str
        ensures { result.now ≡ own_name self }
    {
        match self {
            OwnMetric::UnboundConnections => "partcached_unbound_connections",
            OwnMetric::RefusedLogins => "partcached_refused_logins_total",
            OwnMetric::LimitedConnections => "partcached_limited_connections_total",
            OwnMetric::LeftOutLines => "partcached_left_out_lines_total",
            OwnMetric::ResidentMemory => "process_resident_memory_bytes",
            OwnMetric::CpuSeconds => "process_cpu_seconds_total",
            OwnMetric::OpenFds => "process_open_fds",
            OwnMetric::MaxFds => "process_max_fds",
            OwnMetric::Uptime => "partcached_uptime_seconds",
        }
    }

    /// Returns its help, of one line.
    pub fn help(self) -> &'static str
        ensures { result.now ≡ own_help self }
    {
        match self {
            OwnMetric::UnboundConnections => "Open connections that have not logged in.",
            OwnMetric::RefusedLogins => "Logins that were refused.",
            OwnMetric::LimitedConnections =>
                "Connections that were closed, or not let in, for a limit.",
            OwnMetric::LeftOutLines => "Lines that were left out of the log.",
            OwnMetric::ResidentMemory => "Resident memory in bytes.",
            OwnMetric::CpuSeconds => "Processor time in seconds.",
            OwnMetric::OpenFds => "Open descriptors.",
            OwnMetric::MaxFds => "Descriptors that may be open.",
            OwnMetric::Uptime => "Seconds since the start.",
        }
    }

    /// Whether it is a gauge, which may go down; otherwise it is a counter.
    pub fn is_gauge(self) -> bool
        ensures { result ≡ own_is_gauge self }
    {
        !matches!(
            self,
            OwnMetric::RefusedLogins
                | OwnMetric::LimitedConnections
                | OwnMetric::LeftOutLines
                | OwnMetric::CpuSeconds
        )
    }

    /// Returns its value.
    pub fn number(self, server: &ServerFigures) -> u64
        ensures { result ≡ own_number self server.now }
    {
        match self {
            OwnMetric::UnboundConnections => server.unbound,
            OwnMetric::RefusedLogins => server.refused_logins,
            OwnMetric::LimitedConnections => server.limited,
            OwnMetric::LeftOutLines => server.left_out,
            OwnMetric::ResidentMemory => server.resident,
            OwnMetric::CpuSeconds => server.cpu_millis,
            OwnMetric::OpenFds => server.open_fds,
            OwnMetric::MaxFds => server.max_fds,
            OwnMetric::Uptime => server.uptime,
        }
    }

    /// Returns what follows its value: an exponent if it counts thousandths, otherwise nothing.
    pub fn unit(self) -> &'static str
        ensures { result.now ≡ own_unit self }
    {
        match self {
            OwnMetric::CpuSeconds => "e-3",
            _ => "",
        }
    }
}
