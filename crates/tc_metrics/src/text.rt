//! The text that a scraper reads.
ghost use Rattle.std.specs.Prelude.{◌≡◌, ◌++◌, ◌∷◌, [], decimal, OnOk, IfOk};
ghost use Rattle.std.specs.List.{flat_map};
ghost use Rattle.tc_metrics.specs.MetricsText.{help_line, type_line, head_lines, user_line, metric_text};
ghost use Rattle.tc_metrics.specs.MetricsText.{own_line, own_text, build_name, build_help, build_line};
ghost use Rattle.tc_metrics.specs.MetricsText.{build_text, metrics_text, closed_name, closed_help};
ghost use Rattle.tc_metrics.specs.MetricsText.{closed_line, closed_lines, closed_text};
ghost use Rattle.tc_metrics.specs.MetricsText.{worker_line, worker_text};

use crate::{Metric, OwnMetric, Reason, ServerFigures, UserFigures, WorkerFigures, WorkerMetric};
use itoa::Buffer;
use std::alloc::Global;
use tc_item::NoMemory;

/// Appends bytes.
pub(crate) fn write(out: &mut Vec<u8>, text: &[u8]) -> Result<(), NoMemory>
    ensures { OnOk result (out.new.items ≡ out.old.items ++ text.now) }
{
    Ok(out.extend_from_slice(text)?)
}

/// Appends a number and a line feed.
pub(crate) fn write_number(out: &mut Vec<u8>, number: u64) -> Result<(), NoMemory>
    ensures { OnOk result (out.new.items ≡ out.old.items ++ (decimal number ++ 10 ∷ [])) }
{
    let mut buffer = Buffer::new();
    write(out, buffer.format(number).as_bytes())?;
    write(out, b"\n")
}

/// Appends a metric's `HELP` line.
#[tactic(auto, unfolding(crate::specs::MetricsText::help_line))]
fn write_help(out: &mut Vec<u8>, name: &str, help: &str) -> Result<(), NoMemory>
    ensures { OnOk result (out.new.items ≡ out.old.items ++ help_line name.now help.now) }
{
    write(out, b"# HELP ")?;
    write(out, name.as_bytes())?;
    write(out, b" ")?;
    write(out, help.as_bytes())?;
    write(out, b"\n")
}

/// Appends a metric's `TYPE` line.
#[tactic(auto, unfolding(crate::specs::MetricsText::type_line))]
fn write_type(out: &mut Vec<u8>, name: &str, is_gauge: bool) -> Result<(), NoMemory>
    ensures { OnOk result (out.new.items ≡ out.old.items ++ type_line name.now is_gauge) }
{
    write(out, b"# TYPE ")?;
    write(out, name.as_bytes())?;
    write(out, b" ")?;
    write(out, if is_gauge { b"gauge" } else { b"counter" })?;
    write(out, b"\n")
}

/// Appends a metric's `HELP` and `TYPE` lines.
#[tactic(auto, unfolding(crate::specs::MetricsText::head_lines))]
fn write_head(out: &mut Vec<u8>, name: &str, help: &str, is_gauge: bool) -> Result<(), NoMemory>
    ensures { OnOk result (out.new.items
        ≡ out.old.items ++ head_lines name.now help.now is_gauge) }
{
    write_help(out, name, help)?;
    write_type(out, name, is_gauge)
}

/// Appends a user's line of a metric.
#[tactic(auto, unfolding(crate::specs::MetricsText::user_line))]
fn write_user(out: &mut Vec<u8>, metric: Metric, user: &UserFigures) -> Result<(), NoMemory>
    ensures { OnOk result (out.new.items ≡ out.old.items ++ user_line metric user.now) }
{
    write(out, metric.name().as_bytes())?;
    write(out, b"{user=\"")?;
    write(out, &user.name)?;
    write(out, b"\"} ")?;
    write_number(out, metric.number(user))
}

/// Appends each user's line of a metric.
fn write_users(out: &mut Vec<u8>, metric: Metric, users: &[UserFigures]) -> Result<(), NoMemory>
    ensures { OnOk result (out.new.items ≡ out.old.items ++ flat_map (user_line metric) users.now) }
{
    for user in users {
        write_user(out, metric, user)?;
    }
    Ok(())
}

/// Appends a metric.
#[tactic(auto, unfolding(crate::specs::MetricsText::metric_text))]
fn write_metric(out: &mut Vec<u8>, metric: Metric, users: &[UserFigures]) -> Result<(), NoMemory>
    ensures { OnOk result (out.new.items ≡ out.old.items ++ metric_text users.now metric) }
{
    write_head(out, metric.name(), metric.help(), metric.is_gauge())?;
    write_users(out, metric, users)
}

/// Appends these metrics.
fn write_metrics(
    out: &mut Vec<u8>,
    metrics: &[Metric],
    users: &[UserFigures],
) -> Result<(), NoMemory>
    ensures { OnOk result (out.new.items
        ≡ out.old.items ++ flat_map (metric_text users.now) metrics.now) }
{
    for metric in metrics {
        write_metric(out, *metric, users)?;
    }
    Ok(())
}

/// Appends a user's line of the connections that a limit closed for this reason.
#[tactic(auto, unfolding(crate::specs::MetricsText::closed_line))]
fn write_reason(out: &mut Vec<u8>, reason: Reason, user: &UserFigures) -> Result<(), NoMemory>
    ensures { OnOk result (out.new.items ≡ out.old.items ++ closed_line user.now reason) }
{
    write(out, closed_name().as_bytes())?;
    write(out, b"{user=\"")?;
    write(out, &user.name)?;
    write(out, b"\",reason=\"")?;
    write(out, reason.word().as_bytes())?;
    write(out, b"\"} ")?;
    write_number(out, reason.number(&user.closed))
}

/// Appends a user's lines of these reasons.
fn write_reasons(out: &mut Vec<u8>, reasons: &[Reason], user: &UserFigures) -> Result<(), NoMemory>
    ensures { OnOk result (out.new.items
        ≡ out.old.items ++ flat_map (closed_line user.now) reasons.now) }
{
    for reason in reasons {
        write_reason(out, *reason, user)?;
    }
    Ok(())
}

/// Appends each user's lines of the connections that limits closed.
fn write_closed_users(out: &mut Vec<u8>, users: &[UserFigures]) -> Result<(), NoMemory>
    ensures { OnOk result (out.new.items ≡ out.old.items ++ flat_map closed_lines users.now) }
{
    for user in users {
        write_reasons(out, &Reason::all(), user)?;
    }
    Ok(())
}

/// Returns the name of the metric of connections that limits closed.
fn closed_name() -> &'static str
    ensures { result.now ≡ closed_name }
{
    "partcached_closed_connections_total"
}

/// Returns its help line.
fn closed_help() -> &'static str
    ensures { result.now ≡ closed_help }
{
    "Connections of the user that a limit closed."
}

/// Appends the metric of connections that limits closed.
#[tactic(auto, unfolding(crate::specs::MetricsText::closed_text))]
fn write_closed(out: &mut Vec<u8>, users: &[UserFigures]) -> Result<(), NoMemory>
    ensures { OnOk result (out.new.items ≡ out.old.items ++ closed_text users.now) }
{
    write_head(out, closed_name(), closed_help(), false)?;
    write_closed_users(out, users)
}

/// Appends a worker's line of a metric.
#[tactic(auto, unfolding(crate::specs::MetricsText::worker_line))]
fn write_worker(
    out: &mut Vec<u8>,
    metric: WorkerMetric,
    worker: &WorkerFigures,
) -> Result<(), NoMemory>
    ensures { OnOk result (out.new.items ≡ out.old.items ++ worker_line metric worker.now) }
{
    let mut buffer = Buffer::new();
    write(out, metric.name().as_bytes())?;
    write(out, b"{worker=\"")?;
    write(out, buffer.format(worker.worker).as_bytes())?;
    write(out, b"\"} ")?;
    write(out, buffer.format(metric.number(worker)).as_bytes())?;
    write(out, metric.unit().as_bytes())?;
    write(out, b"\n")
}

/// Appends each worker's line of a metric.
fn write_workers(
    out: &mut Vec<u8>,
    metric: WorkerMetric,
    workers: &[WorkerFigures],
) -> Result<(), NoMemory>
    ensures { OnOk result (out.new.items
        ≡ out.old.items ++ flat_map (worker_line metric) workers.now) }
{
    for worker in workers {
        write_worker(out, metric, worker)?;
    }
    Ok(())
}

/// Appends a metric of workers.
#[tactic(auto, unfolding(crate::specs::MetricsText::worker_text))]
fn write_worker_metric(
    out: &mut Vec<u8>,
    metric: WorkerMetric,
    workers: &[WorkerFigures],
) -> Result<(), NoMemory>
    ensures { OnOk result (out.new.items ≡ out.old.items ++ worker_text workers.now metric) }
{
    write_head(out, metric.name(), metric.help(), metric.is_gauge())?;
    write_workers(out, metric, workers)
}

/// Appends these metrics of workers.
fn write_worker_metrics(
    out: &mut Vec<u8>,
    metrics: &[WorkerMetric],
    workers: &[WorkerFigures],
) -> Result<(), NoMemory>
    ensures { OnOk result (out.new.items
        ≡ out.old.items ++ flat_map (worker_text workers.now) metrics.now) }
{
    for metric in metrics {
        write_worker_metric(out, *metric, workers)?;
    }
    Ok(())
}

/// Appends the line of a metric of the server.
#[tactic(auto, unfolding(crate::specs::MetricsText::own_line))]
fn write_own_line(
    out: &mut Vec<u8>,
    metric: OwnMetric,
    server: &ServerFigures,
) -> Result<(), NoMemory>
    ensures { OnOk result (out.new.items ≡ out.old.items ++ own_line server.now metric) }
{
    let mut buffer = Buffer::new();
    write(out, metric.name().as_bytes())?;
    write(out, b" ")?;
    write(out, buffer.format(metric.number(server)).as_bytes())?;
    write(out, metric.unit().as_bytes())?;
    write(out, b"\n")
}

/// Appends a metric of the server.
#[tactic(auto, unfolding(crate::specs::MetricsText::own_text))]
fn write_own(out: &mut Vec<u8>, metric: OwnMetric, server: &ServerFigures) -> Result<(), NoMemory>
    ensures { OnOk result (out.new.items ≡ out.old.items ++ own_text server.now metric) }
{
    write_head(out, metric.name(), metric.help(), metric.is_gauge())?;
    write_own_line(out, metric, server)
}

/// Returns the name of the metric that names the release.
fn build_name() -> &'static str
    ensures { result.now ≡ build_name }
{
    "partcached_build_info"
}

/// Returns its help, of one line.
fn build_help() -> &'static str
    ensures { result.now ≡ build_help }
{
    "The release that runs."
}

/// Appends the line of the metric that names the release.
#[tactic(auto, unfolding(crate::specs::MetricsText::build_line))]
fn write_build_line(out: &mut Vec<u8>, version: &str) -> Result<(), NoMemory>
    ensures { OnOk result (out.new.items ≡ out.old.items ++ build_line version.now) }
{
    write(out, build_name().as_bytes())?;
    write(out, b"{version=\"")?;
    write(out, version.as_bytes())?;
    write(out, b"\"} 1\n")
}

/// Appends the metric that names the release.
#[tactic(auto, unfolding(crate::specs::MetricsText::build_text))]
fn write_build(out: &mut Vec<u8>, version: &str) -> Result<(), NoMemory>
    ensures { OnOk result (out.new.items ≡ out.old.items ++ build_text version.now) }
{
    write_head(out, build_name(), build_help(), true)?;
    write_build_line(out, version)
}

/// Appends these metrics of the server.
fn write_server(
    out: &mut Vec<u8>,
    metrics: &[OwnMetric],
    server: &ServerFigures,
) -> Result<(), NoMemory>
    ensures { OnOk result (out.new.items
        ≡ out.old.items ++ flat_map (own_text server.now) metrics.now) }
{
    for metric in metrics {
        write_own(out, *metric, server)?;
    }
    Ok(())
}

/// Makes the whole text: each metric with each user's line, the connections that limits closed, each
/// worker's metrics, the release, and the server's own metrics.
pub fn render(
    alloc: Global,
    users: &[UserFigures],
    workers: &[WorkerFigures],
    version: &str,
    server: &ServerFigures,
) -> Result<Vec<u8>, NoMemory>
    ensures { IfOk result (λ text. text.items
        ≡ metrics_text users.now workers.now version.now server.now) }
{
    let mut text = Vec::new(alloc);
    write_metrics(&mut text, &Metric::all(), users)?;
    write_closed(&mut text, users)?;
    write_worker_metrics(&mut text, &WorkerMetric::all(), workers)?;
    write_build(&mut text, version)?;
    write_server(&mut text, &OwnMetric::all(), server)?;
    Ok(text)
}
