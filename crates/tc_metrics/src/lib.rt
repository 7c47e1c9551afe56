//! The metrics of a server, as Prometheus reads them: each user's `stats`, the workers' figures and
//! the server's own.
//!
//! - `render` makes the text (`specs/MetricsText.antt`): for each metric its help, its type and
//!   each user's line. A user's numbers are those of its `stats`.
//! - `read_request` decides how a request is answered, which `httparse` parses
//!   (`specs/Replies.antt`). `GET /metrics` gets the text, and `HEAD` the headers alone. Another
//!   path or method, a malformed request and one that is too long get an error.
//! - `reply` makes the reply with its text.
//!
//! No clause says that memory suffices, or what a socket does with a reply.
#![tactic(auto)]

mod closed;
mod metric;
mod request;
mod server;
mod text;
mod worker;

pub use closed::{Closed, Reason};
pub use metric::{Metric, UserFigures};
pub use request::{Answer, MOST_HEAD, read_request, reply};
pub use server::{OwnMetric, ServerFigures};
pub use text::render;
pub use worker::{WorkerFigures, WorkerMetric};
