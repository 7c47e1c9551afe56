//! A scraper's request, and the reply to it.
ghost use Rattle.std.specs.Prelude.{◌≡◌, ◌≤◌, ◌++◌, ℕ, List, length, Some, None, OnOk, IfOk, IsNone};
ghost use Rattle.httparse.specs.Grammar.{RequestHead, ReadsRequest, HasNoRequest};
ghost use Rattle.tc_metrics.specs.Replies.{status_of, is_metrics, answer_to, status_line, common_lines};
ghost use Rattle.tc_metrics.specs.Replies.{header_lines, body_of, reply_of};

use crate::text::write;
use httparse::spans::{EMPTY_HEADER_SPAN, parse_request};
use httparse::{Error, Status};
use itoa::Buffer;
use std::alloc::Global;
use tc_item::NoMemory;

/// The most bytes of a request's head.
pub const MOST_HEAD: usize = 8_192;

/// The most header lines of a request.
const MOST_HEADERS: usize = 64;

/// How a request is answered.
#[derive(Clone, Copy, Debug, PartialEq, Eq)]
pub enum Answer {
    /// 200 with the metrics.
    Told,
    /// 200 with the headers of the metrics' reply alone, for `HEAD`.
    Headed,
    /// 400: the request can't be parsed.
    Malformed,
    /// 404: the request is for another path.
    NotFound,
    /// 405: the request for the metrics is neither `GET` nor `HEAD`.
    NotAllowed,
    /// 431: the request's head is too long, or has too many lines.
    TooLong,
    /// 503: memory for the answer was refused.
    Refused,
}

impl Answer {
    /// Returns its status code and reason.
    pub fn status(self) -> &'static str
        ensures { result.now ≡ status_of self }
    {
        match self {
            Answer::Told | Answer::Headed => "200 OK",
            Answer::Malformed => "400 Bad Request",
            Answer::NotFound => "404 Not Found",
            Answer::NotAllowed => "405 Method Not Allowed",
            Answer::TooLong => "431 Request Header Fields Too Large",
            Answer::Refused => "503 Service Unavailable",
        }
    }
}

/// Whether a target is that of the metrics: `/metrics`, with a query or without.
fn is_metrics(target: &[u8]) -> bool
    ensures { result ≡ is_metrics target.now }
{
    target == b"/metrics".as_slice() || target.starts_with(b"/metrics?".as_slice())
}

/// Returns the answer to a request for this target by this method.
fn answer_to(method: &[u8], target: &[u8]) -> Answer
    ensures { result ≡ answer_to method.now target.now }
{
    if !is_metrics(target) {
        return Answer::NotFound;
    }
    if method == b"GET".as_slice() {
        return Answer::Told;
    }
    if method == b"HEAD".as_slice() {
        return Answer::Headed;
    }
    Answer::NotAllowed
}

/// Returns the answer to the request that came, once its head is complete or can't become so;
/// `None` while more must come.
pub fn read_request(came: &[u8]) -> Option<Answer>
    ensures whole { (h : RequestHead) (rest : List ℕ) → ReadsRequest came.now h rest
        → length h.fields ≤ 64 → result ≡ Some (answer_to h.method h.target) }
    ensures waits { IsNone result → HasNoRequest came.now }
{
    let mut headers = [EMPTY_HEADER_SPAN; MOST_HEADERS];
    match parse_request(came, &mut headers) {
        Ok(Status::Complete(head)) => { Some(answer_to(head.method.of(came), head.path.of(came))) }
        Ok(Status::Partial) if came.len() < MOST_HEAD => None,
        Ok(Status::Partial) | Err(Error::TooManyHeaders) => Some(Answer::TooLong),
        Err(_) => Some(Answer::Malformed),
    }
}

/// Appends the first line of a reply.
#[tactic(auto, unfolding(crate::specs::Replies::status_line))]
fn write_status(out: &mut Vec<u8>, answer: Answer) -> Result<(), NoMemory>
    ensures { OnOk result (out.new.items ≡ out.old.items ++ status_line answer) }
{
    write(out, b"HTTP/1.1 ")?;
    write(out, answer.status().as_bytes())?;
    write(out, b"\r\n")
}

/// Returns the header lines that each reply has, up to the length of its text.
#[tactic(auto, unfolding(crate::specs::Replies::common_lines))]
fn common_lines() -> &'static str
    ensures { result.now ≡ common_lines }
{
    "Content-Type: text/plain; version=0.0.4\r\nAllow: GET, HEAD\r\nConnection: close\r\nContent-Length: "
}

/// Appends the header lines of a reply, and the empty line.
#[tactic(auto, unfolding(crate::specs::Replies::header_lines))]
fn write_headers(out: &mut Vec<u8>, length: usize) -> Result<(), NoMemory>
    ensures { OnOk result (out.new.items ≡ out.old.items ++ header_lines length) }
{
    let mut buffer = Buffer::new();
    write(out, common_lines().as_bytes())?;
    write(out, buffer.format(length).as_bytes())?;
    write(out, b"\r\n\r\n")
}

/// Returns the part of a text that is sent: none for `HEAD`.
fn body_of(answer: Answer, text: &[u8]) -> &[u8]
    ensures { result.now ≡ body_of answer text.now }
{
    match answer {
        Answer::Headed => b"",
        _ => text,
    }
}

/// Makes the reply with this text. For `HEAD` it has the text's length alone.
#[tactic(auto, unfolding(crate::specs::Replies::reply_of))]
pub fn reply(alloc: Global, answer: Answer, text: &[u8]) -> Result<Vec<u8>, NoMemory>
    ensures { IfOk result (λ reply. reply.items ≡ reply_of answer text.now) }
{
    let mut reply = Vec::new(alloc);
    write_status(&mut reply, answer)?;
    write_headers(&mut reply, text.len())?;
    write(&mut reply, body_of(answer, text))?;
    Ok(reply)
}
