//! What a connection's next request asks of its owner.

use tc_grammar::Command;
use tc_users::UserNo;

/// What a connection's next request asks of its owner.
#[derive(Drop)]
pub enum Want {
    /// No whole request is there.
    Nothing,
    /// The session answered a fault or a login, or kept quiet as the line asked.
    Said,
    /// The user's cache must do the command. The owner then calls `answer`, `answer_later` or
    /// `refuse` once.
    Call(UserNo, Command),
    /// The session is closed. The owner closes the connection once its output is sent.
    Close,
}
