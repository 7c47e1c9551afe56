//! The promise about one user alone, for connections that threads served.
ghost use Rattle.tc_laws.specs.Retelling.{UserAlone};

/// States that a user's connections are told what a machine with that user alone sends.
///
/// Take a legal book (`Closed` has those of all users) and all connections that made its calls,
/// each since it was opened (`Talk::is_talk`, `answering`). If none of them was refused memory, the
/// machine of that user alone has steps that retell them. On each connection the same bytes arrive,
/// and it asks for requests when its worker did.
///
/// By these steps the machine sends each connection, byte for byte, what its wire took and what
/// still waits. Its calls are the book's, in their order.
pub fn retelling()
    ensures { UserAlone }
{}
