//! Laws of a worker's connections over turns and what happens between them.
ghost use Rattle.tc_workers.specs.Staying.{TurnKeepsOpen, OpeningKeepsOpen, TakingKeepsOpen};
ghost use Rattle.tc_workers.specs.Staying.{PassingKeepsOpen, DroppingKeepsOpen};
ghost use Rattle.tc_workers.specs.Answering.{CrewAnswers};

/// States that each connection of a worker goes on and was served by one table alone, while all
/// turns are by that table. So it is a talk since it was opened (`Talk::is_talk`). A connection
/// that is taken over must be one too when it arrives.
pub fn staying_open()
    ensures turn { TurnKeepsOpen }
    ensures opening { OpeningKeepsOpen }
    ensures taking { TakingKeepsOpen }
    ensures passing { PassingKeepsOpen }
    ensures dropping { DroppingKeepsOpen }
{}

/// States that a crew's connections get the replies that are in their users' books.
///
/// The crew starts with no connection, and all turns are by one table of users. Once the hall is
/// closed, the calls that a connection made since it was opened are in its user's book. Each is
/// there once, in the order in which the connection made them, whichever workers served it.
///
/// The law covers a connection that a worker has after the last event, and one that left a worker,
/// as it was then. It says nothing of the last calls of a dropped connection. A connection that
/// comes from another worker must come as it left that one.
pub fn answering()
    ensures { CrewAnswers }
{}
