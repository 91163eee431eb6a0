//! Laws of the journal. The functions are empty: each contract is the law.
ghost use Rattle.judy_many.specs.Journaling.{AnswersAreKept, RepliesAreKept, StoriesAreWritten};

/// What the loop asks of the system for the journal are the acts of a writer of a journal: its commits
/// have the records of the lines that were run and of the tenants that left, all of them, in order.
pub fn stories_are_written()
    ensures { StoriesAreWritten }
{}

/// Before any byte of an answer is written, the records of all lines that were run and of all tenants that
/// left are kept. Where each round is synced, they are on the disk.
pub fn answers_are_kept()
    ensures { AnswersAreKept }
{}

/// So it is before a question of the operator for another table is answered.
pub fn replies_are_kept()
    ensures { RepliesAreKept }
{}
