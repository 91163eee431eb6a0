//! The laws of a crash, and of each run of a server.
ghost use Rattle.judy_server.specs.Crashes.{CrashesLoseNothing};
ghost use Rattle.judy_server.specs.Runs.{EveryRunKeepsPromises};

use judy_journal::{journal_is_exact, records_tell_all};
use judy_many::{answers_are_kept, replies_are_kept, stories_are_written};
use judy_model::laws::full_is_for_new_entries;
use judy_programs::Journals;

/// A server that has played its journal serves many clients, and the machine crashes at any moment. A
/// service that plays what is left has the arrays of one moment of that run, tenant by tenant. Where each
/// round is synced, that moment comes after all lines that were answered.
pub fn crashes_lose_nothing()
    ensures { CrashesLoseNothing }
{
    records_tell_all();
    journal_is_exact();
    stories_are_written();
    answers_are_kept();
    replies_are_kept();
}

/// Each run of `judyd serve`, with a journal or without one, over any system, whatever it answers. No connection
/// was served, and the log says why. Or connections were served. Then each connection got the answers to its own
/// lines, each tenant that stayed with its quota got what it would get alone, and `FULL` came exactly for a new
/// entry without room. The words of blocks were bounded by the quotas. With a journal a crash at any moment leaves
/// the arrays of one moment, and loses nothing that was answered if each round is synced.
pub fn every_run_keeps_promises<H: Journals>()
    ensures { EveryRunKeepsPromises H.may_have }
{
    crashes_lose_nothing();
    full_is_for_new_entries();
}
