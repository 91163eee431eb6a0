//! Laws of the format. The functions are empty: each contract is the law.
ghost use Rattle.judy_journal.specs.Crashes.{JournalIsExact};
ghost use Rattle.judy_journal.specs.Readings.{ReadingIsFound};
ghost use Rattle.judy_journal.specs.Recovered.{RecoveredIsWhole, RecoveryIsFound};
ghost use Rattle.judy_journal.specs.Recoveries.{CrashesKeepMarks, RecoveryIsExact};

/// After a crash, recovery finds the commits that were synced and the first of those that were
/// written after them, with all their records, in their order. These are all the first whole commits
/// of the file, whatever comes after them. Nothing else is found, whatever bytes are behind what was
/// synced, if the checksums tell what was not written.
pub fn recovery_is_exact()
    ensures { RecoveryIsExact }
{}

/// The commits that a reader tells are in the text, byte by byte and with their checksums, and what
/// it tells of the rest is no whole commit.
pub fn what_is_read_is_found()
    ensures { ReadingIsFound }
{}

/// A front of what was written is never told as another header or another mark.
pub fn crashes_keep_marks()
    ensures { CrashesKeepMarks }
{}

/// Over all segments: after a crash, recovery finds the commits that were there when the writer
/// began, those that were synced since, and the first of the others, with all their records, in
/// their order. Nothing else is found, under the same premise.
pub fn journal_is_exact()
    ensures { JournalIsExact }
{}

/// What a recovery tells of all files is found in them.
pub fn what_is_recovered_is_found()
    ensures { RecoveryIsFound }
{}

/// What a recovery read, once the torn tail was cut off and synced, is whole files, and its position
/// is where a writer of them goes on.
pub fn what_is_recovered_is_whole()
    ensures { RecoveredIsWhole }
{}
