//! The journal of the loop: the records of the lines that were run, kept before they are answered.
ghost use Rattle.std.specs.Prelude.{◌≡◌, ◌<◌, [], ◌∷◌, Bool, IsTrue, None, length, true, false, option_map};
ghost use Rattle.judy_journal.specs.Journals.{record_of};
ghost use Rattle.judy_journal.specs.Writes.{IsShortRecord, begun, secured};
ghost use Rattle.judy_journal.specs.declared.format.TheConstants.{LAST_SEGMENT};
ghost use Rattle.judy_many.specs.Deciding.{is_owed as is_owed_lem, is_timed as is_timed_lem, syncs_now as syncs_now_lem};
ghost use Rattle.judy_many.specs.Books.{has_room as has_room_for, journal_of, noted_by, opened};
ghost use Rattle.judy_many.specs.Journaling.{AreSettled, AreWritten, HasWritten, IsSecured};
ghost use Rattle.judy_many.specs.Nets.{DidLog, keep_acts};
ghost use Rattle.judy_many.specs.declared.network.Sync.{Sync as SyncLem};

use crate::network::{Network, Sync};
use crate::times::is_past;
use judy_journal::{LAST_SEGMENT, Writer};
use std::marker::Model;

/// Appends the text that a writer made last. False if that fails.
fn keep_text<N: Network>(network: &mut N, writer: &Writer) -> bool
    requires { 0 < length writer.now.text }
    ensures { DidLog (N.log network.old) (keep_acts result writer.now.text) (N.log network.new) }
{
    network.keep(writer.text())
}

/// Begins the segment after that of the writer: makes its file, keeps its header, and syncs it. False
/// if the journal fails.
///
/// A journal that has no segment yet gets its first one by a writer of segment 0.
pub fn begin_segment<N: Network>(network: &mut N, writer: &mut Writer) -> bool
    requires ended { writer.old.records ≡ [] }
    requires number { writer.old.segment < LAST_SEGMENT }
    ensures writer { writer.new ≡ begun writer.old }
    ensures written { (rule : SyncLem) → HasWritten result (journal_of rule true writer.old)
        (journal_of rule true writer.new) (N.log network.old) (N.log network.new) }
{
    writer.next_segment();
    if !network.begin(writer.segment()) {
        return false;
    }
    if !keep_text(network, &*writer) {
        return false;
    }
    network.sync()
}

/// Ends the commit of a writer with its note, and keeps it. False if the journal fails.
fn end_commit<N: Network>(network: &mut N, writer: &mut Writer) -> bool
    requires some { 0 < length writer.old.records }
    ensures none { writer.new.records ≡ [] }
    ensures written { (rule : SyncLem) (clean : Bool) → HasWritten result (journal_of rule clean writer.old)
        (journal_of rule false writer.new) (N.log network.old) (N.log network.new) }
{
    writer.end_noted();
    keep_text(network, &*writer)
}

/// Syncs what was kept. False if the journal fails.
fn sync_all<N: Network>(network: &mut N, writer: &mut Writer, clean: &mut bool) -> bool
    ensures clean { clean.new ≡ true }
    ensures writer { writer.new ≡ secured writer.old }
    ensures written { (rule : SyncLem) → HasWritten result (journal_of rule clean.old writer.old)
        (journal_of rule clean.new writer.new) (N.log network.old) (N.log network.new) }
{
    *clean = true;
    writer.secure();
    network.sync()
}

/// Begins the next segment if this one is full. False if the journal fails.
fn next_if_full<N: Network>(network: &mut N, writer: &mut Writer, clean: &mut bool) -> bool
    requires ended { writer.old.records ≡ [] }
    ensures none { writer.new.records ≡ [] }
    ensures written { (rule : SyncLem) → HasWritten result (journal_of rule clean.old writer.old)
        (journal_of rule clean.new writer.new) (N.log network.old) (N.log network.new) }
{
    if writer.segment() >= LAST_SEGMENT || !network.is_full(writer.size()) {
        return true;
    }
    if !sync_all(network, writer, clean) {
        return false;
    }
    begin_segment(network, writer)
}

/// Keeps the records that are in no commit yet, as one commit, if there are any. False if the journal
/// fails.
fn keep_commit<N: Network>(network: &mut N, writer: &mut Writer, clean: &mut bool) -> bool
    ensures none { result ≡ true → writer.new.records ≡ [] }
    ensures written { (rule : SyncLem) → HasWritten result (journal_of rule clean.old writer.old)
        (journal_of rule clean.new writer.new) (N.log network.old) (N.log network.new) }
{
    if writer.is_empty() {
        return true;
    }
    *clean = false;
    if !end_commit(network, writer) {
        return false;
    }
    next_if_full(network, writer, clean)
}

/// Whether the journal is synced every few seconds.
fn is_timed(rule: Sync) -> bool
    ensures { result ≡ is_timed_lem rule }
{
    match rule {
        Sync::Round => false,
        Sync::Never => false,
        Sync::Seconds(_) => true,
    }
}

/// Whether what was kept has to be synced at this second. If the clock fails, it has to.
fn syncs_now(rule: Sync, since: u64, now: Option<u64>) -> bool
    ensures { result ≡ syncs_now_lem rule since now }
{
    match rule {
        Sync::Round => true,
        Sync::Never => false,
        Sync::Seconds(limit) => is_past(Some(limit), since, now),
    }
}

/// The second, where the rule asks for it. None if the clock fails.
fn second_for<N: Network>(network: &mut N, rule: Sync) -> Option<u64>
    ensures { DidLog (N.log network.old) [] (N.log network.new) }
{
    match rule {
        Sync::Round => None,
        Sync::Never => None,
        Sync::Seconds(_) => network.seconds(),
    }
}

/// Whether what was kept has to be synced now. If so, it notes the second.
fn is_due<N: Network>(network: &mut N, rule: Sync, since: &mut u64) -> bool
    ensures log { DidLog (N.log network.old) [] (N.log network.new) }
    ensures round { rule ≡ Sync.Round → result ≡ true }
{
    let now = second_for(network, rule);
    let due = syncs_now(rule, *since, now);
    if due {
        *since = now.unwrap_or(0);
    }
    due
}

/// Syncs what was kept, if it has to be synced now. False if the journal fails.
fn sync_if_due<N: Network>(
    network: &mut N,
    writer: &mut Writer,
    rule: Sync,
    clean: &mut bool,
    since: &mut u64,
) -> bool
    ensures secured { result ≡ true → IsSecured rule clean.new }
    ensures none { writer.new.records ≡ writer.old.records }
    ensures written { HasWritten result (journal_of rule clean.old writer.old)
        (journal_of rule clean.new writer.new) (N.log network.old) (N.log network.new) }
{
    if *clean {
        return true;
    }
    if !is_due(network, rule, since) {
        return true;
    }
    sync_all(network, writer, clean)
}

/// The journal, if there is one.
#[derive(Drop)]
pub struct Keeper {
    writer: Option<Box<Writer>>,
    rule: Sync,
    /// Whether all that was kept is synced.
    clean: bool,
    /// The second of the last sync.
    since: u64,
}

impl Model for Keeper {
    ghost use Rattle.std.specs.Prelude.{Option, option_map};
    ghost use Rattle.judy_many.specs.Books.{Journal, journal_of};

    ghost Value = { Option Journal };

    ghost view = { λ k. option_map (λ w. journal_of k.rule k.clean w.value) k.writer };
}

/// A keeper of this journal. Without a rule when it is synced there is none.
fn keep_by(rule: Option<Sync>, writer: Option<Box<Writer>>) -> Keeper
    ensures { result ≡ opened rule (option_map (λ w. w.value) writer) }
{
    match rule {
        Some(rule) => Keeper {
            writer,
            rule,
            clean: true,
            since: 0,
        },
        None => Keeper {
            writer: None,
            rule: Sync::Never,
            clean: true,
            since: 0,
        },
    }
}

impl Keeper {
    /// The journal that the writer goes on with. Without a rule when it is synced there is none.
    pub fn new(rule: Option<Sync>, writer: Option<Box<Writer>>) -> Keeper
        ensures { result ≡ opened rule (option_map (λ w. w.value) writer) }
    {
        keep_by(rule, writer)
    }

    /// Whether there is no journal.
    pub fn is_none(&self) -> bool
        ensures { result ≡ true → self.now ≡ None }
    {
        self.writer.is_none()
    }

    /// Whether the next record has room.
    pub fn has_room(&self) -> bool
        ensures { result ≡ has_room_for self.now }
    {
        self.writer.as_ref().is_none_or(|writer| writer.has_room())
    }

    /// Whether something that was kept still has to be synced.
    pub fn is_owed(&self) -> bool
        ensures { result ≡ is_owed_lem self.now }
    {
        self.writer.is_some() && is_timed(self.rule) && !self.clean
    }

    /// Adds a record to those that the journal must keep.
    pub fn note(&mut self, tenant: &[u8], request: &[u8])
        requires short { IsShortRecord tenant.now request.now }
        requires room { IsTrue (has_room_for self.old) }
        ensures { self.new ≡ noted_by (record_of tenant.now request.now ∷ []) self.old }
    {
        if let Some(writer) = &mut self.writer {
            writer.add(tenant, request);
        }
    }

    /// Keeps the records if the next one has no room. False if the journal fails.
    pub fn make_room<N: Network>(&mut self, network: &mut N) -> bool
        ensures written { AreWritten result self.old self.new (N.log network.old) (N.log network.new) }
        ensures room { result ≡ true → IsTrue (has_room_for self.new) }
    {
        let Some(writer) = &mut self.writer else {
            return true;
        };
        if writer.has_room() {
            return true;
        }
        keep_commit(network, writer, &mut self.clean)
    }

    /// Keeps all records, and syncs them if they have to be. False if the journal fails.
    pub fn settle<N: Network>(&mut self, network: &mut N) -> bool
        ensures written { AreWritten result self.old self.new (N.log network.old) (N.log network.new) }
        ensures settled { result ≡ true → AreSettled self.new }
    {
        let Some(writer) = &mut self.writer else {
            return true;
        };
        if !keep_commit(network, writer, &mut self.clean) {
            return false;
        }
        sync_if_due(network, writer, self.rule, &mut self.clean, &mut self.since)
    }
}
