//! The tenants of a table, as a connection and a program see them.
ghost use Rattle.std.specs.Prelude.{◌≡◌, None, option_map, slice_index, true};
ghost use Rattle.std.proofs.Common.{ap, refl};
ghost use Rattle.judy_table.specs.Seats.{goes_on, journal_at};
ghost use Rattle.judy_table.specs.Shown.{seen};
ghost use Rattle.judy_protocol.specs.Sending.{MaySend};
ghost use Rattle.judy_protocol.specs.Serving.{wire};
ghost use Rattle.judy_protocol.specs.Talks.{as_heard};
ghost use Rattle.judy_programs.specs.Program.{HasRun, IsSent, MayPullScript, is_refused};
ghost use Rattle.judy_server.specs.Limits.{IsLifted, IsLimited};
ghost use Rattle.judy_server.specs.Reloads.{IsReload, leavers};
ghost use Rattle.judy_server.specs.Served.{IsServedStep, IsNewService, IsNoted, IsUnreserved, seen_of, held_words};
ghost use Rattle.judy_model.specs.Stream.{lines_of};
ghost use Rattle.judy_programs.specs.Tables.{MayPullTable};
ghost use Rattle.judy_server.specs.Replays.{AreReplayed, AreReplayed-append, Plays, PlaysAll};
ghost use Rattle.judy_server.specs.Status.{status_of};
ghost use Rattle.judy_server.specs.Tally.{Tallied, last_name};

use crate::leavers::find_leavers;
use crate::limits::{lift, limit};
use crate::present::tenant_of;
use crate::records::{Halt, replay, replay_all};
use crate::reload::{change, name_of};
use crate::status::add_status;
use crate::tally::{Tally, refused_name};
use arrayvec::ArrayVec;
use judy_journal::Unplayed;
use judy_many::Shows;
use judy_model::{Call, KEY_LIMIT, LINE_LIMIT, Name, Reply, ReplyRoom};
use judy_programs::{Opens, Ran, Replays, Unopened, run_with};
use judy_protocol::{Batch, Line, Refusal, Served};
use judy_recovery::{Halt as Stopped, JournalFault, Reason};
use judy_stream::{Sink, Source};
use judy_table::{Speaker, Table};
use judy_tenants::{OrderHash, Service, Sha256Hash};
use std::alloc::{AllocError, Global};
use std::marker::Model;

/// How many words a megabyte has.
const MEGABYTE: u64 = 131_072;

/// For how many names there is room in a megabyte that is taken beforehand: one for each 2,048 words.
/// Each array with entries has at least one piece, and memory for all pieces is 2,048 words for each.
const NAMES: usize = 64;

/// A hash of byte keys that can be made from nothing.
pub trait Chosen: OrderHash {
    /// The hash.
    fn chosen() -> Self;
}

impl Chosen for Sha256Hash {
    fn chosen() -> Sha256Hash {
        Sha256Hash
    }
}

/// The tenants of a table, each with its own arrays, in one arena, and the counts of their lines.
/// JudyHS hashes keys by H.
#[derive(Drop)]
pub struct Server<H: Chosen> {
    service: Service<H>,
    tally: Tally,
}

impl<H: Chosen> Model for Server<H> {
    ghost use Rattle.judy_server.specs.Tally.{Tallied, tallied};

    ghost Value = { Tallied };

    ghost view = { λ s. tallied s.service s.tally };
}

impl<H: Chosen> Served for Server<H> {
    type Speaker = Speaker;

    ghost who = { seen };

    ghost seen = { seen_of };

    ghost made = { IsServedStep };

    fn login(&self, name: &[u8], token: &[u8]) -> Option<Speaker> {
        self.service.login(name, token)
    }

    fn name(&self, speaker: Speaker) -> &[u8] {
        self.service.rows_are_sound();
        self.service.name(speaker.tenant)
    }

    fn call<'a>(
        &mut self,
        alloc: Global,
        speaker: Speaker,
        call: &Call<'_>,
        found: &'a mut ReplyRoom,
    ) -> Reply<'a> {
        self.service.call(alloc, speaker, call, found)
    }

    ghost apart = { λ before after event reply made. made.called };
}

impl<H: Chosen> Shows for Server<H> {
    ghost status = { status_of };

    ghost noted = { IsNoted };

    ghost changed = { IsReload };

    ghost caps = { λ t. journal_at t.held.tenants };

    ghost leavers = { λ t. leavers t.held.tenants };

    ghost admits = { λ t speaker. goes_on t.held.tenants (seen speaker) speaker.digest };

    ghost refused = { λ t. t.tally.logins };

    ghost last = { last_name };

    ghost short = { λ t. slice_index t.tally.replies 2 };

    fn show(&self, speakers: &[Option<Speaker>], text: &mut Vec<u8>) -> Result<(), AllocError> {
        add_status(text, &self.service, &self.tally, speakers)
    }

    fn note(&mut self, speaker: Option<Speaker>, asked: &Result<Line<'_>, Refusal>, answer: &[u8])
        ensures { IsNoted self.old (option_map seen speaker) (as_heard asked.now) answer.now self.new }
    {
        self.tally.count(asked, answer);
        self.tally.count_for(tenant_of(speaker), answer);
        if let Some(name) = refused_name(asked, answer) {
            self.tally.refuse(self.service.find(name));
        }
    }

    fn refused_logins(&self) -> u64 {
        self.tally.logins
    }

    fn last_refused(&self) -> &[u8] {
        let Some(tenant) = self.tally.last else {
            return b"";
        };
        name_of(&self.service, tenant)
    }

    fn refused_requests(&self) -> u64 {
        self.tally.refused_requests()
    }

    fn find_leavers(
        &self,
        alloc: Global,
        text: &[u8],
        request: &mut ArrayVec<u8, LINE_LIMIT>,
    ) -> Result<Option<Name>, AllocError> {
        find_leavers(alloc, &self.service, text, request)
    }

    fn change(&mut self, alloc: Global, text: &[u8], told: &mut Vec<u8>) -> bool {
        change(alloc, &mut self.service, &mut self.tally, text, told)
    }

    fn knows(&self, speaker: Speaker) -> bool {
        self.service.knows(speaker)
    }

    fn tenant(&self, speaker: Speaker) -> usize {
        speaker.tenant.place() as usize
    }

    fn journal_limit(&self, speaker: Speaker) -> Option<u64> {
        self.service.journal_limit(speaker.tenant)
    }

    fn has(&self, name: &[u8]) -> bool {
        self.service.find(name).is_some()
    }

    ghost stays = { λ before after text changed. changed.keeps };

    ghost unseen = { λ before after who line answer noted. ap seen_of noted };
}

impl<H: Chosen> Opens for Server<H> {
    ghost is_new = { IsNewService };

    ghost unreserved = { IsUnreserved };

    ghost words_in = { held_words };

    fn open(alloc: Global, secret: &[u8], text: &[u8]) -> Result<Server<H>, Unopened> {
        let table = match Table::parse(alloc, text) {
            Ok(table) => table,
            Err(fault) => return Err(Unopened::Table(fault)),
        };
        match Service::new(alloc, table, secret, H::chosen()) {
            Ok(service) => {
                service.rows_are_sound();
                Ok(Server {
                    service,
                    tally: Tally::new(),
                })
            }
            Err(_) => Err(Unopened::Memory),
        }
    }

    fn reserve(&mut self, alloc: Global, megabytes: u32) -> bool {
        let words = megabytes as u64 * MEGABYTE;
        let names = megabytes as usize * NAMES;
        self.service.reserve(alloc, words, names).is_ok()
    }

    fn live_words(&self) -> u64 {
        self.service.live_words()
    }
}

impl<H: Chosen> Server<H> {
    /// Plays a record: makes its call for the tenant that it names, or frees the arrays of the tenants that
    /// left. A name that no tenant has is noted as absent. The call's key, and a key that it finds, are put
    /// into `key` and `found`. Nothing is counted.
    ///
    /// Err: no array changed.
    pub fn replay(
        &mut self,
        alloc: Global,
        bytes: &[u8],
        key: &mut [u8; KEY_LIMIT],
        found: &mut ReplyRoom,
    ) -> Result<(), Unplayed>
        ensures { Plays bytes.now self.old result self.new }
    {
        replay(alloc, &mut self.service, &mut self.tally, bytes, key, found)
    }

    /// Plays the records of a text, each of which ends with an LF, one after another, up to the first
    /// that cannot be played.
    pub fn replay_all(
        &mut self,
        alloc: Global,
        text: &[u8],
        key: &mut [u8; KEY_LIMIT],
        found: &mut ReplyRoom,
    ) -> Result<(), Halt>
        ensures { PlaysAll (lines_of text.now) self.old result self.new }
    {
        replay_all(alloc, &mut self.service, &mut self.tally, text, key, found)
    }
}

/// Why a record is not played, as the reading of a journal tells it.
fn reason_of(why: Unplayed) -> Reason {
    match why {
        Unplayed::Record => Reason::Record,
        Unplayed::Tenant => Reason::Tenant,
        Unplayed::Full => Reason::Full,
        Unplayed::Memory => Reason::Memory,
    }
}

impl<H: Chosen> Replays for Server<H> {
    ghost lifted = { IsLifted };

    fn lift(&mut self, alloc: Global) -> Option<Table> {
        lift(alloc, &mut self.service)
    }

    ghost limited = { IsLimited };

    fn limit(&mut self, alloc: Global, table: Table) -> Result<(), JournalFault> {
        limit(alloc, &mut self.service, &self.tally, table)
    }

    ghost replayed = { AreReplayed };

    fn replay(&mut self, alloc: Global, records: &[u8]) -> Result<(), Stopped> {
        let mut key = [0u8; KEY_LIMIT];
        let mut found = ReplyRoom::new();
        match replay_all(
            alloc,
            &mut self.service,
            &mut self.tally,
            records,
            &mut key,
            &mut found,
        ) {
            Ok(()) => Ok(()),
            Err(Halt { played, why }) => Err(Stopped {
                played,
                why: reason_of(why),
            }),
        }
    }

    ghost rests = { λ service. refl };

    ghost joins = { λ before middle after records more first then.
        AreReplayed-append records more before middle after first then };
}

/// `judyd run`: reads a table of tenants and the line `---` that ends it. Then it serves the script
/// that follows to these tenants. `batch` says which answers are written at once. If `words` is true
/// and the script was served to its end, it writes a last line with the words of all blocks of all
/// arrays.
///
/// The source may be pulled while no table has ended in what it gave and one may still end. Then it
/// may be pulled once all lines of the script that came so far have their answers, written and
/// flushed, and none of them asked to quit.
pub fn run<H: Chosen, R: Source, W: Sink>(
    alloc: Global,
    secret: &[u8],
    r: &mut R,
    w: &mut W,
    words: bool,
    batch: Batch,
) -> Ran
    requires table { MayPullTable R.source r.old }
    requires prompt { MayPullScript IsServedStep seen_of held_words (IsNewService secret.now None)
        R.source W.sink (wire R.source W.sink r.old w.old) }
    requires answers { MaySend W.sink (IsSent batch) w.old }
    ensures runs { HasRun IsServedStep seen_of held_words (IsNewService secret.now None) words batch result
        (wire R.source W.sink r.old w.old)
        (wire R.source W.sink r.new w.new) }
    ensures quiet { is_refused result ≡ true → w.new ≡ w.old }
{
    run_with::<Server<H>, R, W>(alloc, secret, r, w, words, batch)
}
