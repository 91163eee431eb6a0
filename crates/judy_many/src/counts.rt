//! What the sockets count, and its text. The counts saturate.
ghost use Rattle.std.specs.Prelude.{◌≡◌};

use crate::limits::COUNTS_LIMIT;
use crate::network::How;
use arrayvec::ArrayVec;
use itoa::Buffer;
use judy_model::Name;

/// The text, as it grows.
type Text = ArrayVec<u8, COUNTS_LIMIT>;

/// Connections and bytes since the start.
#[derive(Clone, Copy, Debug)]
pub struct Counts {
    accepted: u64,
    failed: u64,
    quit: u64,
    end: u64,
    fault: u64,
    login: u64,
    idle: u64,
    turn: u64,
    memory: u64,
    gone: u64,
    kick: u64,
    received: u64,
    sent: u64,
    dropped: u64,
}

/// What was written to a journal since the start: zeros if there is none. The counts saturate.
#[derive(Clone, Copy, Debug, PartialEq, Eq)]
pub struct JournalCounts {
    segment: u64,
    bytes: u64,
    unsynced: u64,
    syncs: u64,
    /// Whether changing lines are refused, since there is no room for the next segment.
    refusing: bool,
}

/// The bytes of a tenant's records since the last snapshot.
#[derive(Drop)]
pub struct TenantBytes {
    /// The tenant.
    pub tenant: Name,
    /// The bytes.
    pub bytes: u64,
}

impl Default for TenantBytes {
    /// No bytes of nobody.
    fn default() -> TenantBytes {
        TenantBytes {
            tenant: Name::of(b""),
            bytes: 0,
        }
    }
}

impl JournalCounts {
    /// Nothing was written yet; this segment goes on, or none if it is 0.
    pub fn new(segment: u64) -> JournalCounts {
        JournalCounts {
            segment,
            bytes: 0,
            unsynced: 0,
            syncs: 0,
            refusing: false,
        }
    }

    /// The segment that is written: 0 if there is none.
    pub fn segment(&self) -> u64
        ensures { result ≡ self.now.segment }
    {
        self.segment
    }

    /// Whether changing lines are refused, since there is no room for the next segment.
    pub fn is_refusing(&self) -> bool
        ensures { result ≡ self.now.refusing }
    {
        self.refusing
    }

    /// Changing lines are refused from now on, since there is no room for the next segment; or no longer.
    pub fn refuse(&mut self, refusing: bool)
        ensures { self.new ≡ record self.old { refusing = refusing } }
    {
        self.refusing = refusing;
    }

    /// A segment was begun.
    pub fn begin(&mut self, segment: u64) {
        self.segment = segment;
    }

    /// Bytes were appended.
    pub fn keep(&mut self, n: usize) {
        self.bytes = self.bytes.saturating_add(n as u64);
        self.unsynced = self.unsynced.saturating_add(n as u64);
    }

    /// All that was appended was synced.
    pub fn sync(&mut self) {
        self.unsynced = 0;
        self.syncs = up(self.syncs);
    }

    /// Appends these numbers.
    fn add_to(&self, text: &mut Text) {
        add_gauge(
            text,
            b"judyd_journal_segment",
            b"The segment of the journal that is written.",
            self.segment,
        );
        add_counter(
            text,
            b"judyd_journal_bytes_total",
            b"Bytes that were appended to the journal.",
            self.bytes,
        );
        add_gauge(
            text,
            b"judyd_journal_unsynced_bytes",
            b"Bytes of the journal that are not synced yet.",
            self.unsynced,
        );
        add_counter(
            text,
            b"judyd_journal_syncs_total",
            b"Syncs of the journal.",
            self.syncs,
        );
        add_gauge(
            text,
            b"judyd_journal_refusing",
            b"Whether changing lines are refused: there is no room for the next segment.",
            self.refusing as u64,
        );
    }
}

/// Appends the bytes of the tenants' records.
fn add_tenants(text: &mut Text, tenants: &[TenantBytes]) {
    add_heading(
        text,
        b"judyd_journal_tenant_bytes",
        b"Bytes of the tenant's records since the last snapshot.",
        b"gauge",
    );
    for of_tenant in tenants {
        push(text, b"judyd_journal_tenant_bytes{tenant=\"");
        push(text, of_tenant.tenant.as_bytes());
        add(text, b"\"}", of_tenant.bytes);
    }
}

/// One more.
fn up(count: u64) -> u64 {
    count.saturating_add(1)
}

/// Appends bytes.
fn push(text: &mut Text, part: &[u8]) {
    let _ = text.try_extend_from_slice(part);
}

/// Appends a line: a name and its number.
fn add(text: &mut Text, name: &[u8], n: u64) {
    let mut buffer = Buffer::new();
    push(text, name);
    push(text, b" ");
    push(text, buffer.format(n).as_bytes());
    push(text, b"\n");
}

/// Appends what a metric tells, and what kind of number it is.
fn add_heading(text: &mut Text, name: &[u8], help: &[u8], kind: &[u8]) {
    push(text, b"# HELP ");
    push(text, name);
    push(text, b" ");
    push(text, help);
    push(text, b"\n# TYPE ");
    push(text, name);
    push(text, b" ");
    push(text, kind);
    push(text, b"\n");
}

/// Appends a number that may fall.
fn add_gauge(text: &mut Text, name: &[u8], help: &[u8], n: u64) {
    add_heading(text, name, help, b"gauge");
    add(text, name, n);
}

/// Appends a number that never falls.
fn add_counter(text: &mut Text, name: &[u8], help: &[u8], n: u64) {
    add_heading(text, name, help, b"counter");
    add(text, name, n);
}

impl Counts {
    /// Nothing yet.
    pub fn new() -> Counts {
        Counts {
            accepted: 0,
            failed: 0,
            quit: 0,
            end: 0,
            fault: 0,
            login: 0,
            idle: 0,
            turn: 0,
            memory: 0,
            gone: 0,
            kick: 0,
            received: 0,
            sent: 0,
            dropped: 0,
        }
    }

    /// A connection was accepted.
    pub fn accept(&mut self) {
        self.accepted = up(self.accepted);
    }

    /// An accept failed.
    pub fn fail(&mut self) {
        self.failed = up(self.failed);
    }

    /// Bytes were read.
    pub fn receive(&mut self, n: usize) {
        self.received = self.received.saturating_add(n as u64);
    }

    /// Bytes were written.
    pub fn send(&mut self, n: usize) {
        self.sent = self.sent.saturating_add(n as u64);
    }

    /// A line to the operator was dropped.
    pub fn drop_line(&mut self) {
        self.dropped = up(self.dropped);
    }

    /// A connection was closed.
    pub fn close(&mut self, how: How) {
        match how {
            How::Quit => self.quit = up(self.quit),
            How::End => self.end = up(self.end),
            How::Fault => self.fault = up(self.fault),
            How::Login => self.login = up(self.login),
            How::Idle => self.idle = up(self.idle),
            How::Over => self.turn = up(self.turn),
            How::Memory => self.memory = up(self.memory),
            How::Gone => self.gone = up(self.gone),
            How::Kicked => self.kick = up(self.kick),
        }
    }

    /// How many connections are open.
    fn open(&self) -> u64 {
        let first = self
            .quit
            .saturating_add(self.end)
            .saturating_add(self.fault);
        let rest = self
            .login
            .saturating_add(self.idle)
            .saturating_add(self.turn)
            .saturating_add(self.memory)
            .saturating_add(self.gone)
            .saturating_add(self.kick);
        self.accepted.saturating_sub(first.saturating_add(rest))
    }

    /// Appends how connections ended.
    fn add_ended(&self, text: &mut Text) {
        add_heading(
            text,
            b"judyd_connections_ended_total",
            b"Connections that ended, by cause.",
            b"counter",
        );
        add(
            text,
            b"judyd_connections_ended_total{cause=\"quit\"}",
            self.quit,
        );
        add(
            text,
            b"judyd_connections_ended_total{cause=\"end\"}",
            self.end,
        );
        add(
            text,
            b"judyd_connections_ended_total{cause=\"fault\"}",
            self.fault,
        );
        add(
            text,
            b"judyd_connections_ended_total{cause=\"login\"}",
            self.login,
        );
        add(
            text,
            b"judyd_connections_ended_total{cause=\"idle\"}",
            self.idle,
        );
        add(
            text,
            b"judyd_connections_ended_total{cause=\"turn\"}",
            self.turn,
        );
        add(
            text,
            b"judyd_connections_ended_total{cause=\"memory\"}",
            self.memory,
        );
        add(
            text,
            b"judyd_connections_ended_total{cause=\"gone\"}",
            self.gone,
        );
        add(
            text,
            b"judyd_connections_ended_total{cause=\"kick\"}",
            self.kick,
        );
    }

    /// Appends the connections.
    fn add_connections(&self, text: &mut Text) {
        add_gauge(text, b"judyd_connections", b"Connections now.", self.open());
        add_counter(
            text,
            b"judyd_connections_accepted_total",
            b"Connections that were accepted.",
            self.accepted,
        );
        self.add_ended(text);
        add_counter(
            text,
            b"judyd_accepts_failed_total",
            b"Connections that could not be accepted.",
            self.failed,
        );
    }

    /// Appends the bytes.
    fn add_bytes(&self, text: &mut Text) {
        add_counter(
            text,
            b"judyd_bytes_received_total",
            b"Bytes that came from clients.",
            self.received,
        );
        add_counter(
            text,
            b"judyd_bytes_sent_total",
            b"Bytes that went to clients.",
            self.sent,
        );
    }

    /// The text, with the seconds since the start, and the numbers of the journal: the bytes of its tenants too.
    pub fn text(&self, seconds: u64, journal: JournalCounts, tenants: &[TenantBytes]) -> Text {
        let mut text = ArrayVec::new();
        self.add_connections(&mut text);
        self.add_bytes(&mut text);
        add_counter(
            &mut text,
            b"judyd_log_lines_dropped_total",
            b"Lines that standard error did not take.",
            self.dropped,
        );
        add_gauge(
            &mut text,
            b"judyd_uptime_seconds",
            b"Seconds since the start.",
            seconds,
        );
        journal.add_to(&mut text);
        add_tenants(&mut text, tenants);
        text
    }
}
