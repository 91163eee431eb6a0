//! The metrics of the status: their names, what they tell, and what kind of number they are.
ghost use Rattle.std.specs.Prelude.{◌≡◌};
ghost use Rattle.judy_server.specs.Metrics.{help_of, kind_of, name_of, share_help, share_name, total_help, total_name};

/// A number of the whole service.
#[derive(Clone, Copy, Debug, PartialEq, Eq)]
pub enum Total {
    /// The words in the blocks of all arrays.
    LiveWords,
    /// The words taken from the machine.
    MachineWords,
    /// The most live words at once so far.
    PeakWords,
    /// The arrays that have entries.
    Arrays,
    /// The bytes of the names of all arrays.
    NameBytes,
    /// Requests for a block that were refused.
    RefusedRequests,
    /// New names that there was no memory for.
    RefusedNames,
    /// Log-ins with a name that no tenant has.
    UnknownLogins,
}

/// A number that each tenant has.
#[derive(Clone, Copy, Debug, PartialEq, Eq)]
pub enum Share {
    /// Its entries.
    Entries,
    /// The most entries that it may have.
    EntriesQuota,
    /// Its pieces.
    Pieces,
    /// The most pieces that it may have.
    PiecesQuota,
    /// Its refused log-ins.
    RefusedLogins,
    /// Lines of its connections.
    SpokenLines,
    /// Those that were answered `FULL`.
    FullReplies,
}

/// A metric: one number, a number of each tenant, a number of each call or kind of reply, or the version.
#[derive(Clone, Copy, Debug, PartialEq, Eq)]
pub enum Metric {
    /// One number.
    Total(Total),
    /// A number of each tenant.
    Share(Share),
    /// Connections, by the tenant that is logged in.
    Connections,
    /// Connections on which nobody is logged in.
    Strangers,
    /// Lines, by what they ask for.
    Lines,
    /// Replies, by their kind.
    Replies,
    /// What the program is: always 1, with its version.
    Build,
}

/// The name of a number of the whole service.
fn total_name(total: Total) -> &'static str
    ensures { result.now ≡ total_name total }
{
    match total {
        Total::LiveWords => "judyd_live_words",
        Total::MachineWords => "judyd_machine_words",
        Total::PeakWords => "judyd_peak_words",
        Total::Arrays => "judyd_arrays",
        Total::NameBytes => "judyd_name_bytes",
        Total::RefusedRequests => "judyd_refused_requests_total",
        Total::RefusedNames => "judyd_refused_names_total",
        Total::UnknownLogins => "judyd_logins_unknown_total",
    }
}

/// The name of a number that each tenant has.
fn share_name(share: Share) -> &'static str
    ensures { result.now ≡ share_name share }
{
    match share {
        Share::Entries => "judyd_tenant_entries",
        Share::EntriesQuota => "judyd_tenant_quota_entries",
        Share::Pieces => "judyd_tenant_pieces",
        Share::PiecesQuota => "judyd_tenant_quota_pieces",
        Share::RefusedLogins => "judyd_logins_refused_total",
        Share::SpokenLines => "judyd_tenant_lines_total",
        Share::FullReplies => "judyd_tenant_full_total",
    }
}

/// The name of a metric.
pub fn name_of(metric: Metric) -> &'static str
    ensures { result.now ≡ name_of metric }
{
    match metric {
        Metric::Total(total) => total_name(total),
        Metric::Share(share) => share_name(share),
        Metric::Connections => "judyd_tenant_connections",
        Metric::Strangers => "judyd_connections_without_tenant",
        Metric::Lines => "judyd_lines_total",
        Metric::Replies => "judyd_replies_total",
        Metric::Build => "judyd_build_info",
    }
}

/// What a number of the whole service tells.
fn total_help(total: Total) -> &'static str
    ensures { result.now ≡ total_help total }
{
    match total {
        Total::LiveWords => "Words in the blocks of all arrays.",
        Total::MachineWords => "Words taken from the machine.",
        Total::PeakWords => "The most live words at once so far.",
        Total::Arrays => "Arrays of all tenants.",
        Total::NameBytes => "Bytes of the names of all arrays.",
        Total::RefusedRequests => "Requests for a block that were refused.",
        Total::RefusedNames => "New names that there was no memory for.",
        Total::UnknownLogins => "Log-ins with a name that no tenant has.",
    }
}

/// What a number of each tenant tells.
fn share_help(share: Share) -> &'static str
    ensures { result.now ≡ share_help share }
{
    match share {
        Share::Entries => "Entries of a tenant.",
        Share::EntriesQuota => "The most entries of a tenant.",
        Share::Pieces => "Pieces of a tenant.",
        Share::PiecesQuota => "The most pieces of a tenant.",
        Share::RefusedLogins => "Refused log-ins by tenant.",
        Share::SpokenLines => "Lines by tenant.",
        Share::FullReplies => "FULL replies by tenant.",
    }
}

/// What a metric tells.
pub fn help_of(metric: Metric) -> &'static str
    ensures { result.now ≡ help_of metric }
{
    match metric {
        Metric::Total(total) => total_help(total),
        Metric::Share(share) => share_help(share),
        Metric::Connections => "Connections on which a tenant is logged in.",
        Metric::Strangers => "Connections on which nobody is logged in.",
        Metric::Lines => "Lines by what they ask for.",
        Metric::Replies => "Replies by kind.",
        Metric::Build => "The version of the program.",
    }
}

/// What kind of number a metric has.
pub fn kind_of(metric: Metric) -> &'static str
    ensures { result.now ≡ kind_of metric }
{
    match metric {
        Metric::Total(Total::LiveWords) => "gauge",
        Metric::Total(Total::MachineWords) => "gauge",
        Metric::Total(Total::PeakWords) => "gauge",
        Metric::Total(Total::Arrays) => "gauge",
        Metric::Total(Total::NameBytes) => "gauge",
        Metric::Total(Total::RefusedRequests) => "counter",
        Metric::Total(Total::RefusedNames) => "counter",
        Metric::Total(Total::UnknownLogins) => "counter",
        Metric::Share(Share::Entries) => "gauge",
        Metric::Share(Share::EntriesQuota) => "gauge",
        Metric::Share(Share::Pieces) => "gauge",
        Metric::Share(Share::PiecesQuota) => "gauge",
        Metric::Share(Share::RefusedLogins) => "counter",
        Metric::Share(Share::SpokenLines) => "counter",
        Metric::Share(Share::FullReplies) => "counter",
        Metric::Connections => "gauge",
        Metric::Strangers => "gauge",
        Metric::Lines => "counter",
        Metric::Replies => "counter",
        Metric::Build => "gauge",
    }
}
