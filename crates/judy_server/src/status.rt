//! The text of the service's status.
ghost use Rattle.std.specs.Prelude.{◌≡◌, ◌<◌, ◌++◌, OnOk, count_by, flat_map, length, map, option_map, codes, slice_index};
ghost use Rattle.judy_table.specs.Shown.{seen};
ghost use Rattle.judy_server.specs.Metrics.{name_of};
ghost use Rattle.judy_server.specs.Present.{speaks_for};
ghost use Rattle.judy_server.specs.Status.{by_build, by_call, by_kind, by_nobody, by_speaker, by_tenant, first_shares, first_totals, heading, labelled_if, last_shares};
ghost use Rattle.judy_server.specs.Status.{labelled, number_of, one_total, sample, samples, single, status_of, total_of};
ghost use Rattle.judy_server.specs.Tally.{call_names, reply_kinds, tallied};

use crate::calls::{call_name, reply_kind};
use crate::metrics::{Metric, Share, Total, help_of, kind_of, name_of};
use crate::present::{count_nobody, count_tenant};
use crate::tally::{CALLS, KINDS, Tally, count_at};
use itoa::Buffer;
use judy_command::VERSION;
use judy_table::{Speaker, TenantId};
use judy_tenants::{OrderHash, Service};
use std::alloc::AllocError;

/// The numbers of the whole service that come first.
const TOTALS: [Total; 7] = [
    Total::LiveWords,
    Total::MachineWords,
    Total::PeakWords,
    Total::Arrays,
    Total::NameBytes,
    Total::RefusedRequests,
    Total::RefusedNames,
];

/// The numbers of each tenant that come next.
const SHARES: [Share; 4] = [
    Share::Entries,
    Share::EntriesQuota,
    Share::Pieces,
    Share::PiecesQuota,
];

/// The numbers of each tenant that come last.
const LAST_SHARES: [Share; 3] = [Share::RefusedLogins, Share::SpokenLines, Share::FullReplies];

/// Appends bytes.
fn push(text: &mut Vec<u8>, part: &[u8]) -> Result<(), AllocError>
    ensures { OnOk result (text.new.items ≡ text.old.items ++ part.now) }
{
    text.extend_from_slice(part)
}

/// Appends a name and its number.
fn add_sample(text: &mut Vec<u8>, name: &[u8], n: u64) -> Result<(), AllocError>
    ensures { OnOk result (text.new.items ≡ text.old.items ++ sample name.now n) }
{
    let mut buffer = Buffer::new();
    push(text, name)?;
    push(text, b" ")?;
    push(text, buffer.format(n).as_bytes())?;
    push(text, b"\n")
}

/// Appends a name with the value of a label, and its number.
fn add_labelled(
    text: &mut Vec<u8>,
    name: &[u8],
    label: &[u8],
    value: &[u8],
    n: u64,
) -> Result<(), AllocError>
    ensures { OnOk result (text.new.items ≡ text.old.items ++ labelled name.now label.now value.now n) }
{
    let mut buffer = Buffer::new();
    push(text, name)?;
    push(text, b"{")?;
    push(text, label)?;
    push(text, b"=\"")?;
    push(text, value)?;
    push(text, b"\"} ")?;
    push(text, buffer.format(n).as_bytes())?;
    push(text, b"\n")
}

/// The same for a metric, but nothing for an empty value.
fn add_if(
    text: &mut Vec<u8>,
    metric: Metric,
    label: &'static [u8],
    value: &[u8],
    n: u64,
) -> Result<(), AllocError>
    ensures { OnOk result (text.new.items ≡ text.old.items ++ labelled_if metric label.now value.now n) }
{
    if value.is_empty() {
        return Ok(());
    }
    add_labelled(text, name_of(metric).as_bytes(), label, value, n)
}

/// Appends what a metric tells, and what kind of number it is.
#[tactic(auto, unfolding(crate::specs::Status::heading))]
fn add_heading(text: &mut Vec<u8>, metric: Metric) -> Result<(), AllocError>
    ensures { OnOk result (text.new.items ≡ text.old.items ++ heading metric) }
{
    push(text, b"# HELP ")?;
    push(text, name_of(metric).as_bytes())?;
    push(text, b" ")?;
    push(text, help_of(metric).as_bytes())?;
    push(text, b"\n# TYPE ")?;
    push(text, name_of(metric).as_bytes())?;
    push(text, b" ")?;
    push(text, kind_of(metric).as_bytes())?;
    push(text, b"\n")
}

/// Appends a metric with one number.
#[tactic(auto, unfolding(crate::specs::Status::single))]
fn add_metric(text: &mut Vec<u8>, metric: Metric, n: u64) -> Result<(), AllocError>
    ensures { OnOk result (text.new.items ≡ text.old.items ++ single metric n) }
{
    add_heading(text, metric)?;
    add_sample(text, name_of(metric).as_bytes(), n)
}

/// A number of the whole service.
fn total<H: OrderHash>(service: &Service<H>, tally: &Tally, total: Total) -> u64
    ensures { result ≡ total_of (tallied service.now tally.now) total }
{
    match total {
        Total::LiveWords => service.live_words(),
        Total::MachineWords => service.machine_words(),
        Total::PeakWords => service.peak_words(),
        Total::Arrays => service.arrays(),
        Total::NameBytes => service.name_bytes(),
        Total::RefusedRequests => service.refusals(),
        Total::RefusedNames => service.unplaced(),
        Total::UnknownLogins => tally.unknown,
    }
}

/// Appends a number of the whole service.
#[tactic(auto, unfolding(crate::specs::Status::one_total))]
fn add_total<H: OrderHash>(
    text: &mut Vec<u8>,
    service: &Service<H>,
    tally: &Tally,
    which: Total,
) -> Result<(), AllocError>
    ensures { OnOk result (text.new.items ≡ text.old.items ++ one_total (tallied service.now tally.now) which) }
{
    add_metric(text, Metric::Total(which), total(service, tally, which))
}

/// Appends the numbers of the whole service that come first.
fn add_totals<H: OrderHash>(
    text: &mut Vec<u8>,
    service: &Service<H>,
    tally: &Tally,
) -> Result<(), AllocError>
    ensures { OnOk result (text.new.items ≡ text.old.items
        ++ flat_map (one_total (tallied service.now tally.now)) first_totals) }
{
    for which in TOTALS {
        add_total(text, service, tally, which)?;
    }
    Ok(())
}

/// A number of a tenant.
fn number<H: OrderHash>(service: &Service<H>, tally: &Tally, share: Share, tenant: TenantId) -> u64
    requires { tenant < length service.now.tenants }
    ensures { result ≡ number_of (tallied service.now tally.now) share tenant }
{
    match share {
        Share::Entries => service.used(tenant),
        Share::EntriesQuota => service.quota(tenant),
        Share::Pieces => service.pieces(tenant),
        Share::PiecesQuota => service.most(tenant),
        Share::RefusedLogins => count_at(&tally.refused, tenant.place() as usize),
        Share::SpokenLines => count_at(&tally.spoken, tenant.place() as usize),
        Share::FullReplies => count_at(&tally.full, tenant.place() as usize),
    }
}

/// Appends a line for each tenant.
fn add_shares<H: OrderHash>(
    text: &mut Vec<u8>,
    service: &Service<H>,
    tally: &Tally,
    share: Share,
) -> Result<(), AllocError>
    ensures { OnOk result (text.new.items ≡ text.old.items ++ samples (Metric.Share share) (codes "tenant")
        (number_of (tallied service.now tally.now) share) 0 (map (λ row. row.name) service.now.tenants)) }
{
    for place in 0..service.tenants() {
        let tenant = service.tenant(place);
        let n = number(service, tally, share, tenant);
        add_if(
            text,
            Metric::Share(share),
            b"tenant",
            service.name(tenant),
            n,
        )?;
    }
    Ok(())
}

/// Appends a number of each tenant.
#[tactic(auto, unfolding(crate::specs::Status::by_tenant))]
fn add_by_tenant<H: OrderHash>(
    text: &mut Vec<u8>,
    service: &Service<H>,
    tally: &Tally,
    share: Share,
) -> Result<(), AllocError>
    ensures { OnOk result (text.new.items ≡ text.old.items ++ by_tenant (tallied service.now tally.now) share) }
{
    add_heading(text, Metric::Share(share))?;
    add_shares(text, service, tally, share)
}

/// Appends the numbers of each tenant that come first.
fn add_by_tenants<H: OrderHash>(
    text: &mut Vec<u8>,
    service: &Service<H>,
    tally: &Tally,
) -> Result<(), AllocError>
    ensures { OnOk result (text.new.items ≡ text.old.items
        ++ flat_map (by_tenant (tallied service.now tally.now)) first_shares) }
{
    for share in SHARES {
        add_by_tenant(text, service, tally, share)?;
    }
    Ok(())
}

/// Appends the numbers of each tenant that come last.
fn add_last_by_tenants<H: OrderHash>(
    text: &mut Vec<u8>,
    service: &Service<H>,
    tally: &Tally,
) -> Result<(), AllocError>
    ensures { OnOk result (text.new.items ≡ text.old.items
        ++ flat_map (by_tenant (tallied service.now tally.now)) last_shares) }
{
    for share in LAST_SHARES {
        add_by_tenant(text, service, tally, share)?;
    }
    Ok(())
}

/// Appends a line for each tenant: its connections.
fn add_speakers<H: OrderHash>(
    text: &mut Vec<u8>,
    service: &Service<H>,
    speakers: &[Option<Speaker>],
) -> Result<(), AllocError>
    ensures { OnOk result (text.new.items ≡ text.old.items ++ samples Metric.Connections (codes "tenant")
        (λ place. count_by (speaks_for place) (map (option_map seen) speakers.now)) 0
        (map (λ row. row.name) service.now.tenants)) }
{
    for place in 0..service.tenants() {
        let tenant = service.tenant(place);
        let n = count_tenant(speakers, tenant);
        add_if(
            text,
            Metric::Connections,
            b"tenant",
            service.name(tenant),
            n,
        )?;
    }
    Ok(())
}

/// Appends the connections by tenant.
#[tactic(auto, unfolding(crate::specs::Status::by_speaker))]
fn add_by_speaker<H: OrderHash>(
    text: &mut Vec<u8>,
    service: &Service<H>,
    tally: &Tally,
    speakers: &[Option<Speaker>],
) -> Result<(), AllocError>
    ensures { OnOk result (text.new.items ≡ text.old.items
        ++ by_speaker (tallied service.now tally.now) (map (option_map seen) speakers.now)) }
{
    add_heading(text, Metric::Connections)?;
    add_speakers(text, service, speakers)
}

/// Appends the connections on which nobody is logged in.
#[tactic(auto, unfolding(crate::specs::Status::by_nobody))]
fn add_by_nobody(text: &mut Vec<u8>, speakers: &[Option<Speaker>]) -> Result<(), AllocError>
    ensures { OnOk result (text.new.items ≡ text.old.items
        ++ by_nobody (map (option_map seen) speakers.now)) }
{
    add_metric(text, Metric::Strangers, count_nobody(speakers))
}

/// Appends a line for each thing that a line can ask for.
fn add_calls(text: &mut Vec<u8>, tally: &Tally) -> Result<(), AllocError>
    ensures { OnOk result (text.new.items ≡ text.old.items
        ++ samples Metric.Lines (codes "call") (slice_index tally.now.lines) 0 call_names) }
{
    for place in 0..CALLS {
        let n = count_at(&tally.lines, place);
        add_if(text, Metric::Lines, b"call", call_name(place).as_bytes(), n)?;
    }
    Ok(())
}

/// Appends the lines by what they ask for.
#[tactic(auto, unfolding(crate::specs::Status::by_call))]
fn add_by_call(text: &mut Vec<u8>, tally: &Tally) -> Result<(), AllocError>
    ensures { OnOk result (text.new.items ≡ text.old.items ++ by_call tally.now) }
{
    add_heading(text, Metric::Lines)?;
    add_calls(text, tally)
}

/// Appends a line for each kind of reply.
fn add_kinds(text: &mut Vec<u8>, tally: &Tally) -> Result<(), AllocError>
    ensures { OnOk result (text.new.items ≡ text.old.items
        ++ samples Metric.Replies (codes "kind") (slice_index tally.now.replies) 0 reply_kinds) }
{
    for place in 0..KINDS {
        let n = count_at(&tally.replies, place);
        add_if(
            text,
            Metric::Replies,
            b"kind",
            reply_kind(place).as_bytes(),
            n,
        )?;
    }
    Ok(())
}

/// Appends the replies by their kind.
#[tactic(auto, unfolding(crate::specs::Status::by_kind))]
fn add_by_kind(text: &mut Vec<u8>, tally: &Tally) -> Result<(), AllocError>
    ensures { OnOk result (text.new.items ≡ text.old.items ++ by_kind tally.now) }
{
    add_heading(text, Metric::Replies)?;
    add_kinds(text, tally)
}

/// Appends the version of the program.
#[tactic(auto, unfolding(crate::specs::Status::by_build))]
fn add_build(text: &mut Vec<u8>) -> Result<(), AllocError>
    ensures { OnOk result (text.new.items ≡ text.old.items ++ by_build) }
{
    add_heading(text, Metric::Build)?;
    let name = name_of(Metric::Build).as_bytes();
    add_labelled(text, name, b"version", VERSION.as_bytes(), 1)
}

/// Appends the status of a service with these counts and these speakers of the open connections.
pub fn add_status<H: OrderHash>(
    text: &mut Vec<u8>,
    service: &Service<H>,
    tally: &Tally,
    speakers: &[Option<Speaker>],
) -> Result<(), AllocError>
    ensures { OnOk result (text.new.items ≡ text.old.items
        ++ status_of (tallied service.now tally.now) (map (option_map seen) speakers.now)) }
{
    add_totals(text, service, tally)?;
    add_by_tenants(text, service, tally)?;
    add_by_speaker(text, service, tally, speakers)?;
    add_by_nobody(text, speakers)?;
    add_by_call(text, tally)?;
    add_by_kind(text, tally)?;
    add_last_by_tenants(text, service, tally)?;
    add_total(text, service, tally, Total::UnknownLogins)?;
    add_build(text)
}
