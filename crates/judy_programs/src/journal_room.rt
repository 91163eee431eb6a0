//! Whether the journal takes the records of a tenant's next lines.
use crate::ahead::fill;
use crate::directory::Directory;
use arrayvec::ArrayVec;
use judy_disk::{DiskFault, Folder, Locks, Share};
use judy_many::{JournalCounts, TENANTS_SHOWN, TenantBytes, tell_line};
use judy_model::Name;
use std::io::Eprint;
use std::rt::Clock;

/// Adds a share to those of its tenant. One more tenant than there is room for is left out.
fn put_share(tenants: &mut ArrayVec<TenantBytes, TENANTS_SHOWN>, share: &Share) {
    let name = share.tenant.as_bytes();
    for shown in tenants.as_mut_slice() {
        if shown.tenant.as_bytes() == name {
            shown.bytes = u64::saturating_add(shown.bytes, share.bytes);
            return;
        }
    }
    let _left_out = tenants.try_push(TenantBytes {
        tenant: Name::of(name),
        bytes: share.bytes,
    });
}

/// Tells that there is no room for the next segment.
fn tell_no_room<F: Locks + Eprint>(rt: &F, folder: &Folder<'_, F>, fault: &DiskFault) {
    let path = folder.path();
    tell_line(
        rt,
        format_args!("judyd: journal: no room for the next segment: {path}{fault}"),
    );
}

impl<'a, F: Locks + Clock + Eprint + Clone + Drop> Directory<'a, F> {
    /// Whether the journal takes the records of a turn of this tenant. It does not if the tenant's records since
    /// the last snapshot have `limit` bytes or more, or if there is no room for another turn. What is missing is
    /// tried again, at most once a second.
    pub fn takes(&mut self, tenant: &[u8], limit: Option<u64>) -> bool {
        self.may_spend(tenant, limit) && self.has_room()
    }

    /// What was written to the journal since the start: zeros if there is none.
    pub fn counts(&mut self) -> JournalCounts {
        if self.counts.is_refusing() {
            // This notes room that has come back.
            let _has_room = self.has_room();
        }
        self.counts
    }

    /// How many bytes of records each tenant has since the last snapshot.
    pub fn tenant_bytes(&mut self) -> ArrayVec<TenantBytes, TENANTS_SHOWN> {
        self.forget_old();
        let mut tenants = ArrayVec::new();
        if let Some(spent) = &self.spent {
            for share in spent.shares() {
                put_share(&mut tenants, share);
            }
        }
        tenants
    }

    /// Makes a piece of the next segment, if half of the current one is used. So no round waits for all of it.
    pub fn prepare(&mut self) {
        if !self.is_due() || self.has_just_failed() {
            return;
        }
        let made = self.try_piece();
        if made.is_err() {
            self.note_room(made);
        }
    }

    /// The seconds since the start. None if the clock fails.
    fn seconds(&self) -> Option<u64> {
        let time = self.began?.elapsed(self.rt).ok()?;
        Some(time.as_secs())
    }

    /// Whether a tenant has fewer bytes of records than its limit, as far as is known.
    fn may_add(&self, tenant: &[u8], limit: Option<u64>) -> bool {
        match &self.spent {
            Some(spent) => spent.may_add(tenant, limit),
            None => true,
        }
    }

    /// Whether a tenant has fewer bytes of records than its limit, since the last snapshot.
    fn may_spend(&mut self, tenant: &[u8], limit: Option<u64>) -> bool {
        if self.may_add(tenant, limit) {
            return true;
        }
        self.forget_old();
        self.may_add(tenant, limit)
    }

    /// Forgets the records that the last snapshot stands for. It is looked for at most once a second.
    fn forget_old(&mut self) {
        let now = self.seconds();
        if now.is_some() && self.looked == now {
            return;
        }
        self.looked = now;
        let (Some(folder), Some(spent)) = (&mut self.folder, &mut self.spent) else {
            return;
        };
        if let Ok(Some(manifest)) = folder.manifest() {
            spent.forget(manifest.snapshot);
        }
    }

    /// Whether a turn of a client has room. The first commits of a segment without a note are appended to it
    /// as it is.
    fn is_enough(&self) -> bool {
        match &self.current {
            Some(current) => self.is_plain || self.ahead.is_enough(current.room()),
            None => true,
        }
    }

    /// Whether the next piece of the next segment is due.
    fn is_due(&self) -> bool {
        match &self.current {
            Some(current) => self.ahead.is_due(current.room()),
            None => false,
        }
    }

    /// Whether there was no room in this second of the clock.
    fn has_just_failed(&self) -> bool {
        self.failed.is_some() && self.failed == self.seconds()
    }

    /// Makes a piece of the next segment.
    fn try_piece(&mut self) -> Result<(), DiskFault> {
        let next = self.counts.segment().saturating_add(1);
        let Some(folder) = &mut self.folder else {
            return Ok(());
        };
        self.ahead.make(folder, &mut self.spares, next, false)
    }

    /// Makes room for a turn of a client: in the current segment, and in the next one if it may get there.
    fn try_room(&mut self) -> Result<(), DiskFault> {
        let next = self.counts.segment().saturating_add(1);
        let (Some(folder), Some(current)) = (&mut self.folder, &mut self.current) else {
            return Ok(());
        };
        let filled = fill(current, self.ahead.limit());
        if self.ahead.is_enough(current.room()) {
            return Ok(());
        }
        filled?;
        self.ahead.make(folder, &mut self.spares, next, true)
    }

    /// Whether a turn of a client has room, which is made if there is none. A refusal of the system is no
    /// fault of the journal.
    fn has_room(&mut self) -> bool {
        if self.is_enough() {
            self.note_room(Ok(()));
            return true;
        }
        if self.has_just_failed() {
            self.counts.refuse(true);
            return false;
        }
        let made = self.try_room();
        let is_made = made.is_ok();
        self.note_room(made);
        self.counts.refuse(!is_made);
        is_made
    }

    /// Notes whether there was room, and tells the operator: that there is none, at each try, and that there is
    /// some again.
    fn note_room(&mut self, made: Result<(), DiskFault>) {
        if let Err(fault) = made {
            self.failed = self.seconds();
            if let Some(folder) = &self.folder {
                tell_no_room(self.rt, folder, &fault);
            }
            return;
        }
        self.failed = None;
        if self.counts.is_refusing() {
            self.counts.refuse(false);
            tell_line(
                self.rt,
                format_args!("judyd: journal: there is room for the next segment: writes go on"),
            );
        }
    }
}
