//! Many calls of many tenants, one after another.
ghost use Rattle.std.specs.Prelude.{◌≡◌, IsTrue, length, map, zip};
ghost use Rattle.std.specs.List.{list_all};
ghost use Rattle.judy_model.specs.Service.{AreServed};
ghost use Rattle.judy_model.specs.Worlds.{AreTheOnly};
ghost use Rattle.judy_tenants.specs.Held.{states_of, quotas_of};
ghost use Rattle.judy_tenants.specs.Runs.{told_event, is_answerable, AreCallsOf, AreCounted};

use crate::service::Service;
use judy_bytes::OrderHash;
use judy_kinds::is_callable;
use judy_model::{Call, OwnedReply, ReplyRoom};
use judy_table::Speaker;
use std::alloc::Global;

/// A call and its speaker.
#[derive(Drop)]
pub struct Event<'a> {
    pub speaker: Speaker,
    pub call: Call<'a>,
}

impl<H: OrderHash> Service<H> {
    /// Whether each speaker is a tenant of this service, and each key of a JudySL call is a string.
    pub fn can_answer(&self, events: &[Event<'_>]) -> bool
        ensures { result ≡ list_all (is_answerable self.now.tenants) events.now }
    {
        events.iter().all(|event| self.has(event.speaker.tenant) && is_callable(&event.call))
    }

    /// Answers calls in order. Each tenant gets the replies that it would get alone, with its calls
    /// refused for memory left out.
    pub fn replay(&mut self, alloc: Global, events: &[Event<'_>], replies: &mut [OwnedReply])
        requires equal { length events.now ≡ length replies.old }
        requires answerable { IsTrue (list_all (is_answerable self.old.tenants) events.now) }
        ensures tenants { self.new.tenants ≡ self.old.tenants }
        ensures served { AreServed (quotas_of self.old.tenants) (states_of self.old)
            (map told_event events.now) replies.new (states_of self.new) }
        ensures worlds { AreTheOnly (quotas_of self.old.tenants) (states_of self.old)
            (zip (map told_event events.now) replies.new) (states_of self.new) }
        ensures causes { AreCallsOf self.old (zip (map told_event events.now) replies.new)
            self.new }
        ensures count { AreCounted self.old replies.new self.new }
    {
        judy_model::laws::one_call_is_a_run();
        judy_model::laws::served_runs_go_on();
        judy_model::laws::tenants_are_answered_equally();
        let mut found = ReplyRoom::new();
        for (i, event) in events.iter().enumerate() {
            replies[i] = OwnedReply::of(&self.call(alloc, event.speaker, &event.call, &mut found));
        }
    }
}
