//! The service that answers the calls of a connection.
ghost use Rattle.std.specs.Prelude.{◌≡◌, ℕ, IfSome, IsTrue, Option, option_map};
ghost use Rattle.judy_model.specs.Grammar.{is_name};
ghost use Rattle.judy_model.specs.declared.replies.Reply.{Reply as ReplyLem};
ghost use Rattle.judy_model.specs.Speakers.{Event, Speaker};
ghost use Rattle.judy_protocol.specs.Services.{IsAsked, IsCalled, IsKnown, Seen};

use judy_model::{Call, Reply, ReplyRoom};
use std::alloc::Global;

/// A service of many tenants, each with its own arrays, who log in with a name and a token.
///
/// `seen` is what a connection relies on: who logs in as whom, who may speak, and what each tenant
/// has. `made` is all that an implementation promises of a call, and `apart` proves that it is
/// enough: the call's tenant gets the reply that it would get alone, or is refused for memory. No
/// other tenant's arrays change, and names, tokens and quotas stay.
pub trait Served {
    /// A speaker, who has logged in: a tenant, and what it may do.
    type Speaker: Copy;

    /// The tenant and the right of a speaker.
    ghost who: { Self.Speaker → Speaker };

    /// The visible state of the service.
    ghost seen: { Self → Seen };

    /// The step that a call makes of the service, with its reply.
    ghost made: { Self → Event → ReplyLem → Self → Type 0 };

    /// The speaker with this name and token, if any. It may speak.
    fn login(&self, name: &[u8], token: &[u8]) -> Option<Self::Speaker>
        ensures who { option_map who result ≡ (seen self.now).logins name.now token.now }
        ensures known { IfSome result (λ s. IsKnown (seen self.now).speakers (who s)) };

    /// The name of a speaker's tenant.
    fn name(&self, speaker: Self::Speaker) -> &[u8]
        requires known { IsKnown (seen self.now).speakers (who speaker) }
        ensures name { result.now ≡ (seen self.now).names (who speaker).tenant }
        ensures spelled { IsTrue (is_name result.now) };

    /// Answers a call of a speaker who may speak. The call must be one that a line asks for. A key
    /// that the call finds is put into `found`.
    fn call<'a>(
        &mut self,
        alloc: Global,
        speaker: Self::Speaker,
        call: &Call<'_>,
        found: &'a mut ReplyRoom,
    ) -> Reply<'a>
        requires known { IsKnown (seen self.old).speakers (who speaker) }
        requires asked { IsAsked call.now }
        ensures { made self.old (record { speaker = who speaker; call = call.now })
            result self.new };

    /// A call keeps the tenants apart.
    ghost apart: { (before after : Self) (event : Event) (reply : ReplyLem)
        → made before event reply after → IsCalled (seen before) event reply (seen after) };
}
