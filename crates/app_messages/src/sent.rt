//! The entries that applications add.
ghost use Rattle.std.specs.Prelude.{◌≡◌, ◌+◌, ◌<◌, ◌^◌, All};
ghost use Rattle.of10_match.specs.Match.{IsValidMatch};
ghost use Rattle.of10_messages.specs.Lengths.{actions_len};
ghost use Rattle.of10_messages.specs.Valid.{IsValidAction, IsValidMessage};
ghost use Rattle.app_messages.specs.Sent.{added};

use of10_match::Match;
use of10_messages::{Actions10, FlowMod, Message};

/// The FLOW_MOD that adds an entry, which goes after `idle` seconds without a packet, or never where that is 0.
pub fn add(matches: Match, priority: u16, idle: u16, actions: Actions10) -> Message
    requires matches { IsValidMatch matches }
    requires actions { All IsValidAction actions }
    requires fits { 72 + actions_len actions < 2 ^ 16 }
    ensures value { result ≡ added matches priority idle actions }
    ensures valid { IsValidMessage result }
{
    Message::flow_mod(
        0,
        FlowMod::add(matches, priority, actions).with_idle_timeout(idle),
    )
}
