//! A flow entry.

ghost use Rattle.std.specs.Prelude.{◌≡◌, IfOk};
ghost use Rattle.std.specs.List.{list_any};
ghost use Rattle.flow_table.specs.Command.{is_output_to};
ghost use Rattle.listed.specs.Plain.{plain};

use crate::command::Command;
use listed::Plain;
use of10_match::{Header, Match, OFPP_NONE};
use of10_messages::{Action, Actions10, FlowMod, OFPRR_HARD_TIMEOUT, OFPRR_IDLE_TIMEOUT};
use std::alloc::AllocError;

/// The rank of an entry without wildcards, above all priorities.
const EXACT_RANK: u32 = 1 << 16;

/// The bytes that each simulated packet counts.
const PACKET_BYTES: u64 = 64;

/// An entry of a flow table, after OpenFlow 1.0.0 section 3. Times are seconds of the switch's clock.
///
/// An entry is valid where each field lies within its width, and its match and its actions are valid.
#[derive(Clone, Debug, Drop)]
pub struct Entry {
    pub matches: Match,
    /// Of entries with wildcards that take a packet the one of highest priority counts.
    pub priority: u16,
    /// A number of the controller's.
    pub cookie: u64,
    /// Seconds without a packet after which the entry goes, or 0 for never.
    pub idle: u16,
    /// Seconds after which the entry goes, or 0 for never.
    pub hard: u16,
    /// Bits `OFPFF_SEND_FLOW_REM`, `OFPFF_CHECK_OVERLAP`.
    pub flags: u16,
    pub actions: Actions10,
    /// When the entry was added.
    pub added: u32,
    /// When it last took a packet; until the first one, when it was added.
    pub hit: u32,
    /// How many packets it took, at most 2^64 - 1.
    pub packets: u64,
    /// 64 bytes for each of them, at most 2^64 - 1.
    pub bytes: u64,
}

impl Plain for Entry {
    fn same(&self, other: &Self) -> bool {
        Plain::same(&self.matches, &other.matches)
            && self.priority == other.priority
            && self.cookie == other.cookie
            && self.idle == other.idle
            && self.hard == other.hard
            && self.flags == other.flags
            && self.actions.same(&other.actions)
            && self.added == other.added
            && self.hit == other.hit
            && self.packets == other.packets
            && self.bytes == other.bytes
    }

    ghost clones = { Prim.search plain };
}

impl Entry {
    ghost use Rattle.of10_messages.specs.Valid.{IsValidFlowMod};
    ghost use Rattle.flow_table.specs.Entry.{IsValidEntry, counted, rank, takes_packet};
    ghost use Rattle.flow_table.specs.Command.{entry_of, has_output, is_covered, is_named, is_overlapped, is_same};
    ghost use Rattle.flow_table.specs.Expiry.{is_idle, is_worn_out, reason_of, runs_out};

    /// The entry that a FLOW_MOD adds at a time.
    pub(crate) fn of(mods: &FlowMod, now: u32) -> Result<Entry, AllocError>
        requires { IsValidFlowMod mods.now }
        ensures entry { IfOk result (λ entry. entry ≡ entry_of mods.now now) }
        ensures valid { IfOk result (λ entry. IsValidEntry entry) }
    {
        Ok(Entry {
            matches: mods.matches,
            priority: mods.priority,
            cookie: mods.cookie,
            idle: mods.idle_timeout,
            hard: mods.hard_timeout,
            flags: mods.flags,
            actions: mods.actions.copy()?,
            added: now,
            hit: now,
            packets: 0,
            bytes: 0,
        })
    }

    /// The entry's rank: above all priorities where its match has no wildcard, else its priority.
    pub fn rank(&self) -> u32
        ensures { result ≡ rank self.now }
    {
        if self.matches.has_wildcard() {
            u32::from(self.priority)
        } else {
            EXACT_RANK
        }
    }

    /// Whether the entry takes a packet that comes in by a port.
    pub fn takes(&self, in_port: u16, header: &Header) -> bool
        requires { IsValidEntry self.now }
        ensures { result ≡ takes_packet in_port header.now self.now }
    {
        self.matches.matches(in_port, header)
    }

    /// Counts a packet that the entry took at a time.
    pub(crate) fn count(&mut self, now: u32)
        ensures { self.new ≡ counted now self.old }
    {
        self.packets = self.packets.saturating_add(1);
        self.bytes = self.bytes.saturating_add(PACKET_BYTES);
        self.hit = now;
    }

    /// Whether a FLOW_MOD with a command speaks of the entry.
    pub(crate) fn is_named(&self, how: Command, mods: &FlowMod) -> bool
        requires valid { IsValidEntry self.now }
        requires mods { IsValidFlowMod mods.now }
        ensures { result ≡ is_named how mods.now self.now }
    {
        match how {
            Command::Add | Command::ModifyStrict => self.is_same(mods),
            Command::Modify => self.is_covered(mods),
            Command::Delete => self.is_covered(mods) && self.has_output(mods),
            Command::DeleteStrict => self.is_same(mods) && self.has_output(mods),
        }
    }

    /// Whether the entry has the priority of a FLOW_MOD, and some packet is taken by both.
    pub(crate) fn is_overlapped(&self, mods: &FlowMod) -> bool
        requires valid { IsValidEntry self.now }
        requires mods { IsValidFlowMod mods.now }
        ensures { result ≡ is_overlapped mods.now self.now }
    {
        self.matches.overlaps(&mods.matches) && self.priority == mods.priority
    }

    fn is_same(&self, mods: &FlowMod) -> bool
        ensures { result ≡ is_same mods.now self.now }
    {
        self.matches.same(&mods.matches) && self.priority == mods.priority
    }

    fn is_covered(&self, mods: &FlowMod) -> bool
        requires valid { IsValidEntry self.now }
        requires mods { IsValidFlowMod mods.now }
        ensures { result ≡ is_covered mods.now self.now }
    {
        mods.matches.covers(&self.matches)
    }

    fn has_output(&self, mods: &FlowMod) -> bool
        ensures { result ≡ has_output mods.now self.now }
    {
        mods.out_port == OFPP_NONE || has_output_to(mods.out_port, self.actions.as_slice())
    }

    /// Whether the entry runs out at a time.
    pub(crate) fn runs_out(&self, now: u32) -> bool
        ensures { result ≡ runs_out now self.now }
    {
        self.is_worn_out(now) || self.is_idle(now)
    }

    /// Why it does.
    pub(crate) fn reason(&self, now: u32) -> u8
        ensures { result ≡ reason_of now self.now }
    {
        if self.is_worn_out(now) {
            OFPRR_HARD_TIMEOUT
        } else {
            OFPRR_IDLE_TIMEOUT
        }
    }

    fn is_worn_out(&self, now: u32) -> bool
        ensures { result ≡ is_worn_out now self.now }
    {
        self.hard > 0 && u32::from(self.hard) <= now.saturating_sub(self.added)
    }

    fn is_idle(&self, now: u32) -> bool
        ensures { result ≡ is_idle now self.now }
    {
        self.idle > 0 && u32::from(self.idle) <= now.saturating_sub(self.hit)
    }
}

/// Whether one of the actions is an Output to the port.
fn has_output_to(port: u16, actions: &[Action]) -> bool
    ensures { result ≡ list_any (is_output_to port) actions.now }
{
    actions.iter().any(|action| is_output_to(port, action))
}

fn is_output_to(port: u16, action: &Action) -> bool
    ensures { result ≡ is_output_to port action.now }
{
    match action {
        Action::Output { port: to, .. } => *to == port,
        _ => false,
    }
}
