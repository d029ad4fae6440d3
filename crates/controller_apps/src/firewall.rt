//! A firewall: it puts entries into its switches that drop the packets of its rules.
ghost use Rattle.std.specs.Prelude.{◌≡◌, ◌≤◌, ◌<◌, ◌^◌, ◌||◌, ◌++◌, not, length, map, All, OnOk, OnErr};
ghost use Rattle.controller_api.specs.Reaction.{IsValidUpItem};
ghost use Rattle.app_messages.specs.Extending.{Extends};
ghost use Rattle.controller_apps.specs.Firewall.{at_features, at_policy, denial, guarding, has_joined, joined_before, wall_of, IsWall, Wall};
ghost use Rattle.of10_match.specs.declared.matches.Match.{Match};
ghost use Rattle.of10_match.specs.Match.{IsValidMatch};
ghost use Rattle.of10_messages.specs.Valid.{IsValidMessage};

use app_messages::add;
use controller_api::{Controller, Outbox, UpItem};
use listed::{Listed, Plain};
use of10_match::Match;
use of10_messages::{Message, no_actions};
use std::alloc::{AllocError, Global};
use std::collections::BTreeSet;
use std::marker::Model;

/// The priority of the entries that drop.
const PRIORITY: u16 = 60_000;

/// Rules of a firewall: packets that a rule takes are dropped.
pub type Rules = Listed<Match>;

/// A firewall. Contracts see its rules, and the switches that have joined in ascending order.
#[derive(Debug, Drop)]
pub struct Firewall {
    reinstall: bool,
    made: Rules,
    policies: Rules,
    joined: BTreeSet<u16>,
    alloc: Global,
}

impl Model for Firewall {
    ghost use Rattle.controller_apps.specs.Firewall.{IsWall, Wall};

    ghost Value = { Wall };

    ghost view = { λ w. record { reinstall = w.reinstall; made = w.made; policies = w.policies; joined = w.joined.keys } };

    ghost invariant = { λ w. IsWall (record { reinstall = w.reinstall; made = w.made; policies = w.policies; joined = w.joined.keys }) };
}

impl Firewall {
    /// One with these rules, which no switch has joined yet. Where `reinstall` is set a switch that joins again is sent all
    /// rules again. It takes no memory.
    pub fn new(alloc: Global, reinstall: bool, rules: Rules) -> Firewall
        requires few { length rules ≤ 64 }
        requires valid { All IsValidMatch rules }
        ensures { result ≡ wall_of reinstall rules }
    {
        Firewall {
            reinstall,
            made: rules,
            policies: Listed::new(alloc),
            joined: BTreeSet::new(alloc),
            alloc,
        }
    }

    /// Whether a switch that joins again is sent all rules again.
    pub fn reinstall(&self) -> bool
        ensures { result ≡ self.now.reinstall }
    {
        self.reinstall
    }

    /// The rules that it was made with.
    pub fn rules(&self) -> &[Match]
        ensures { result.now ≡ self.now.made }
    {
        self.made.as_slice()
    }

    /// What holds of every firewall: a fact for proofs.
    pub fn parts(&self)
        ensures { IsWall self.now }
    {
        let _made = &self.made;
    }

    /// Whether a switch that tells its features is sent all rules.
    fn sends_to(&self, s: u16) -> bool
        ensures { result ≡ (self.now.reinstall || not (has_joined self.now s)) }
    {
        self.reinstall || !self.joined.contains(&s)
    }

    /// Sends a switch that tells its features all rules, unless it has them. After want of memory some of them may have been
    /// sent.
    fn send_all(&self, s: u16, out: &mut Outbox) -> Result<(), AllocError>
        ensures sent { OnOk result (out.new ≡ out.old ++ (at_features s self.now).sent) }
        ensures unsent { OnErr result (Extends out.old out.new) }
    {
        if !self.sends_to(s) {
            return Ok(());
        }
        send_rules(self.alloc, s, self.made.as_slice(), out)?;
        send_rules(self.alloc, s, self.policies.as_slice(), out)
    }

    /// A switch tells its features. After want of memory it has not joined.
    fn join(&mut self, s: u16) -> Result<(), AllocError>
        ensures state { OnOk result (self.new ≡ (at_features s self.old).state) }
        ensures err { OnErr result (self.new ≡ self.old) }
    {
        if self.sends_to(s) {
            self.joined.insert(s)?;
        }
        Ok(())
    }

    /// A policy becomes the last rule. After want of memory it is none.
    fn deny(&mut self, deny: Match) -> Result<(), AllocError>
        requires { IsValidMatch deny }
        ensures state { OnOk result (self.new ≡ (at_policy deny self.old).state) }
        ensures err { OnErr result (self.new ≡ self.old) }
    {
        self.policies.push(deny)
    }

    /// A switch that joined last has not joined, unless it had before.
    fn leave(&mut self, s: u16, before: bool)
        ensures { (wall : Wall) → IsWall wall → self.old ≡ (at_features s wall).state → before ≡ has_joined wall s → self.new ≡ wall }
    {
        if !before {
            self.joined.remove(&s);
        }
    }

    /// The policy that came last is none.
    fn allow(&mut self)
        ensures { (wall : Wall) (deny : Match) → self.old ≡ (at_policy deny wall).state → self.new ≡ wall }
    {
        let fewer = self.policies.len().saturating_sub(1);
        self.policies.truncate(fewer);
    }

    /// Sends what answers an item, and changes nothing of itself. After want of memory some of it may have been sent.
    pub fn send(&self, item: &UpItem, out: &mut Outbox) -> Result<(), AllocError>
        requires { IsValidUpItem item.now }
        ensures sent { OnOk result (out.new ≡ out.old ++ (guarding self.now item.now).sent) }
        ensures unsent { OnErr result (Extends out.old out.new) }
    {
        match item {
            UpItem::FromSwitch(s, Message::FeaturesReply { .. }) => self.send_all(*s, out),
            UpItem::Policy(deny) => send_to_all(self.alloc, &self.joined, *deny, out),
            UpItem::FromSwitch(..) | UpItem::Gone(_) => Ok(()),
        }
    }

    /// Comes to the state after an item. After want of memory it is as it was.
    pub fn hear(&mut self, item: &UpItem) -> Result<(), AllocError>
        requires { IsValidUpItem item.now }
        ensures state { OnOk result (self.new ≡ (guarding self.old item.now).state) }
        ensures err { OnErr result (self.new ≡ self.old) }
    {
        match item {
            UpItem::FromSwitch(s, Message::FeaturesReply { .. }) => self.join(*s),
            UpItem::Policy(deny) => self.deny(*deny),
            UpItem::FromSwitch(..) | UpItem::Gone(_) => Ok(()),
        }
    }

    /// Whether the switch that an item is from has joined, for `undo`.
    pub fn joined_before(&self, item: &UpItem) -> bool
        ensures { result ≡ joined_before self.now item.now }
    {
        match item {
            UpItem::FromSwitch(s, _) => self.joined.contains(s),
            UpItem::Gone(_) | UpItem::Policy(_) => false,
        }
    }

    /// Goes back to the state before an item that it heard last, with whether its switch had joined before. It takes no memory.
    pub fn undo(&mut self, item: &UpItem, before: bool)
        ensures { (wall : Wall) → IsWall wall → self.old ≡ (guarding wall item.now).state → before ≡ joined_before wall item.now → self.new ≡ wall }
    {
        match item {
            UpItem::FromSwitch(s, Message::FeaturesReply { .. }) => self.leave(*s, before),
            UpItem::Policy(_) => self.allow(),
            UpItem::FromSwitch(..) | UpItem::Gone(_) => {}
        }
    }
}

impl Controller for Firewall {
    ghost react = { guarding };

    ghost start = { λ wall. wall_of wall.reinstall wall.made };

    ghost policies = { λ wall. length wall.policies };

    fn fresh(&self) -> Result<Firewall, AllocError> {
        let rules = self.made.copy()?;
        Ok(Firewall::new(self.alloc, self.reinstall, rules))
    }

    fn send(&self, item: &UpItem, out: &mut Outbox) -> Result<(), AllocError> {
        self.parts();
        let before = out.list().len();
        match Firewall::send(self, item, out) {
            Ok(()) => Ok(()),
            Err(error) => {
                out.truncate(before);
                Err(error)
            }
        }
    }

    fn hear(&mut self, item: &UpItem, _sent: &[(u16, Message)]) -> Result<(), AllocError> {
        Firewall::hear(self, item)
    }

    fn copy(&self) -> Result<Firewall, AllocError> {
        let made = self.made.copy()?;
        let policies = self.policies.copy()?;
        let joined = self.joined.clone()?;
        Ok(Firewall {
            reinstall: self.reinstall,
            made,
            policies,
            joined,
            alloc: self.alloc,
        })
    }
}

/// The entry that drops the packets of a rule.
fn entry(alloc: Global, rule: Match) -> Message
    requires { IsValidMatch rule }
    ensures value { result ≡ denial rule }
    ensures valid { IsValidMessage result }
{
    add(rule, PRIORITY, 0, no_actions(alloc))
}

/// Sends a switch the entry of each rule. After want of memory some of them may have been sent.
fn send_rules(alloc: Global, s: u16, rules: &[Match], out: &mut Outbox) -> Result<(), AllocError>
    requires { All IsValidMatch rules.now }
    ensures ok { OnOk result (out.new ≡ out.old ++ map (λ rule. (s, denial rule)) rules.now) }
    ensures err { OnErr result (Extends out.old out.new) }
{
    for rule in rules {
        out.send(s, entry(alloc, *rule))?;
    }
    Ok(())
}

/// Sends each switch the entry of a rule. After want of memory some of them may have been sent.
fn send_to_all(
    alloc: Global,
    joined: &BTreeSet<u16>,
    rule: Match,
    out: &mut Outbox,
) -> Result<(), AllocError>
    requires { IsValidMatch rule }
    ensures ok { OnOk result (out.new ≡ out.old ++ map (λ s. (s, denial rule)) joined.now.keys) }
    ensures err { OnErr result (Extends out.old out.new) }
{
    for s in joined {
        out.send(*s, entry(alloc, rule))?;
    }
    Ok(())
}
