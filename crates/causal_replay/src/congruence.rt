//! What alike items make of one switch and of one host: laws of the definitions, each the contract of a function that does
//! nothing.
ghost use Rattle.std.specs.Prelude.{◌≡◌, ℕ};
ghost use Rattle.causal_replay.specs.AlikeHosts.{AlikeReactions, SameHostButNumbers, masked_heard};
ghost use Rattle.causal_replay.specs.Congruence.{AlikeSteps, SameButNumbers};
ghost use Rattle.controller_api.specs.declared.item.UpItem.{UpItem};
ghost use Rattle.controller_api.specs.declared.item.UpItem.TheVariants.{FromSwitch};
ghost use Rattle.controller_host.specs.Hosting.{Hosting, hosting};
ghost use Rattle.masked_equivalence.specs.Mask.{masked};
ghost use Rattle.message_pools.specs.declared.item.Item.TheVariants as item;
ghost use Rattle.of10_match.specs.declared.packet.Packet.{Packet};
ghost use Rattle.of10_messages.specs.declared.message.Message.{Message};
ghost use Rattle.of10_messages.specs.declared.notice.Notice.{Notice};
ghost use Rattle.switch_core.specs.Step.{handled, noticed, received};
ghost use Rattle.switch_core.specs.declared.state.State.{State};

/// Two switches that are equal but for the next xid, cookies and counts come to such switches again at alike items, and what
/// they send is alike, the data of ERROR messages aside: these repeat bytes of the request.
pub fn alike_items_make_alike_steps()
    ensures message { (s t : State) (m n : Message) → SameButNumbers s t → masked (item.Message m) ≡ masked (item.Message n)
        → AlikeSteps (handled s m) (handled t n) }
    ensures packet { (s t : State) (in_port : ℕ) (p q : Packet) → SameButNumbers s t → masked (item.Packet p) ≡ masked (item.Packet q)
        → AlikeSteps (received s in_port p) (received t in_port q) }
    ensures notice { (s t : State) (n k : Notice) → SameButNumbers s t → masked (item.Notice n) ≡ masked (item.Notice k)
        → AlikeSteps (noticed s n) (noticed t k) }
{}

/// Two hosts with the same applications in the same states, equal but for the next xid and the next cookie, come to such hosts
/// again at alike items, and send alike messages to the same switches. Of an ERROR that is heard the data don't count, so that
/// what alike switches send are alike items too.
pub fn alike_items_make_alike_reactions()
    ensures messages { (s : ℕ) (m n : Message) → masked (item.Message m) ≡ masked (item.Message n)
        → masked_heard (FromSwitch s m) ≡ masked_heard (FromSwitch s n) }
    ensures reactions { (h k : Hosting) (u v : UpItem) → SameHostButNumbers h k → masked_heard u ≡ masked_heard v
        → AlikeReactions (hosting h u) (hosting k v) }
{}
