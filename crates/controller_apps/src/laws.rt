//! Laws of the definitions, each the contract of a function that does nothing.
ghost use Rattle.std.specs.Prelude.{◌≡◌, ◌<◌, ◌≤◌, ◌^◌, ℕ, List, fold, length};
ghost use Rattle.controller_api.specs.declared.item.UpItem.{UpItem};
ghost use Rattle.controller_apps.specs.Firewall.{IsWall, Wall, guarding};
ghost use Rattle.controller_apps.specs.Learning.{Learner, last_told, learning, port_of, unlearnt};

/// What a learning controller knows of an address at a switch is what was told of it last: the port of the last packet from
/// the switch that had the address as its source, since the switch last told its features.
pub fn what_a_learning_controller_knows()
    ensures { (idle : ℕ) (items : List UpItem) (s address : ℕ)
        → port_of (fold (λ learner item. (learning learner item).state) (unlearnt idle) items) s address ≡ last_told s address items }
{}

/// A learning switch's application sends two messages at most.
pub fn a_learning_controller_sends_few()
    ensures { (learner : Learner) (item : UpItem) → length (learning learner item).sent ≤ 2 }
{}

/// A firewall with fewer than 2^24 policies sends fewer than 2^25 messages at an item.
pub fn a_firewall_sends_few()
    ensures { (wall : Wall) (item : UpItem) → IsWall wall → length wall.policies < 2 ^ 24 → length (guarding wall item).sent < 2 ^ 25 }
{}
