//! Laws of the definitions, each the contract of a function that does nothing.
ghost use Rattle.std.specs.Prelude.{◌≡◌, ℕ, ◌≤◌, List, Option, length};
ghost use Rattle.controller_api.specs.declared.item.UpItem.{UpItem};
ghost use Rattle.route_app.specs.Paths.{Exit, IsNextHop, next_hop};
ghost use Rattle.route_app.specs.Routing.{Router, routing};

/// The next hop begins a path of the least number of links, by the least port that does.
pub fn the_next_hop_begins_a_shortest_path()
    ensures { (exits : List Exit) (a b : ℕ) → IsNextHop exits a b (next_hop exits a b) }
{}

/// What begins a path of the least number of links by the least port is determined.
pub fn there_is_one_next_hop()
    ensures { (exits : List Exit) (a b : ℕ) (one other : Option ℕ) → IsNextHop exits a b one → IsNextHop exits a b other → one ≡ other }
{}

/// At an item two messages are sent at most.
pub fn a_routing_controller_sends_few()
    ensures { (router : Router) (item : UpItem) → length (routing router item).sent ≤ 2 }
{}
