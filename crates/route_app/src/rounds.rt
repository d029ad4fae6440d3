//! The search for shortest paths to one switch, level by level.
ghost use Rattle.std.specs.Prelude.{◌≡◌, ℕ, ◌+◌, ◌<◌, ◌≤◌, ◌^◌, [], ◌∷◌, ◌++◌, List, All, drop, length, replicate, None};
ghost use Rattle.route_app.specs.Paths.{Exit};
ghost use Rattle.route_app.specs.Rounds.{after_round, found, is_better, newly_found, visited, HasRoom};
ghost use Rattle.route_app.specs.Table.{IsRow};
ghost use Rattle.route_app.specs.Ways.{leading_to, open_ways, AreOpen, AreWays};

use crate::queue::Queue;
use crate::reach::{Reach, Row, WayIn};
use crate::told::is_down;
use listed::Listed;

/// Finds the shortest paths to a switch, each by the least port that begins one. It takes no memory. Each switch that has a path
/// is put into the queue once, and the ways in to it are looked at once.
pub fn fill_row(
    row: &mut Row,
    queue: &mut Queue,
    to: usize,
    ways_in: &[Listed<WayIn>],
    down: &[(bool, bool)],
)
    requires to { to < length row.old }
    requires few { length row.old ≤ 2 ^ 16 }
    requires room { length row.old ≤ length queue.old.places }
    requires size { length ways_in.now ≡ length row.old }
    requires ways { All (λ ways. AreWays (length row.old) (length down.now) ways) ways_in.now }
    ensures length { length row.new ≡ length row.old }
    ensures room { length queue.new.places ≡ length queue.old.places }
    ensures right { (exits : List Exit) → AreOpen exits ways_in.now down.now → IsRow exits to row.new }
{
    clear(row);
    row.replace(to, Some(Reach { links: 0, port: 0 }));
    queue.len = 0;
    queue.push(to as u16);
    let mut start = 0;
    for round in 0..row.len() as u32 {
        let end = queue.len;
        if start == end {
            return;
        }
        run_round(row, queue, start, round, ways_in, down);
        start = end;
    }
}

/// No path is known.
fn clear(row: &mut Row)
    ensures { row.new ≡ replicate (length row.old) None }
{
    for at in 0..row.len() {
        row.replace(at, None);
    }
}

/// Looks at the ways in to each switch of the last round: those in the queue from a place on.
fn run_round(
    row: &mut Row,
    queue: &mut Queue,
    start: usize,
    round: u32,
    ways_in: &[Listed<WayIn>],
    down: &[(bool, bool)],
)
    requires round { round < 2 ^ 16 }
    requires few { length row.old ≤ 2 ^ 16 }
    requires room { HasRoom row.old queue.old }
    requires last { All (λ s. s < length row.old) (drop start (found queue.old)) }
    requires size { length ways_in.now ≡ length row.old }
    requires ways { All (λ ways. AreWays (length row.old) (length down.now) ways) ways_in.now }
    ensures row { row.new ≡ after_round round (leading_to ways_in.now down.now (drop start (found queue.old))) row.old }
    ensures found { found queue.new ≡ found queue.old ++ newly_found round (leading_to ways_in.now down.now (drop start (found queue.old))) row.old }
    ensures length { length row.new ≡ length row.old }
    ensures room { HasRoom row.new queue.new }
    ensures places { length queue.new.places ≡ length queue.old.places }
{
    for at in start..queue.len {
        let s = queue.places[at];
        visit_all(
            row,
            queue,
            round,
            s,
            ways_in[usize::from(s)].as_slice(),
            down,
        );
    }
}

/// Looks at the ways in to a switch whose links can be used.
fn visit_all(
    row: &mut Row,
    queue: &mut Queue,
    round: u32,
    s: u16,
    ways: &[WayIn],
    down: &[(bool, bool)],
)
    requires round { round < 2 ^ 16 }
    requires few { length row.old ≤ 2 ^ 16 }
    requires room { HasRoom row.old queue.old }
    requires ways { AreWays (length row.old) (length down.now) ways.now }
    ensures row { row.new ≡ after_round round (open_ways down.now s ways.now) row.old }
    ensures found { found queue.new ≡ found queue.old ++ newly_found round (open_ways down.now s ways.now) row.old }
    ensures length { length row.new ≡ length row.old }
    ensures room { HasRoom row.new queue.new }
    ensures places { length queue.new.places ≡ length queue.old.places }
{
    for way in ways {
        if !is_down(down[way.link]) {
            visit(row, queue, round, (way.from, way.port, s));
        }
    }
}

/// Looks at one way out to a switch of the last round: the switch, the port, and the switch at the other end.
fn visit(row: &mut Row, queue: &mut Queue, round: u32, exit: (u16, u16, u16))
    requires round { round < 2 ^ 16 }
    requires few { length row.old ≤ 2 ^ 16 }
    requires room { HasRoom row.old queue.old }
    requires from { exit.0 < length row.old }
    ensures row { row.new ≡ visited round row.old exit }
    ensures found { found queue.new ≡ found queue.old ++ newly_found round (exit ∷ []) row.old }
    ensures length { length row.new ≡ length row.old }
    ensures room { HasRoom row.new queue.new }
    ensures places { length queue.new.places ≡ length queue.old.places }
{
    let from = usize::from(exit.0);
    let known = row[from];
    if known.is_none() {
        queue.push(exit.0);
    }
    if is_better(known, round + 1, exit.1) {
        let reach = Reach {
            links: round + 1,
            port: exit.1,
        };
        row.replace(from, Some(reach));
    }
}

/// Whether a path is new, or as short as the known one and by a lesser port.
fn is_better(known: Option<Reach>, links: u32, port: u16) -> bool
    ensures { result ≡ is_better links port known }
{
    match known {
        None => true,
        Some(reach) => reach.links == links && port < reach.port,
    }
}
