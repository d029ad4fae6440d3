//! Work that many do at once, each with a partner of its own.
#![tactic(auto)]

ghost use Rattle.std.specs.Prelude.{◌≡◌, ◌+◌, ◌∷◌, All, length};
ghost use Rattle.std.specs.Thread.{IsSend, IsSync};
ghost use Rattle.paired_work.specs.Worked.{CanWork, HasWorked, HaveWorked};

use std::thread::{Threads, join_mut};

/// Calls `work` with each of `works` and its partner, all at once, in threads where they can be started. It takes no memory, and waits
/// for nothing but the end of all work.
#[cycle(workers)]
pub fn work_all<R: Threads + Sync, W: Send, P: Send, F: Fn(&mut W, &mut P) + Sync>(
    rt: &R,
    work: &F,
    works: &mut [W],
    partners: &mut [P],
)
    requires count { length works.old ≡ length partners.old }
    requires can { All (CanWork F.Fn work.now) works.old }
    ensures { HaveWorked (HasWorked F.Fn work.now) works.old works.new partners.old partners.new }
{
    if let Some((first, others)) = works.split_first_mut() {
        work_from(rt, work, first, others, partners);
    }
}

// Takes the first partner for the first work.
#[cycle(workers)]
fn work_from<R: Threads + Sync, W: Send, P: Send, F: Fn(&mut W, &mut P) + Sync>(
    rt: &R,
    work: &F,
    first: &mut W,
    others: &mut [W],
    partners: &mut [P],
)
    requires count { length others.old + 1 ≡ length partners.old }
    requires can { CanWork F.Fn work.now first.old }
    requires others { All (CanWork F.Fn work.now) others.old }
    ensures { HaveWorked (HasWorked F.Fn work.now) (first.old ∷ others.old) (first.new ∷ others.new) partners.old partners.new }
{
    if let Some((partner, partners)) = partners.split_first_mut() {
        work_both(rt, work, first, partner, others, partners);
    }
}

// Does the first work in this thread and the others in another.
#[cycle(workers)]
fn work_both<R: Threads + Sync, W: Send, P: Send, F: Fn(&mut W, &mut P) + Sync>(
    rt: &R,
    work: &F,
    first: &mut W,
    partner: &mut P,
    others: &mut [W],
    partners: &mut [P],
)
    requires count { length others.old ≡ length partners.old }
    requires can { CanWork F.Fn work.now first.old }
    requires others { All (CanWork F.Fn work.now) others.old }
    ensures first { HasWorked F.Fn work.now first.old first.new partner.old partner.new }
    ensures others { HaveWorked (HasWorked F.Fn work.now) others.old others.new partners.old partners.new }
{
    let mut rest = ||
        requires { IsSync R.row × IsSync F.row × IsSend P.row × IsSend W.row × (length others.now ≡ length partners.now) × All (CanWork F.Fn work.now) others.now }
        ensures { HaveWorked (HasWorked F.Fn work.entry.now) others.entry.now others.exit.now partners.entry.now partners.exit.now }
    { work_all(rt, work, others, partners) };
    let mut one = ||
        requires { CanWork F.Fn work.now first.now }
        ensures { HasWorked F.Fn work.entry.now first.entry.now first.exit.now partner.entry.now partner.exit.now }
    { work_one(work, first, partner) };
    join_mut(rt, &mut rest, &mut one);
}

// Does one work with its partner.
#[tactic(auto, unfolding(crate::specs::Worked::HasWorked))]
fn work_one<W, P, F: Fn(&mut W, &mut P)>(work: &F, one: &mut W, partner: &mut P)
    requires { CanWork F.Fn work.now one.old }
    ensures { HasWorked F.Fn work.now one.old one.new partner.old partner.new }
{
    work(one, partner);
}

#[cfg(test)]
mod tests;
