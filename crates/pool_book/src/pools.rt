//! All pools by their names.
ghost use Rattle.std.specs.Prelude.{◌≡◌, [], ℕ, ◌<◌, ◌≤◌, ◌^◌, ◌↔◌, IsTrue, IfOk, IfSome, IsSome, OnOk, length, map, slice_get, option_map, option_and_then};
ghost use Rattle.message_pools.specs.Queue.{empty_queue, flushed, head_of, next_number, rest_of, with_last};
ghost use Rattle.pool_book.specs.Names.{names};
ghost use Rattle.pool_book.specs.Places.{FirstWithin, Found, head_name, marks};
ghost use Rattle.pool_book.specs.Pools.{HasRoomFor, HasRoomUpTo, IsQuiet, UsesRoom, changed, empty_pools, first_waiting, first_waiting_for, pool_of, queues, room_of};

use crate::actor::Actor;
use crate::all_names::all_names;
use crate::layout::{Layout, Span};
use crate::name::PoolName;
use listed::Listed;
use message_pools::{Item, Pool};
use number_set::NumberSet;
use std::alloc::{AllocError, Global};
use std::marker::Model;

/// All pools of a network. Contracts see them by their names and in their order, each with its room. It knows in which pools
/// something waits, so no call goes through all of them but `start` and `copy`.
#[derive(Debug, Drop)]
pub struct Pools {
    layout: Layout,
    pools: Listed<(PoolName, Pool)>,
    // The numbers of those in which something waits.
    waiting: NumberSet,
}

impl Model for Pools {
    ghost use Rattle.std.specs.Prelude.{List};
    ghost use Rattle.message_pools.specs.Queue.{Reserved};
    ghost use Rattle.pool_book.specs.declared.name.PoolName.{PoolName};
    ghost use Rattle.pool_book.specs.Places.{Booked};

    ghost Value = { List (PoolName × Reserved) };

    ghost view = { λ p. p.pools };

    ghost invariant = { λ p. Booked p.layout p.pools p.waiting };
}

impl Pools {
    /// Empty pools for switches with these numbers of ports, and so many controllers and hosts.
    pub fn start(
        alloc: Global,
        ports: &[u16],
        controllers: u16,
        hosts: u16,
    ) -> Result<Pools, AllocError>
        requires { length (names ports.now controllers hosts) ≤ 4096 }
        ensures { IfOk result (λ pools. queues pools ≡ empty_pools ports.now controllers hosts) }
    {
        let layout = Layout::new(alloc, ports, controllers, hosts)?;
        let names = all_names(alloc, ports, controllers, hosts)?;
        let pools = empty(alloc, names.as_slice())?;
        let waiting = NumberSet::new(alloc, pools.len())?;
        Ok(Pools {
            layout,
            pools,
            waiting,
        })
    }

    /// The pool of a name, if there is one.
    pub fn pool(&self, name: PoolName) -> Option<&Pool>
        ensures { option_map (λ pool. pool.now) result ≡ pool_of name self.now }
    {
        let number = self.number(name)?;
        let (_, pool) = &self.pools[number];
        Some(pool)
    }

    /// Makes room for one item in the pool of a name, if there is such a pool, beside the room that it has already.
    pub fn make_room(&mut self, name: PoolName) -> Result<(), AllocError>
        ensures room { OnOk result (IsSome (pool_of name self.old) → HasRoomFor name 1 self.old self.new) }
        ensures kept { HasRoomFor name 0 self.old self.new }
        ensures queues { queues self.new ≡ queues self.old }
    {
        match self.number(name) {
            Some(number) => self.pools.item_mut(number).1.reserve_one(),
            None => Ok(()),
        }
    }

    /// Makes room for so many items in all in the pool of a name, if there is such a pool: room that it has already counts.
    pub fn make_room_for(&mut self, name: PoolName, count: usize) -> Result<(), AllocError>
        ensures room { OnOk result (IsSome (pool_of name self.old) → count ≤ room_of name self.new) }
        ensures kept { HasRoomFor name 0 self.old self.new }
        ensures most { HasRoomUpTo name count self.old self.new }
        ensures queues { queues self.new ≡ queues self.old }
    {
        match self.number(name) {
            Some(number) => self.pools.item_mut(number).1.reserve(count),
            None => Ok(()),
        }
    }

    /// Puts an item last into the pool of a name, where there is room for it; if there is no such pool the item is gone.
    pub fn put(&mut self, name: PoolName, item: Item)
        requires room { IsSome (pool_of name self.old) → 0 < room_of name self.old }
        requires numbers { IfSome (pool_of name (queues self.old)) (λ queue. next_number queue < 2 ^ 63) }
        ensures queues { queues self.new ≡ changed name (λ queue. with_last queue item) (queues self.old) }
        ensures room { UsesRoom name 1 self.old self.new }
    {
        if let Some(number) = self.number(name) {
            self.pools.item_mut(number).1.put(item);
            self.waiting.insert(number);
        }
    }

    /// Takes the first item out of the pool of a name, with its number.
    pub fn take(&mut self, name: PoolName) -> Option<(u64, Item)>
        ensures item { result ≡ option_and_then head_of (pool_of name (queues self.old)) }
        ensures queues { queues self.new ≡ changed name rest_of (queues self.old) }
        ensures room { HasRoomFor name 0 self.old self.new }
    {
        let number = self.number(name)?;
        let pool = &mut self.pools.item_mut(number).1;
        let taken = pool.take();
        if pool.is_empty() {
            self.waiting.remove(number);
        }
        taken
    }

    /// Throws away all that waits in the pool of a name.
    pub fn flush(&mut self, name: PoolName)
        ensures queues { queues self.new ≡ changed name flushed (queues self.old) }
        ensures room { HasRoomFor name 0 self.old self.new }
    {
        if let Some(number) = self.number(name) {
            self.pools.item_mut(number).1.flush();
            self.waiting.remove(number);
        }
    }

    /// The first pool in which something waits, and the number of the first item there.
    pub fn first(&self) -> Option<(PoolName, u64)>
        ensures { result ≡ first_waiting (queues self.now) }
    {
        let number = self.waiting.first_from(0)?;
        self.head_at(number)
    }

    /// The first pool from which an actor takes in which something waits, and the number of the first item there.
    pub fn first_of(&self, actor: Actor) -> Option<(PoolName, u64)>
        ensures { result ≡ first_waiting_for actor (queues self.now) }
    {
        let reach = self.layout.reach(actor);
        if let Some(number) = self.first_within(reach.first) {
            return self.head_at(number);
        }
        if let Some(number) = self.first_within(reach.second) {
            return self.head_at(number);
        }
        let number = self.first_within(reach.third)?;
        self.head_at(number)
    }

    /// Whether nothing waits anywhere.
    pub fn is_quiet(&self) -> bool
        ensures { IsTrue result ↔ IsQuiet (queues self.now) }
    {
        self.waiting.is_empty()
    }

    /// Other pools in which the same waits.
    pub fn copy(&self) -> Result<Pools, AllocError>
        ensures { IfOk result (λ pools. queues pools ≡ queues self.now) }
    {
        let layout = self.layout.copy()?;
        let pools = copies(self.layout.alloc(), self.pools.as_slice())?;
        let waiting = self.waiting.copy()?;
        Ok(Pools {
            layout,
            pools,
            waiting,
        })
    }

    // At which number the pool of a name stands.
    fn number(&self, name: PoolName) -> Option<usize>
        ensures { Found name self.now result }
    {
        self.layout.number(name)
    }

    // The name of the pool at a number, and the number of the first item there.
    fn head_at(&self, number: usize) -> Option<(PoolName, u64)>
        requires { number < length self.now }
        ensures { result ≡ option_and_then head_name (slice_get (queues self.now) number) }
    {
        let (name, pool) = &self.pools[number];
        let (first, _) = pool.head()?;
        Some((*name, first))
    }

    // The least number of those in which something waits, among some.
    fn first_within(&self, span: Span) -> Option<usize>
        ensures { FirstWithin span.start span.end (marks self.now) result }
    {
        let number = self.waiting.first_from(span.start)?;
        if number >= span.end {
            return None;
        }
        Some(number)
    }
}

// A pool for each name, to which nothing has come.
fn empty(alloc: Global, names: &[PoolName]) -> Result<Listed<(PoolName, Pool)>, AllocError>
    ensures { IfOk result (λ pools. queues pools ≡ map (λ name. (name, empty_queue)) names.now) }
{
    let mut pools = Listed::new(alloc);
    for name in names {
        pools.push((*name, Pool::new(alloc)))?;
    }
    Ok(pools)
}

// Other pools with the same names and queues.
fn copies(alloc: Global, pools: &[(PoolName, Pool)]) -> Result<Listed<(PoolName, Pool)>, AllocError>
    ensures { IfOk result (λ copies. queues copies ≡ queues pools.now) }
{
    let mut copies = Listed::new(alloc);
    for (name, pool) in pools {
        copies.push((*name, pool.copy()?))?;
    }
    Ok(copies)
}
