//! A queue whose items are numbered in the order of their coming.
ghost use Rattle.std.specs.Prelude.{◌≡◌, ◌+◌, ◌<◌, ◌≤◌, ◌^◌, ◌↔◌, [], length, IsTrue, IfOk, OnOk, max, option_map};
ghost use Rattle.message_pools.specs.Queue.{empty_queue, next_number, head_of, rest_of, with_last, flushed};

use crate::item::Item;
use std::alloc::{AllocError, Global};
use std::collections::VecDeque;
use std::marker::Model;

/// The items that wait, first in, first out. Contracts see the queue, and beside it the room that was
/// reserved and not used yet, so that a put that follows a `reserve` can't fail. A copy has the same queue, and
/// no such room.
#[derive(Debug, Drop)]
pub struct Pool {
    items: VecDeque<Item>,
    first: u64,
    // Within what the deque can take without growing.
    spare: usize,
}

impl Model for Pool {
    ghost use Rattle.std.specs.Prelude.{◌+◌, ◌≤◌, ◌^◌};
    ghost use Rattle.std.specs.VecDeque.{deque_len, deque_capacity};
    ghost use Rattle.message_pools.specs.Queue.{Reserved};

    ghost Value = { Reserved };

    ghost view = { λ p. record {
      queue = record { first = p.first; items = p.items.items };
      spare = p.spare;
    } };

    ghost invariant = { λ p. (p.first + deque_len p.items ≤ 2 ^ 63) × (deque_len p.items + p.spare ≤ deque_capacity p.items) };
}

impl Pool {
    /// A pool to which nothing has come. It takes no memory.
    pub fn new(alloc: Global) -> Pool
        ensures { result.queue ≡ empty_queue }
    {
        Pool {
            items: VecDeque::new(alloc),
            first: 0,
            spare: 0,
        }
    }

    /// Makes room for `more` items in all: room that is there already counts. The queue is the same whatever the answer.
    pub fn reserve(&mut self, more: usize) -> Result<(), AllocError>
        ensures room { OnOk result (more ≤ self.new.spare) }
        ensures kept { self.old.spare ≤ self.new.spare }
        ensures most { self.new.spare ≤ max self.old.spare more }
        ensures queue { self.new.queue ≡ self.old.queue }
    {
        if more > self.spare {
            self.items.reserve(more)?;
            self.spare = more;
        }
        Ok(())
    }

    /// For how many items more there is room.
    pub fn spare(&self) -> usize
        ensures { result ≡ self.now.spare }
    {
        self.spare
    }

    /// Makes room for one item beside those for which there is room already. The queue is the same whatever the answer.
    pub fn reserve_one(&mut self) -> Result<(), AllocError>
        ensures room { OnOk result (self.old.spare + 1 ≤ self.new.spare) }
        ensures kept { self.old.spare ≤ self.new.spare }
        ensures most { self.new.spare ≤ self.old.spare + 1 }
        ensures queue { self.new.queue ≡ self.old.queue }
    {
        self.reserve(self.spare.checked_add(1).ok_or(AllocError)?)
    }

    /// Puts an item last, and answers its number.
    pub fn put(&mut self, item: Item) -> u64
        requires room { 0 < self.old.spare }
        requires numbers { next_number self.old.queue < 2 ^ 63 }
        ensures number { result ≡ next_number self.old.queue }
        ensures queue { self.new.queue ≡ with_last self.old.queue item }
        ensures spare { self.new.spare + 1 ≡ self.old.spare }
    {
        let number = self.first + self.items.len() as u64;
        self.items.push_back(item).unwrap();
        self.spare -= 1;
        number
    }

    /// The first item and its number.
    pub fn head(&self) -> Option<(u64, &Item)>
        ensures { option_map (λ head. (head.0, head.1.now)) result ≡ head_of self.now.queue }
    {
        let item = self.items.front()?;
        Some((self.first, item))
    }

    /// Takes the first item out, with its number.
    pub fn take(&mut self) -> Option<(u64, Item)>
        ensures item { result ≡ head_of self.old.queue }
        ensures rest { self.new.queue ≡ rest_of self.old.queue }
        ensures spare { self.old.spare ≤ self.new.spare }
    {
        let item = self.items.pop_front()?;
        let number = self.first;
        self.first += 1;
        Some((number, item))
    }

    /// Throws away all that waits.
    pub fn flush(&mut self)
        ensures queue { self.new.queue ≡ flushed self.old.queue }
        ensures spare { self.old.spare ≤ self.new.spare }
    {
        self.first += self.items.len() as u64;
        self.items.clear();
    }

    /// How many items wait.
    pub fn len(&self) -> usize
        ensures { result ≡ length self.now.queue.items }
    {
        self.items.len()
    }

    pub fn is_empty(&self) -> bool
        ensures { IsTrue result ↔ (self.now.queue.items ≡ []) }
    {
        self.items.is_empty()
    }

    /// A second pool with the same queue.
    pub fn copy(&self) -> Result<Pool, AllocError>
        ensures queue { IfOk result (λ pool. pool.queue ≡ self.now.queue) }
        ensures room { IfOk result (λ pool. pool.spare ≡ 0) }
    {
        Ok(Pool {
            items: self.items.clone()?,
            first: self.first,
            spare: 0,
        })
    }
}

#[cfg(test)]
mod tests {
    use super::*;
    use listed::Plain;
    use of10_match::{Header, Match, Packet};
    use of10_messages::{Message, Notice};
    use std::test::Fail;

    fn packet(tag: u32) -> Item {
        let header = Header {
            dl_src: 1,
            dl_dst: 2,
            dl_vlan: 65535,
            dl_vlan_pcp: 0,
            dl_type: 2048,
            nw_tos: 0,
            nw_proto: 6,
            nw_src: 10,
            nw_dst: 20,
            tp_src: 1000,
            tp_dst: 80,
        };
        Item::Packet(Packet { header, tag })
    }

    #[test]
    fn numbers_go_on_after_a_flush(rt: HostRuntime) -> Result<(), Fail> {
        let mut pool = Pool::new(rt.alloc());
        pool.reserve(2)?;
        pool.reserve_one()?;
        assert_eq!(rt; pool.put(packet(7)), 0);
        assert_eq!(rt; pool.put(packet(8)), 1);
        let (number, item) = pool.head().ok_or("a head")?;
        assert!(rt; number == 0 && item.same(&packet(7)));
        let (number, item) = pool.take().ok_or("an item")?;
        assert!(rt; number == 0 && item.same(&packet(7)));
        assert_eq!(rt; pool.len(), 1);
        let copy = pool.copy()?;
        pool.flush();
        assert!(rt; pool.is_empty());
        assert!(rt; pool.head().is_none());
        assert_eq!(rt; pool.put(packet(9)), 2);
        let (number, item) = copy.head().ok_or("a head of the copy")?;
        assert!(rt; number == 1 && item.same(&packet(8)));
        Ok(())
    }

    #[test]
    fn items_are_told_apart(rt: HostRuntime) -> Result<(), Fail> {
        let items = [
            Item::Message(Message::Hello { xid: 1 }),
            Item::Message(Message::Hello { xid: 2 }),
            Item::Gone,
            packet(7),
            packet(8),
            Item::Notice(Notice::Tick(1)),
            Item::Notice(Notice::Join { down: 1 }),
            Item::Policy(Match::any()),
        ];
        for (at, item) in items.iter().enumerate() {
            let copy = item.copy()?;
            for (place, other) in items.iter().enumerate() {
                assert_eq!(rt; copy.same(other), at == place);
            }
        }
        Ok(())
    }
}
