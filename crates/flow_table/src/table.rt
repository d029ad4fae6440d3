//! A flow table.

ghost use Rattle.std.specs.Prelude.{◌≡◌, ◌≢◌, ◌<◌, [], All, IfErr, IfOk, IsOk, OnErr, OnOk, length};
ghost use Rattle.std.specs.Option.{option_copied};
ghost use Rattle.listed.specs.Lists.{changed_at};
ghost use Rattle.of10_messages.specs.Valid.{IsValidFlowMod};
ghost use Rattle.flow_table.specs.Best.{after_packet, best_entry, best_place};
ghost use Rattle.flow_table.specs.Command.{command};
ghost use Rattle.flow_table.specs.Entry.{IsTable, counted};
ghost use Rattle.flow_table.specs.Expiry.{IsPast, gone, staying};
ghost use Rattle.flow_table.specs.declared.effect.TableNo.TheVariants.{OutOfMemory};

use crate::best;
use crate::change::{add, delete, expire, modify};
use crate::command::Command;
use crate::effect::{Effect, Gone10, TableNo};
use crate::entry::Entry;
use of10_match::Header;
use of10_messages::FlowMod;
use std::alloc::{AllocError, Global};
use std::marker::Model;

/// How many entries a table holds at most.
pub const TABLE_CAPACITY: usize = 1024;

/// A flow table. Contracts see its entries, which are valid and at most 1,024, in the order of their adding.
#[derive(Debug, Drop)]
pub struct Table {
    entries: Vec<Entry>,
}

impl Model for Table {
    ghost use Rattle.std.specs.Prelude.{List};
    ghost use Rattle.flow_table.specs.Entry.{IsTable};
    ghost use Rattle.flow_table.specs.declared.entry.Entry.{Entry};

    ghost Value = { List Entry };

    ghost view = { λ t. t.entries.items };

    ghost invariant = { λ t. IsTable t.entries.items };
}

impl Table {
    /// A table without entries. It takes no memory.
    pub fn new(alloc: Global) -> Table
        ensures { result ≡ [] }
    {
        Table {
            entries: Vec::new(alloc),
        }
    }

    /// A table with these entries, in this order. It takes no memory.
    pub fn of(entries: Vec<Entry>) -> Table
        requires { IsTable entries.items }
        ensures { result ≡ entries.items }
    {
        Table { entries }
    }

    /// The entries in the order of their adding.
    pub fn entries(&self) -> &[Entry]
        ensures entries { result.now ≡ self.now }
        ensures table { IsTable self.now }
    {
        self.entries.as_slice()
    }

    /// A second table with the same entries.
    pub fn copy(&self) -> Result<Table, AllocError>
        ensures { IfOk result (λ table. table ≡ self.now) }
    {
        let entries = Vec::from_clones(*self.entries.allocator(), self.entries.as_slice())?;
        Ok(Table { entries })
    }

    /// Applies a FLOW_MOD with a command at a time. It takes the memory that it needs first: a refused command leaves the
    /// table as it was.
    pub fn command(&mut self, how: Command, mods: &FlowMod, now: u32) -> Result<Effect, TableNo>
        requires { IsValidFlowMod mods.now }
        ensures ok { IfOk result (λ effect. command how self.old mods.now now
            ≡ Ok (record { entries = self.new; removed = effect.removed; changed = effect.changed })) }
        ensures refused { IfErr result (λ no. no ≢ OutOfMemory → command how self.old mods.now now ≡ Err no) }
        ensures memory { IfErr result (λ no. no ≡ OutOfMemory → IsOk (command how self.old mods.now now)) }
        ensures err { OnErr result (self.new ≡ self.old) }
    {
        let alloc = *self.entries.allocator();
        match how {
            Command::Add => add(alloc, &mut self.entries, mods, now),
            Command::Modify | Command::ModifyStrict => {
                modify(alloc, &mut self.entries, how, mods, now)
            }
            Command::Delete | Command::DeleteStrict => delete(alloc, &mut self.entries, how, mods),
        }
    }

    /// Where the best entry stands for a packet that comes in by a port: the one of greatest rank, and of these the first.
    /// One scan of the table, and no memory.
    pub fn best_place(&self, in_port: u16, header: &Header) -> Option<usize>
        ensures { result ≡ best_place self.now in_port header.now }
    {
        best::best_place(self.entries.as_slice(), in_port, header)
    }

    /// The best entry for a packet that comes in by a port, or `None` where no entry takes it.
    pub fn lookup(&self, in_port: u16, header: &Header) -> Option<&Entry>
        ensures { option_copied result ≡ best_entry self.now in_port header.now }
    {
        let place = self.best_place(in_port, header)?;
        self.entries.get(place)
    }

    /// Counts a packet that the entry at a place took at a time: one packet and 64 bytes more.
    pub fn count_at(&mut self, place: usize, now: u32)
        requires { place < length self.old }
        ensures { self.new ≡ changed_at place (counted now) self.old }
    {
        self.entries[place].count(now);
    }

    /// Counts a packet for its best entry, if there is one.
    pub fn count_hit(&mut self, in_port: u16, header: &Header, now: u32)
        ensures { self.new ≡ after_packet self.old in_port header.now now }
    {
        if let Some(place) = self.best_place(in_port, header) {
            self.count_at(place, now);
        }
    }

    /// Takes out the entries that run out at a time, each with its reason. After want of memory the table is as it was.
    pub fn expire(&mut self, now: u32) -> Result<Gone10, AllocError>
        requires { All (IsPast now) self.old }
        ensures ok { IfOk result (λ gone_entries. gone_entries ≡ gone now self.old) }
        ensures rest { OnOk result (self.new ≡ staying now self.old) }
        ensures err { OnErr result (self.new ≡ self.old) }
    {
        let alloc = *self.entries.allocator();
        expire(alloc, &mut self.entries, now)
    }
}
