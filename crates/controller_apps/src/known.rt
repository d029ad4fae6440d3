//! The port at which each address was seen last, switch by switch.
ghost use Rattle.std.specs.Prelude.{◌≡◌, ℕ, IfOk, OnOk, OnErr};
ghost use Rattle.std.specs.FinMap as map;
ghost use Rattle.controller_apps.specs.Ports.{AtSwitch, Ports, entry_at, no_ports, port_at, with_port, without_switch};

use std::alloc::{AllocError, Global};
use std::collections::BTreeMap;
use std::marker::Model;

/// The ports of one switch. Contracts see them as a map from addresses to ports.
#[derive(Debug, Drop)]
struct SwitchPorts {
    ports: BTreeMap<u64, u16>,
}

impl Model for SwitchPorts {
    ghost use Rattle.std.specs.Coded.{coded_ℕ};
    ghost use Rattle.std.specs.FinMap as map;
    ghost use Rattle.controller_apps.specs.Ports.{AtSwitch};

    ghost Value = { AtSwitch };

    ghost coded = { map.code coded_ℕ coded_ℕ };

    ghost view = { λ there. map.from_entries there.ports.entries };
}

impl SwitchPorts {
    fn new(alloc: Global) -> SwitchPorts
        ensures { result ≡ map.empty }
    {
        SwitchPorts {
            ports: BTreeMap::new(alloc),
        }
    }

    fn port(&self, address: u64) -> Option<u16>
        ensures { result ≡ map.get self.now address }
    {
        self.ports.get(&address).copied()
    }

    fn put(&mut self, address: u64, port: u16) -> Result<(), AllocError>
        ensures ok { OnOk result (self.new ≡ map.insert self.old address port) }
        ensures err { OnErr result (self.new ≡ self.old) }
    {
        self.ports.insert(address, port)?;
        Ok(())
    }

    /// The address has the port again that it had before it was put, or none. It takes no memory.
    fn put_back(&mut self, address: u64, before: Option<u16>)
        ensures { (there : AtSwitch) (port : ℕ) → self.old ≡ map.insert there address port → before ≡ map.get there address → self.new ≡ there }
    {
        match before {
            None => {
                self.ports.remove(&address);
            }
            Some(port) => {
                if let Some(now) = self.ports.get_mut(&address) {
                    *now = port;
                }
            }
        }
    }
}

impl Clone for SwitchPorts {
    ghost is_clone = { λ x y. y ≡ x };

    fn clone(&self) -> Result<SwitchPorts, AllocError> {
        let ports = self.ports.clone()?;
        Ok(SwitchPorts { ports })
    }
}

/// The ports of all switches. Contracts see them as a map from switches to maps from addresses to ports.
#[derive(Debug, Drop)]
pub struct KnownPorts {
    switches: BTreeMap<u16, SwitchPorts>,
}

impl Model for KnownPorts {
    ghost use Rattle.std.specs.FinMap as map;
    ghost use Rattle.controller_apps.specs.Ports.{Ports, ports_code};

    ghost Value = { Ports };

    ghost coded = { ports_code };

    ghost view = { λ known. map.from_entries known.switches.entries };
}

impl KnownPorts {
    /// No address is known. It takes no memory.
    pub fn new(alloc: Global) -> KnownPorts
        ensures { result ≡ no_ports }
    {
        KnownPorts {
            switches: BTreeMap::new(alloc),
        }
    }

    pub fn port(&self, s: u16, address: u64) -> Option<u16>
        ensures { result ≡ port_at s address self.now }
    {
        self.switches.get(&s)?.port(address)
    }

    /// What is known of the switch, if anything is: the port at which the address was seen there, if it was.
    pub fn entry(&self, s: u16, address: u64) -> Option<Option<u16>>
        ensures { result ≡ entry_at s address self.now }
    {
        let there = self.switches.get(&s)?;
        Some(there.port(address))
    }

    /// The address was seen at a port of the switch.
    pub fn learn(
        &mut self,
        alloc: Global,
        s: u16,
        address: u64,
        port: u16,
    ) -> Result<(), AllocError>
        ensures ok { OnOk result (self.new ≡ with_port s address port self.old) }
        ensures err { OnErr result (self.new ≡ self.old) }
    {
        if let Some(there) = self.switches.get_mut(&s) {
            return there.put(address, port);
        }
        let mut there = SwitchPorts::new(alloc);
        there.put(address, port)?;
        self.switches.insert(s, there)?;
        Ok(())
    }

    /// What was learnt last of the address is known no more, but what was known before. It takes no memory.
    pub fn put_back(&mut self, s: u16, address: u64, before: Option<Option<u16>>)
        ensures { (ports : Ports) (port : ℕ) → self.old ≡ with_port s address port ports → before ≡ entry_at s address ports → self.new ≡ ports }
    {
        match before {
            None => self.forget(s),
            Some(before) => {
                if let Some(there) = self.switches.get_mut(&s) {
                    there.put_back(address, before);
                }
            }
        }
    }

    /// All that is known at the switch is forgotten.
    pub fn forget(&mut self, s: u16)
        ensures { self.new ≡ without_switch s self.old }
    {
        self.switches.remove(&s);
    }

    /// The same ports once more.
    pub fn copy(&self) -> Result<KnownPorts, AllocError>
        ensures { IfOk result (λ known. known ≡ self.now) }
    {
        let switches = self.switches.clone()?;
        Ok(KnownPorts { switches })
    }
}
