//! The names of all pools, made in their order.
ghost use Rattle.std.specs.Prelude.{◌≡◌, ◌+◌, ◌<◌, ◌≤◌, ◌^◌, ◌++◌, OnOk, IfOk, length, map, flat_map};
ghost use Rattle.std.specs.List.{enumerate_from, range_with_len};
ghost use Rattle.pool_book.specs.Names.{names};
ghost use Rattle.pool_book.specs.declared.name.PoolName.TheVariants.{Ctl, Pkt, Note, App, Admin, Recv};

use crate::name::PoolName;
use listed::Listed;
use std::alloc::{AllocError, Global};

/// The names of all pools of a network, in their order.
pub(crate) fn all_names(
    alloc: Global,
    ports: &[u16],
    controllers: u16,
    hosts: u16,
) -> Result<Listed<PoolName>, AllocError>
    requires { length ports.now < 2 ^ 16 }
    ensures { IfOk result (λ all. all ≡ names ports.now controllers hosts) }
{
    let switches = ports.len() as u16;
    let mut all = Listed::new(alloc);
    put_ctls(&mut all, switches)?;
    put_all_ports(&mut all, ports)?;
    put_notes(&mut all, switches)?;
    put_all_apps(&mut all, controllers, switches)?;
    put_admins(&mut all, controllers)?;
    put_recvs(&mut all, hosts)?;
    Ok(all)
}

fn put_ctls(all: &mut Listed<PoolName>, switches: u16) -> Result<(), AllocError>
    ensures { OnOk result (all.new ≡ all.old ++ map Ctl (range_with_len 0 switches)) }
{
    for s in 0..switches {
        all.push(PoolName::Ctl(s))?;
    }
    Ok(())
}

fn put_all_ports(all: &mut Listed<PoolName>, ports: &[u16]) -> Result<(), AllocError>
    requires { length ports.now < 2 ^ 16 }
    ensures { OnOk result (all.new ≡ all.old ++ flat_map (λ switch. map (Pkt switch.0) (range_with_len 1 switch.1)) (enumerate_from 0 ports.now)) }
{
    for (s, count) in ports.iter().enumerate() {
        put_ports(all, s as u16, *count)?;
    }
    Ok(())
}

fn put_ports(all: &mut Listed<PoolName>, s: u16, count: u16) -> Result<(), AllocError>
    ensures { OnOk result (all.new ≡ all.old ++ map (Pkt s) (range_with_len 1 count)) }
{
    for before in 0..count {
        all.push(PoolName::Pkt { s, p: before + 1 })?;
    }
    Ok(())
}

fn put_notes(all: &mut Listed<PoolName>, switches: u16) -> Result<(), AllocError>
    ensures { OnOk result (all.new ≡ all.old ++ map Note (range_with_len 0 switches)) }
{
    for s in 0..switches {
        all.push(PoolName::Note(s))?;
    }
    Ok(())
}

fn put_all_apps(
    all: &mut Listed<PoolName>,
    controllers: u16,
    switches: u16,
) -> Result<(), AllocError>
    ensures { OnOk result (all.new ≡ all.old ++ flat_map (λ c. map (App c) (range_with_len 0 switches)) (range_with_len 0 controllers)) }
{
    for c in 0..controllers {
        put_apps(all, c, switches)?;
    }
    Ok(())
}

fn put_apps(all: &mut Listed<PoolName>, c: u16, switches: u16) -> Result<(), AllocError>
    ensures { OnOk result (all.new ≡ all.old ++ map (App c) (range_with_len 0 switches)) }
{
    for s in 0..switches {
        all.push(PoolName::App { c, s })?;
    }
    Ok(())
}

fn put_admins(all: &mut Listed<PoolName>, controllers: u16) -> Result<(), AllocError>
    ensures { OnOk result (all.new ≡ all.old ++ map Admin (range_with_len 0 controllers)) }
{
    for c in 0..controllers {
        all.push(PoolName::Admin(c))?;
    }
    Ok(())
}

fn put_recvs(all: &mut Listed<PoolName>, hosts: u16) -> Result<(), AllocError>
    ensures { OnOk result (all.new ≡ all.old ++ map Recv (range_with_len 0 hosts)) }
{
    for h in 0..hosts {
        all.push(PoolName::Recv(h))?;
    }
    Ok(())
}
