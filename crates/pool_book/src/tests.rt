//! Pools of two switches with 2 and 3 ports, one controller and two hosts. Puts are made by the world above.
use super::*;
use std::test::Fail;

#[test]
fn nothing_waits_at_the_start(rt: HostRuntime) -> Result<(), Fail> {
    let mut pools = Pools::start(rt.alloc(), [2, 3].as_slice(), 1, 2)?;
    let name = PoolName::Pkt { s: 1, p: 3 };
    pools.make_room(name)?;
    pools.make_room_for(name, 2)?;
    assert!(rt; pools.take(name).is_none());
    pools.flush(name);
    let copy = pools.copy()?;
    assert!(rt; copy.is_quiet() && copy.first().is_none());
    for actor in [
        Actor::Script,
        Actor::Switch(1),
        Actor::Controller(0),
        Actor::Host(1),
    ] {
        assert!(rt; copy.first_of(actor).is_none());
    }
    assert_eq!(rt; name.taker(), Actor::Switch(1));
    for (name, is_there) in [
        (PoolName::Ctl(1), true),
        (PoolName::Ctl(2), false),
        (PoolName::Pkt { s: 0, p: 2 }, true),
        (PoolName::Pkt { s: 0, p: 3 }, false),
        (PoolName::Pkt { s: 0, p: 0 }, false),
        (PoolName::Pkt { s: 1, p: 3 }, true),
        (PoolName::Note(1), true),
        (PoolName::App { c: 0, s: 1 }, true),
        (PoolName::App { c: 1, s: 0 }, false),
        (PoolName::Admin(0), true),
        (PoolName::Recv(1), true),
        (PoolName::Recv(2), false),
    ] {
        assert!(rt; copy.pool(name).is_some() == is_there);
    }
    Ok(())
}
