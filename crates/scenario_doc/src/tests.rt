//! A scenario with an element of each form, which is written as it was read, and one that is refused.
use super::{DocFail, read_scenario, write_scenario};
use std::test::Fail;

// One switch under a controller with three applications, one without, and a line of each kind.
const SCENARIO: &str =
    "{\"budget\":8,\"controllers\":[[[\"learning\",9],[\"firewall\",true,[[1,2,3,4,5,6,7,8,[167772160,8],null,9,10]]],[\"routing\",false]]],\"hosts\":[[0,1,1],[1,2,2]],\"invariants\":[[\"loop\"],[\"blackhole\"],[\"forbid\",0,1,[null,null,null,null,null,null,null,null,null,null,null,null]]],\"links\":[[0,2,1,1]],\"max_events\":100,\"patience\":3,\"script\":[[0,\"inject\",0,[1,2,65535,0,2048,0,6,10,20,1000,80],7],[0,\"linkdown\",0],[0,\"linkup\",0],[1,\"switchfail\",1],[0,\"switchup\",1],[0,\"controldown\",0],[0,\"controlup\",0],[0,\"hostmove\",0,0,1],[0,\"policy\",0,[null,null,2,null,null,null,null,null,null,null,null,null]],[0,\"seconds\",5]],\"sts\":1,\"switches\":[[2,0,[]],[2,null,[[[null,null,5,null,null,null,null,null,null,null,null,null],7,[[\"set\",5,6],[\"set\",1,4095],[\"strip\"],[\"output\",2,0]],1,2,1,3]]]],\"workers\":2}";

#[test]
fn a_scenario_with_each_form(rt: HostRuntime) -> Result<(), Fail> {
    let read = read_scenario(rt.alloc(), SCENARIO.as_bytes());
    let Ok(scenario) = read else {
        return Err(Fail::from("it is not read"));
    };
    let setup = &scenario.setup;
    assert_eq!(rt;
        (setup.topology.hosts.len(), setup.topology.links.len()),
        (2, 1)
    );
    assert_eq!(rt; (setup.script.len(), setup.presets.len()), (10, 2));
    assert_eq!(rt;
        (setup.controllers.len(), scenario.invariants.len()),
        (1, 3)
    );
    assert_eq!(rt; (setup.limits.budget, setup.limits.workers), (8, 2));
    let written = write_scenario(rt.alloc(), &scenario)?;
    assert_eq!(rt; written.as_slice(), SCENARIO.as_bytes());
    Ok(())
}

#[test]
fn an_address_of_another_host(rt: HostRuntime) -> Result<(), Fail> {
    let document = SCENARIO.replacen(rt.alloc(), "[1,2,2]]", "[1,2,1]]", 1)?;
    match read_scenario(rt.alloc(), document.as_bytes()) {
        Err(DocFail::Refused { number, path }) => {
            assert_eq!(rt; number, 14);
            assert_eq!(rt; path.as_slice(), b"/hosts/1/2".as_slice());
            Ok(())
        }
        _ => Err(Fail::from("it is not refused")),
    }
}
