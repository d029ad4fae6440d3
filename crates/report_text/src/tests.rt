//! Lines with values put together by hand.
use super::{sequence_lines, verdict_lines};
use crate::replays::replay_text;
use causal_replay::{Taken, Why};
use event_machine::Event;
use invariant_check::{Finish, Node, Verdict, Walk};
use listed::Listed;
use machine_setup::{Input, Line};
use of10_match::Header;
use std::alloc::{AllocError, Global};
use std::test::Fail;
use topology::Invariant;

const TO_TWO: Header = Header {
    dl_src: 1,
    dl_dst: 2,
    dl_vlan: 65535,
    dl_vlan_pcp: 0,
    dl_type: 2048,
    nw_tos: 0,
    nw_proto: 6,
    nw_src: 10,
    nw_dst: 20,
    tp_src: 1000,
    tp_dst: 80,
};

#[test]
fn a_replay_that_leaves_the_history(rt: HostRuntime) -> Result<(), Fail> {
    let run = [
        Taken {
            event: Event::In(2),
            why: Why::Input,
        },
        Taken {
            event: Event::Pkt {
                s: 0,
                p: 1,
                item: 0,
            },
            why: Why::Expected { entry: 17 },
        },
        Taken {
            event: Event::Note { s: 0, item: 1 },
            why: Why::Extra,
        },
    ];
    let text = replay_text(rt.alloc(), &run, &[19, 21], Some(1))?;
    assert_eq!(rt;
        text.as_str(),
        "replay 3 steps\n0 input 2\n1 expected 17 pkt 0 1 0\n2 extra note 0 1\nabsent 2\nend violated 1\n"
    );
    Ok(())
}

fn violated(alloc: Global, finish: Finish) -> Result<Verdict, AllocError> {
    let mut nodes = Listed::new(alloc);
    for s in 0u16..2 {
        nodes.push(Node {
            s,
            p: 3 - s,
            header: TO_TWO,
        })?;
    }
    Ok(Verdict::Violated {
        host: 4,
        header: TO_TWO,
        walk: Walk { nodes, finish },
    })
}

#[test]
fn verdicts_that_are_violated(rt: HostRuntime) -> Result<(), Fail> {
    let alloc = rt.alloc();
    let mut verdicts = Listed::new(alloc);
    verdicts.push(violated(alloc, Finish::Repeat)?)?;
    verdicts.push(violated(alloc, Finish::Out { s: 1, p: 9 })?)?;
    let text = verdict_lines(
        alloc,
        &[Invariant::LoopFree, Invariant::NoBlackHole],
        &verdicts,
    )?;
    assert_eq!(rt;
        text.as_slice(),
        b"verdict 0 loop violated host 4 header 1,2,65535,0,2048,0,6,10,20,1000,80 walk 0:3 1:2\nverdict 1 blackhole violated host 4 header 1,2,65535,0,2048,0,6,10,20,1000,80 walk 0:3 1:2 out 1:9\n".as_slice()
    );
    Ok(())
}

#[test]
fn lines_that_are_kept(rt: HostRuntime) -> Result<(), Fail> {
    let alloc = rt.alloc();
    let script = [
        Line {
            after_quiet: false,
            input: Input::LinkDown(4),
        },
        Line {
            after_quiet: false,
            input: Input::Seconds(5),
        },
        Line {
            after_quiet: true,
            input: Input::LinkUp(4),
        },
    ];
    let mut atom = Listed::new(alloc);
    atom.push(0u32)?;
    atom.push(2)?;
    let mut atoms = Listed::new(alloc);
    atoms.push(atom)?;
    let text = sequence_lines(alloc, &script, &atoms, 2)?;
    assert_eq!(rt;
        text.as_slice(),
        b"sequence 1 atoms of 2\ninput 0 [0,\"linkdown\",4]\ninput 2 [1,\"linkup\",4]\n".as_slice()
    );
    Ok(())
}
