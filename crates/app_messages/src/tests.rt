//! A packet that came up, and what is sent of it.
use super::{Seen, add};
use listed::{Listed, Plain};
use of10_match::Match;
use of10_messages::{Message, no_actions};
use std::test::Fail;

#[test]
fn a_packet_goes_on(rt: HostRuntime) -> Result<(), Fail> {
    for (len, is_seen) in [(35usize, false), (36, true), (37, false)] {
        let content = Listed::of(vec![in rt.alloc(); 0u8; len]?);
        let up = Message::packet_in(9, 3, 0, content);
        let seen = Seen::of(&up);
        assert_eq!(rt; seen.is_some(), is_seen, "at {len}");
        if let Some(seen) = seen {
            let sent = seen.sent_on(rt.alloc(), 7)?;
            assert_eq!(rt; sent.xid(), 0);
            assert_eq!(rt; seen.exact_match().in_port, Some(3));
            assert_eq!(rt; seen.header().dl_src, 0);
        }
    }
    Ok(())
}

#[test]
fn an_entry_is_added(rt: HostRuntime) -> Result<(), Fail> {
    let added = add(Match::any(), 5, 9, no_actions(rt.alloc()));
    let Message::FlowMod { xid, mods } = &added else {
        return Err(Fail::from("no FLOW_MOD"));
    };
    assert_eq!(rt;
        (*xid, mods.cookie, mods.priority, mods.idle_timeout),
        (0, 0, 5, 9)
    );
    assert!(rt; added.copy()?.same(&added));
    Ok(())
}
