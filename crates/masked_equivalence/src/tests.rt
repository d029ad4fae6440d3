//! Which items are alike, and a mask.
use super::{alike, mask};
use listed::Plain;
use message_pools::Item;
use of10_match::Match;
use of10_messages::{FlowMod, Message, OFP_NO_BUFFER, no_actions};
use std::test::Fail;

fn flow_mod(rt: &impl AllocGlobal, xid: u32, cookie: u64, buffer_id: u32, priority: u16) -> Item {
    let mods = FlowMod::add(Match::any(), priority, no_actions(rt.alloc()));
    let mods = FlowMod {
        cookie,
        buffer_id,
        ..mods
    };
    Item::Message(Message::FlowMod { xid, mods })
}

#[test]
fn a_flow_mod_is_alike_under_other_numbers(rt: HostRuntime) -> Result<(), Fail> {
    let item = flow_mod(&rt, 5, 1, OFP_NO_BUFFER, 7);
    assert!(rt; alike(&item, &flow_mod(&rt, 9, 4, 3, 7)));
    assert!(rt; !alike(&item, &flow_mod(&rt, 5, 1, OFP_NO_BUFFER, 8)));
    assert!(rt; !alike(&item, &Item::Gone));
    let masked = mask(rt.alloc(), &item)?;
    assert!(rt; masked.item().same(&flow_mod(&rt, 0, 0, 0, 7)));
    assert!(rt; alike(&item, masked.item()));
    Ok(())
}
