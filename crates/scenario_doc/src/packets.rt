//! Headers and matches.
ghost use Rattle.std.specs.Prelude.{◌≡◌, ◌<◌, ◌^◌, Ok};
ghost use Rattle.serde_json.specs.View.{view};
ghost use Rattle.of10_match.specs.Header.{IsValidHeader};
ghost use Rattle.doc_forms.specs.Reading.{Gives};
ghost use Rattle.scenario_doc.specs.Packets.{header_of, match_of, prefix_of};
ghost use Rattle.scenario_doc.specs.Ranges.{IsWideMatch, IsWidePrefix};

use crate::numbers::{ADDRESS, Bits8, Bits16, Bits48, Nullable};
use doc_forms::{DocFail, Form, counted, element, number_at, u8_at, u16_at, u32_at};
use of10_match::{Header, Match};
use serde_json::Value;
use std::alloc::Global;

/// A header, as a list of its eleven fields.
pub(crate) struct HeaderForm;

impl Form for HeaderForm {
    type Read = Header;

    ghost form = { header_of };

    ghost holds = { IsValidHeader };

    fn read(alloc: Global, value: &Value) -> Result<Header, DocFail> {
        counted(alloc, value, 11)?;
        let dl_src = number_at(alloc, value, 0, 0, ADDRESS)?;
        let dl_dst = number_at(alloc, value, 1, 0, ADDRESS)?;
        let dl_vlan = u16_at(alloc, value, 2)?;
        let dl_vlan_pcp = u8_at(alloc, value, 3)?;
        let dl_type = u16_at(alloc, value, 4)?;
        let nw_tos = u8_at(alloc, value, 5)?;
        let nw_proto = u8_at(alloc, value, 6)?;
        let nw_src = u32_at(alloc, value, 7)?;
        let nw_dst = u32_at(alloc, value, 8)?;
        let tp_src = u16_at(alloc, value, 9)?;
        let tp_dst = u16_at(alloc, value, 10)?;
        Ok(Header {
            dl_src,
            dl_dst,
            dl_vlan,
            dl_vlan_pcp,
            dl_type,
            nw_tos,
            nw_proto,
            nw_src,
            nw_dst,
            tp_src,
            tp_dst,
        })
    }
}

/// An address, and how many of its leading bits are compared.
pub(crate) struct Prefix;

impl Form for Prefix {
    type Read = (u32, u8);

    ghost form = { prefix_of };

    ghost holds = { IsWidePrefix };

    fn read(alloc: Global, value: &Value) -> Result<(u32, u8), DocFail> {
        counted(alloc, value, 2)?;
        let address = u32_at(alloc, value, 0)?;
        let compared = number_at(alloc, value, 1, 1, 32)? as u8;
        Ok((address, compared))
    }
}

/// A match, as a list of its twelve fields; `null` stands for a field that takes everything.
pub(crate) struct MatchForm;

impl Form for MatchForm {
    type Read = Match;

    ghost form = { match_of };

    ghost holds = { IsWideMatch };

    fn read(alloc: Global, value: &Value) -> Result<Match, DocFail> {
        counted(alloc, value, 12)?;
        let in_port = element::<Nullable<Bits16>>(alloc, value, 0)?;
        let dl_src = element::<Nullable<Bits48>>(alloc, value, 1)?;
        let dl_dst = element::<Nullable<Bits48>>(alloc, value, 2)?;
        let dl_vlan = element::<Nullable<Bits16>>(alloc, value, 3)?;
        let dl_vlan_pcp = element::<Nullable<Bits8>>(alloc, value, 4)?;
        let dl_type = element::<Nullable<Bits16>>(alloc, value, 5)?;
        let nw_tos = element::<Nullable<Bits8>>(alloc, value, 6)?;
        let nw_proto = element::<Nullable<Bits8>>(alloc, value, 7)?;
        let nw_src = element::<Nullable<Prefix>>(alloc, value, 8)?;
        let nw_dst = element::<Nullable<Prefix>>(alloc, value, 9)?;
        let tp_src = element::<Nullable<Bits16>>(alloc, value, 10)?;
        let tp_dst = element::<Nullable<Bits16>>(alloc, value, 11)?;
        Ok(Match {
            in_port,
            dl_src,
            dl_dst,
            dl_vlan,
            dl_vlan_pcp,
            dl_type,
            nw_tos,
            nw_proto,
            nw_src,
            nw_dst,
            tp_src,
            tp_dst,
        })
    }
}
