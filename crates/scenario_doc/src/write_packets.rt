//! Headers and matches as they are written.
ghost use Rattle.std.specs.Prelude.{◌≡◌, IfOk};
ghost use Rattle.serde_json.specs.View.{view};
ghost use Rattle.doc_forms.specs.Written.{nullable_data, number_data};
ghost use Rattle.scenario_doc.specs.Written.{header_data, match_data, prefix_data};

use doc_forms::ToJson;
use of10_match::{Header, Match, Prefix};
use serde_json::{Value, json};
use std::alloc::{AllocError, Global};

/// A header as a list of its eleven fields.
pub(crate) fn header_json(alloc: Global, header: &Header) -> Result<Value, AllocError>
    ensures { IfOk result (λ value. view value ≡ header_data header.now) }
{
    json!(in alloc; [
        header.dl_src,
        header.dl_dst,
        header.dl_vlan,
        header.dl_vlan_pcp,
        header.dl_type,
        header.nw_tos,
        header.nw_proto,
        header.nw_src,
        header.nw_dst,
        header.tp_src,
        header.tp_dst
    ])
}

/// An address and how many of its leading bits are compared, or `null`.
fn prefix_json(alloc: Global, prefix: Option<Prefix>) -> Result<Value, AllocError>
    ensures { IfOk result (λ value. view value ≡ nullable_data prefix_data prefix) }
{
    match prefix {
        Some((address, compared)) => json!(in alloc; [address, compared]),
        None => Ok(Value::Null),
    }
}

/// A number, or `null`.
fn u8_json(number: Option<u8>) -> Value
    ensures { view result ≡ nullable_data number_data number }
{
    Value::from(number)
}

fn u16_json(number: Option<u16>) -> Value
    ensures { view result ≡ nullable_data number_data number }
{
    Value::from(number)
}

fn u64_json(number: Option<u64>) -> Value
    ensures { view result ≡ nullable_data number_data number }
{
    Value::from(number)
}

/// Matches, each a list of twelve fields; `null` stands for a field that takes everything.
pub(crate) struct MatchJson;

impl ToJson for MatchJson {
    type Of = Match;

    ghost json = { match_data };

    fn to_json(alloc: Global, matches: &Match) -> Result<Value, AllocError> {
        let nw_src = prefix_json(alloc, matches.nw_src)?;
        let nw_dst = prefix_json(alloc, matches.nw_dst)?;
        let fields = vec![in alloc;
            u16_json(matches.in_port),
            u64_json(matches.dl_src),
            u64_json(matches.dl_dst),
            u16_json(matches.dl_vlan),
            u8_json(matches.dl_vlan_pcp),
            u16_json(matches.dl_type),
            u8_json(matches.nw_tos),
            u8_json(matches.nw_proto),
            nw_src,
            nw_dst,
            u16_json(matches.tp_src),
            u16_json(matches.tp_dst),
        ]?;
        Ok(Value::Array(fields))
    }
}
