//! The lines of verdicts.
ghost use Rattle.std.specs.Prelude.{◌≡◌, ◌++◌, IfOk, OnOk, flat_map, length, string_bytes};
ghost use Rattle.report_text.specs.Verdicts.{finish_text, header_text, judged_text, kind_text, node_text, verdict_line, verdicts_text, violated_text, walk_text};

use invariant_check::{Finish, Node, Verdict, Verdicts, Walk};
use of10_match::Header;
use std::alloc::{AllocError, Global};
use topology::Invariant;

/// A line for each verdict. The second list has the verdicts on the invariants of the first.
pub fn verdict_lines(
    alloc: Global,
    list: &[Invariant],
    verdicts: &Verdicts,
) -> Result<Vec<u8>, AllocError>
    requires { length list.now ≡ length verdicts.now }
    ensures { IfOk result (λ text. text.items ≡ verdicts_text list.now verdicts.now) }
{
    let mut text = String::new(alloc);
    for (place, verdict) in verdicts.iter().enumerate() {
        push_verdict(&mut text, place, &list[place], verdict)?;
    }
    Ok(text.into_bytes())
}

fn push_verdict(
    text: &mut String,
    place: usize,
    invariant: &Invariant,
    verdict: &Verdict,
) -> Result<(), AllocError>
    ensures { OnOk result (string_bytes text.new ≡ string_bytes text.old ++ verdict_line place invariant.now verdict.now) }
{
    let kind = kind(invariant);
    write!(text, "verdict {place} {kind}")?;
    push_judged(text, verdict)?;
    text.push('\n')
}

fn kind(invariant: &Invariant) -> &'static str
    ensures { result.now ≡ kind_text invariant.now }
{
    match invariant {
        Invariant::LoopFree => "loop",
        Invariant::NoBlackHole => "blackhole",
        Invariant::Forbid { .. } => "forbid",
    }
}

fn push_judged(text: &mut String, verdict: &Verdict) -> Result<(), AllocError>
    ensures { OnOk result (string_bytes text.new ≡ string_bytes text.old ++ judged_text verdict.now) }
{
    match verdict {
        Verdict::Holds => write!(text, " holds"),
        Verdict::Violated { host, header, walk } => push_violated(text, *host, header, walk),
    }
}

fn push_violated(
    text: &mut String,
    host: u16,
    header: &Header,
    walk: &Walk,
) -> Result<(), AllocError>
    ensures { OnOk result (string_bytes text.new ≡ string_bytes text.old ++ violated_text host header.now walk.now) }
{
    write!(text, " violated host {host}")?;
    push_header(text, header)?;
    push_walk(text, walk)
}

#[tactic(auto, unfolding(crate::specs::Verdicts::walk_text))]
fn push_walk(text: &mut String, walk: &Walk) -> Result<(), AllocError>
    ensures { OnOk result (string_bytes text.new ≡ string_bytes text.old ++ walk_text walk.now) }
{
    write!(text, " walk")?;
    push_nodes(text, walk.nodes.as_slice())?;
    push_finish(text, walk.finish)
}

#[tactic(auto, unfolding(crate::specs::Verdicts::header_text))]
fn push_header(text: &mut String, header: &Header) -> Result<(), AllocError>
    ensures { OnOk result (string_bytes text.new ≡ string_bytes text.old ++ header_text header.now) }
{
    let Header {
        dl_src,
        dl_dst,
        dl_vlan,
        dl_vlan_pcp,
        dl_type,
        nw_tos,
        nw_proto,
        nw_src,
        nw_dst,
        tp_src,
        tp_dst,
    } = header;
    write!(
        text,
        " header {dl_src},{dl_dst},{dl_vlan},{dl_vlan_pcp},{dl_type},{nw_tos},{nw_proto},{nw_src},{nw_dst},{tp_src},{tp_dst}"
    )
}

fn push_nodes(text: &mut String, nodes: &[Node]) -> Result<(), AllocError>
    ensures { OnOk result (string_bytes text.new ≡ string_bytes text.old ++ flat_map node_text nodes.now) }
{
    for node in nodes {
        let Node { s, p, header: _ } = node;
        write!(text, " {s}:{p}")?;
    }
    Ok(())
}

fn push_finish(text: &mut String, finish: Finish) -> Result<(), AllocError>
    ensures { OnOk result (string_bytes text.new ≡ string_bytes text.old ++ finish_text finish) }
{
    match finish {
        Finish::Repeat => Ok(()),
        Finish::Out { s, p } => write!(text, " out {s}:{p}"),
        Finish::AtHost(host) => write!(text, " host {host}"),
    }
}
