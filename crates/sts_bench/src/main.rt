//! Times layers of the workspace, one by one: `sts_bench LAYER COUNT`, where LAYER is `messages`, `tables`, `turn_book`,
//! `world`, `replays`, `verdicts` or `all`. Figures go to standard error. Messages go by whole hundreds.
#![tactic(auto)]

mod figure;
mod messages;
mod relay;
mod replays;
mod tables;
mod turns;
mod verdicts;
mod worlds;

use anyhow::{Result, bail};
use std::env;
use std::thread::Threads;
use std::time::{Clock, Duration};
use worlds::Size;

/// Nanoseconds for each of so many calls, in tenths.
fn tenths_each(time: Duration, count: u64) -> u128 {
    time.as_nanos() * 10 / u128::from(count.max(1))
}

fn time_messages<R: AllocGlobal + Clock + Eprint + Print + Sync>(rt: &R, count: u64) -> Result<()> {
    let rounds = count / u64::from(messages::ROUND);
    let calls = rounds.saturating_mul(u64::from(messages::ROUND));
    let figures = messages::timed(rt, rounds)?;
    for (name, figure) in [
        ("decode", figures.decoded),
        ("encode", figures.encoded),
        ("View::of", figures.viewed),
    ] {
        let tenths = tenths_each(figure.time, calls);
        eprintln!(rt; "messages: {name}: {}.{} ns each", tenths / 10, tenths % 10)?;
    }
    println!(rt;
        "messages: {calls} FLOW_MODs of 80 bytes: cookies {}, lengths {}, xids {}",
        figures.decoded.sum, figures.encoded.sum, figures.viewed.sum
    )?;
    Ok(())
}

fn time_tables<R: AllocGlobal + Clock + Eprint + Print>(rt: &R, calls: u64) -> Result<()> {
    let figures = tables::timed(rt, calls)?;
    for (name, figure) in [
        ("first", figures.first),
        ("last", figures.last),
        ("none", figures.none),
    ] {
        let tenths = tenths_each(figure.time, calls);
        eprintln!(rt;
            "tables: {name} of 1024: {}.{} ns each",
            tenths / 10,
            tenths % 10
        )?;
    }
    let packets = tables::timed_switch(rt, calls)?;
    let tenths = tenths_each(packets.time, calls);
    eprintln!(rt;
        "tables: switch of 16: {}.{} ns each",
        tenths / 10,
        tenths % 10
    )?;
    println!(rt;
        "tables: {calls} look-ups each: first {}, last {}, none {}; {} packets left",
        figures.first.sum, figures.last.sum, figures.none.sum, packets.sum
    )?;
    Ok(())
}

fn time_turns<R: AllocGlobal + Clock + Eprint + Print + Threads + Sync>(
    rt: &R,
    tries: u64,
) -> Result<()> {
    for threads in [1, 2, 4] {
        let (time, won) = turns::timed(rt, threads, tries)?;
        let nanos = time.as_nanos();
        eprintln!(rt;
            "turn_book: {threads} threads, {tries} tries each: {won} turns won in {nanos} ns"
        )?;
    }
    println!(rt; "turn_book: 1, 2 and 4 threads, {tries} tries each")?;
    Ok(())
}

fn time_worlds<R: AllocGlobal + Clock + Eprint + Print>(rt: &R, count: u64) -> Result<()> {
    let quarter = count / 4;
    for size in worlds::SIZES {
        let Size { switches, ports } = size;
        let figures = worlds::timed(rt, size, quarter)?;
        let first = tenths_each(figures.first.time, quarter);
        let last = tenths_each(figures.last.time, quarter);
        eprintln!(rt;
            "world: {switches} switches of {ports} ports: first {quarter}: {}.{} ns each, last {quarter}: {}.{} ns each",
            first / 10,
            first % 10,
            last / 10,
            last % 10
        )?;
        println!(rt;
            "world: {switches} switches of {ports} ports: {} events, {} inputs, {} packets taken first, {} last",
            figures.events, figures.inputs, figures.first.sum, figures.last.sum
        )?;
    }
    Ok(())
}

fn time_replays<R: AllocGlobal + Clock + Eprint + Print>(rt: &R, count: u64) -> Result<()> {
    let most = u32::try_from(count)?.clamp(1, worlds::MOST_EVENTS);
    for events in [most.div_ceil(4), most] {
        let figures = replays::timed(rt, events)?;
        for (kept, replayed) in [
            ("all", figures.all),
            ("half", figures.half),
            ("none", figures.none),
        ] {
            let steps = replayed.steps;
            let tenths = tenths_each(replayed.time, u64::from(events));
            eprintln!(rt;
                "replays: {events} entries, {kept} of the inputs: {}.{} ns an entry",
                tenths / 10,
                tenths % 10
            )?;
            println!(rt;
                "replays: {events} entries, {kept} of the inputs: {steps} steps, {} entries absent",
                replayed.absent
            )?;
        }
    }
    Ok(())
}

fn time_verdicts<R: AllocGlobal + Clock + Eprint + Print>(rt: &R) -> Result<()> {
    for (network, judged) in [
        (
            "64 switches with 125 routes each",
            verdicts::timed_routes(rt)?,
        ),
        (
            "8 switches with 64 overlapping entries each",
            verdicts::timed_overlapping(rt)?,
        ),
    ] {
        let micros = judged.time.as_micros();
        eprintln!(rt; "verdicts: {network}: {micros} us")?;
        println!(rt; "verdicts: {network}: {} of 3 violated", judged.violated)?;
    }
    Ok(())
}

fn main(rt: HostRuntime) -> Result<()> {
    let mut words = env::args(&rt)?.skip(1);
    let (Some(layer), Some(count)) = (words.next(), words.next()) else {
        bail!("usage: sts_bench messages|tables|turn_book|world|replays|verdicts|all COUNT");
    };
    let count = count.parse::<u64>()?;
    match layer.as_str() {
        "messages" => time_messages(&rt, count),
        "tables" => time_tables(&rt, count),
        "turn_book" => time_turns(&rt, count),
        "world" => time_worlds(&rt, count),
        "replays" => time_replays(&rt, count),
        "verdicts" => time_verdicts(&rt),
        "all" => {
            time_messages(&rt, count)?;
            time_tables(&rt, count)?;
            time_turns(&rt, count)?;
            time_worlds(&rt, count)?;
            time_replays(&rt, count)?;
            time_verdicts(&rt)
        }
        _ => bail!("usage: sts_bench messages|tables|turn_book|world|replays|verdicts|all COUNT"),
    }
}
