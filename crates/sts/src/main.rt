//! The program `sts`: the top call over the arguments, standard input and standard output.
#![tactic(auto)]

mod edge;

use crate::edge::{exit_code, help, without_words};
use std::io::ErrorKind;
use std::process::ExitCode;
use std::rt::Env;
use std::{env, io};
use sts_cli::{open_gates, sts};
use sts_io::{StdSink, StdSource};

fn main(rt: HostRuntime) -> ExitCode {
    let status = match words(&rt) {
        Ok(words) => {
            let mut source = StdSource::new(rt.reader());
            let mut sink = StdSink::new(io::writer(&rt));
            let mut gates = open_gates();
            sts(
                &rt,
                rt.alloc(),
                words.as_slice(),
                &mut source,
                &mut sink,
                &mut gates,
            )
        }
        Err(error) => without_words(error.kind() == ErrorKind::OutOfMemory),
    };
    if let Some(line) = help(status) {
        let _ = eprintln!(rt; "sts: {line}");
    }
    exit_code(status)
}

// The words after the program's name.
fn words(rt: &(impl Env + AllocGlobal)) -> io::Result<Vec<String>> {
    let mut words = Vec::new(rt.alloc());
    for word in env::args(rt)?.skip(1) {
        words.push(word)?;
    }
    Ok(words)
}
