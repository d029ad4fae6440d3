//! Runs worked cases in memory, and prints what each gives. A case is a line of `cases.txt`: `open` or `meet`, a word of the program, and
//! the file of a document; `keep`, positions of lines of a script with commas between them, and the file of a log; or `settle`, and the file
//! of a scenario in which nothing is violated.
#![tactic(auto)]

mod kept;
mod meeting;
mod program;

use crate::kept::print_kept;
use crate::program::{print_met, print_open, print_settled};
use std::{fs, io};

fn main(rt: HostRuntime) -> io::Result<()> {
    let cases = fs::read_to_string(&rt, "cases.txt")?;
    for case in cases.lines() {
        println!(rt; "{case}")?;
        let mut words = Vec::new(rt.alloc());
        for word in case.split_whitespace() {
            words.push(word)?;
        }
        match words.as_slice() {
            ["open", word, file] => print_open(&rt, word, file)?,
            ["meet", word, file] => print_met(&rt, word, file)?,
            ["settle", file] => print_settled(&rt, file)?,
            ["keep", positions, file] => print_kept(&rt, positions, file)?,
            _ => println!(rt; "no case")?,
        }
    }
    Ok(())
}
