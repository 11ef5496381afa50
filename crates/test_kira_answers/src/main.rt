// Makes calls whose answers are known, with no Rust at hand. The file stdin, which compare/answers.rs
// writes, has each call of the flat face, its answer, and what kira's effects leave. The answer and all that
// the call leaves are compared, bit for bit with all NaNs counted as one. Writes how many calls were
// accepted, how many were refused by each number, and how many differ. Then come spoilt cases, which say
// something wrong in one place each: all of them must differ, so that a comparison that sees nothing is seen.
#![tactic(auto)]

mod call;
mod case;
mod head;
mod held;
mod tally;
mod units;

use crate::case::next_case;
use crate::tally::Tally;
use crate::units::read_long;
use std::io;
use std::io::Read;

fn run_cases(input: &mut impl Read, cases: u32) -> io::Result<Tally> {
    let mut tally = Tally::new();
    for i in 0..cases {
        tally.count(i, next_case(input)?);
    }
    Ok(tally)
}

fn say_cases(rt: &impl Print, input: &mut impl Read, cases: u32) -> io::Result<()> {
    let tally = run_cases(input, cases)?;
    println!(rt; "cases: {cases}")?;
    tally.say_answers(rt)?;
    let differences = tally.differences;
    println!(rt; "differences: {differences}")?;
    if let Some(i) = tally.first_other {
        println!(rt; "the first at {i}")?;
    }
    Ok(())
}

fn say_spoilt(rt: &impl Print, input: &mut impl Read, cases: u32) -> io::Result<()> {
    let tally = run_cases(input, cases)?;
    let differences = tally.differences;
    println!(rt; "spoilt: {cases}")?;
    println!(rt; "differences: {differences}")?;
    if let Some(i) = tally.first_same {
        println!(rt; "none at {i}")?;
    }
    Ok(())
}

fn main(rt: HostRuntime) -> io::Result<()> {
    let mut input = rt.reader();
    let cases = read_long(&mut input)?;
    let spoilt = read_long(&mut input)?;
    let version = sedhavil::sedhavil_layout_version();
    println!(rt; "layout version: {version}")?;
    say_cases(&rt, &mut input, cases)?;
    say_spoilt(&rt, &mut input, spoilt)
}
