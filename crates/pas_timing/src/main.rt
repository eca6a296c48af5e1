//! Measures one thing many times over, so that a script can time it. The first word says what:
//!
//! - `lanes`: kernels beside plain loops, by the jobs on standard input.
//! - `scan`: the search of a directory by rows beside that word by word, by the jobs on standard input.
//! - `steps`: what a step costs, in as many rounds as the second word says.
//! - `replay`: the operations of the trace on standard input, in the way that the second word says.
//!
//! Where the first word is another, or there is none, it prints `no measure`.
#![tactic(auto)]

mod lanes;
mod replay;
mod scan;
mod steps;

use pas_io::real::RealSource;
use std::alloc::Global;
use std::{env, io};

fn main(rt: HostRuntime) -> io::Result<()> {
    let mut words = env::args(&rt)?.skip(1);
    let Some(measure) = words.next() else {
        return println!(rt; "no measure");
    };
    match measure.as_str() {
        "lanes" => print_sums(&rt, lanes::answers),
        "scan" => print_sums(&rt, scan::pages),
        "steps" => steps::print(&rt, rt.alloc(), words),
        "replay" => replay::print(&rt, rt.alloc(), &mut RealSource::new(rt.stdin()), words),
        _ => println!(rt; "no measure"),
    }
}

/// Prints each line of standard input with the sum of its job, or with `no job` where it has none.
fn print_sums<F: Fn(Global, &str) -> Option<u64>>(rt: &HostRuntime, sum_of: F) -> io::Result<()>
    requires { F.IsAlwaysCallable sum_of }
{
    for line in rt.lines(rt.alloc()) {
        let line = line?;
        match sum_of(rt.alloc(), line.as_str()) {
            Some(sum) => println!(rt; "{line} {sum}")?,
            None => println!(rt; "{line} no job")?,
        }
    }
    Ok(())
}
