// The Rattle examples of README.md and docs/REFERENCE.md, run: a line for what each of them answers, and the constant
// that no contract names.
#![tactic(auto)]

mod second_of_two;
mod shown;
mod started;
mod there_and_back;

use print::Time;
use std::io;

fn main(rt: HostRuntime) -> io::Result<()> {
    println!(&rt; "started: {}", Time(started::started().unwrap_or(0)))?;
    println!(&rt; "shown: {}", Time(shown::shown().unwrap_or(0)))?;
    println!(&rt; "longest slip: {}", slip::MAX_LENGTH)?;
    println!(&rt;
        "there and back: {}",
        there_and_back::there_and_back().unwrap_or(0)
    )?;
    println!(&rt;
        "second of two: {}",
        second_of_two::second_of_two().unwrap_or(0)
    )
}
