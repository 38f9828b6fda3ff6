// The worked cases of 01 that speak of clocks, and what was worked out by hand for a request of 02: a line for each
// life of a clock. Case 12 speaks of slips.
#![tactic(auto)]

mod life;
mod requests;
mod words;

use clock::{Clock, Request};
use life::Life;
use std::io;

// The creation word without a bit.
const PLAIN: u8 = 0;

fn main(rt: HostRuntime) -> io::Result<()> {
    let end = Clock::END;
    println!(&rt; "END is {end}, the last time and the highest value")?;
    case_1(&rt)?;
    case_2(&rt)?;
    case_3(&rt)?;
    case_4(&rt)?;
    case_5(&rt)?;
    case_6(&rt)?;
    case_7(&rt)?;
    case_8(&rt)?;
    case_9(&rt)?;
    case_10(&rt)?;
    case_11(&rt)?;
    case_13(&rt)?;
    case_14(&rt)?;
    request_2(&rt)?;
    request_7(&rt)?;
    request_9(&rt)?;
    request_11(&rt)
}

// Case 1's clock, or one of another word: case 2 and some lives of R-9 go on with it.
fn clock_1<'a, P: Print>(rt: &'a P, head: &str, word: u8) -> io::Result<Life<'a, P>> {
    let mut life = Life::create(rt, head, word, 0, 0)?;
    life.update(requests::set(1500), 100)?;
    life.read(350)?;
    Ok(life)
}

fn case_1(rt: &impl Print) -> io::Result<()> {
    clock_1(rt, "case 1", PLAIN)?.end()
}

fn case_2(rt: &impl Print) -> io::Result<()> {
    let mut life = clock_1(rt, "case 2", PLAIN)?;
    life.update(requests::rate(-23), 1_000_100)?;
    life.read(1_000_100)?;
    life.read(2_000_100)?;
    life.end()
}

fn case_3(rt: &impl Print) -> io::Result<()> {
    let mut life = Life::create(rt, "case 3", Clock::MONOTONIC | Clock::AUTO_START, 0, 0)?;
    life.update(requests::rate_at(100, 1_000_000_000), 2_000_000_000)?;
    life.read(2_000_000_000)?;
    life.end()
}

fn case_4(rt: &impl Print) -> io::Result<()> {
    let mut life = Life::create(rt, "case 4", Clock::MONOTONIC | Clock::AUTO_START, 0, 0)?;
    life.update(requests::rate_at(-100, 1_000_000_000), 2_000_000_000)?;
    life.update(requests::rate_at(-100, 3_000_000_000), 2_000_000_000)?;
    life.read(2_000_000_000)?;
    life.end()
}

fn case_5(rt: &impl Print) -> io::Result<()> {
    let mut life = Life::create(rt, "case 5", PLAIN, 0, 0)?;
    life.update(requests::set_at_with_rate(10, 10, 1), 9)?;
    life.read(9)?;
    life.read(10)?;
    life.end()
}

fn case_6(rt: &impl Print) -> io::Result<()> {
    let mut life = Life::create(rt, "case 6", PLAIN, 0, 0)?;
    life.update(requests::set_with_rate(0, -1), 0)?;
    life.update(requests::rate(-1), 1)?;
    life.update(requests::rate(-1), 2)?;
    life.read(3)?;
    life.end()
}

fn case_7(rt: &impl Print) -> io::Result<()> {
    for rate in [1000, 1001, -1000, -1001] {
        let mut life = Life::create(rt, "case 7", PLAIN, 0, 0)?;
        life.update(requests::set_with_rate(1500, rate), 100)?;
        life.end()?;
    }
    Ok(())
}

fn case_8(rt: &impl Print) -> io::Result<()> {
    let mut life = Life::create(rt, "case 8", PLAIN, 1000, 0)?;
    life.update(requests::set(999), 0)?;
    life.update(requests::set(1000), 0)?;
    life.end()
}

fn case_9(rt: &impl Print) -> io::Result<()> {
    for now in [4, 5] {
        Life::create(rt, "case 9", Clock::AUTO_START, 5, now)?.end()?;
    }
    Ok(())
}

fn case_10(rt: &impl Print) -> io::Result<()> {
    let mut life = Life::create(rt, "case 10", PLAIN, 0, 0)?;
    life.update(requests::version_3(requests::set(Clock::END)), 0)?;
    life.read(0)?;
    life.read(1)?;
    life.end()
}

fn case_11(rt: &impl Print) -> io::Result<()> {
    let mut life = Life::create(rt, "case 11", Clock::MONOTONIC, 10, 0)?;
    life.update(requests::set(20), 0)?;
    life.read(0)?;
    life.update(requests::set(5), 0)?;
    life.end()
}

// Every legal creation word, not started and started; a clock with auto start is always started.
fn case_13(rt: &impl Print) -> io::Result<()> {
    let continuous = Clock::MONOTONIC | Clock::CONTINUOUS;
    for (word, is_set) in [
        (PLAIN, false),
        (PLAIN, true),
        (Clock::AUTO_START, false),
        (Clock::MONOTONIC, false),
        (Clock::MONOTONIC, true),
        (Clock::MONOTONIC | Clock::AUTO_START, false),
        (continuous, false),
        (continuous, true),
        (continuous | Clock::AUTO_START, false),
    ] {
        asked_at_20(rt, word, is_set, requests::error_at(7, 30))?;
    }
    asked_at_20(rt, continuous, true, requests::rate_at(1, 30))?;
    asked_at_20(
        rt,
        continuous | Clock::AUTO_START,
        false,
        requests::rate_at(1, 30),
    )
}

// A clock as it was created, or set at 10.
fn asked_at_20(rt: &impl Print, word: u8, is_set: bool, request: Request) -> io::Result<()> {
    let mut life = Life::create(rt, "case 13", word, 0, 0)?;
    if is_set {
        life.update(requests::set(1500), 10)?;
    }
    life.update(request, 20)?;
    life.end()
}

// Set to one less than the present reading, and to the reading.
fn case_14(rt: &impl Print) -> io::Result<()> {
    let mut life = Life::create(rt, "case 14", Clock::MONOTONIC, 10, 0)?;
    life.update(requests::set(20), 0)?;
    life.read(5)?;
    life.update(requests::set(24), 5)?;
    life.update(requests::set(25), 5)?;
    life.read(5)?;
    life.end()?;
    let mut life = Life::create(rt, "case 14", Clock::MONOTONIC | Clock::AUTO_START, 0, 0)?;
    life.read(5)?;
    life.update(requests::set(4), 5)?;
    life.update(requests::set(5), 5)?;
    life.read(5)?;
    life.end()
}

// An error bound alone is refused before the start, and counts after it.
fn request_2(rt: &impl Print) -> io::Result<()> {
    let mut life = Life::create(rt, "R-2", PLAIN, 0, 0)?;
    life.update(requests::error(50), 50)?;
    life.generation(50)?;
    life.update(requests::set(1500), 100)?;
    life.generation(100)?;
    life.update(requests::error(50), 200)?;
    life.generation(200)?;
    life.end()
}

// A line keeps its remainder.
fn request_7(rt: &impl Print) -> io::Result<()> {
    remainders(rt)?;
    trims(rt)?;
    remainders_of_other_times(rt)?;
    remainders_of_refused_lines(rt)?;
    remainders_of_other_clocks(rt)
}

// A rate alone keeps what is beside the whole value, an error bound leaves it, a value clears it.
fn remainders(rt: &impl Print) -> io::Result<()> {
    let mut life = Life::create(rt, "R-7", PLAIN, 0, 0)?;
    life.update(requests::set_with_rate(0, -1), 0)?;
    life.remainder(0)?;
    life.update(requests::rate(-1), 1)?;
    life.remainder(1)?;
    life.read(1)?;
    life.update(requests::rate(-1), 2)?;
    life.remainder(2)?;
    life.read(2)?;
    life.update(requests::error(50), 3)?;
    life.remainder(3)?;
    life.update(requests::set(2), 3)?;
    life.remainder(3)?;
    life.read(4)?;
    life.end()
}

// A thousand changes of the rate lose nothing.
fn trims(rt: &impl Print) -> io::Result<()> {
    let mut life = Life::create(rt, "R-7", PLAIN, 0, 0)?;
    life.update(requests::set_with_rate(0, -1), 0)?;
    life.again(requests::rate(-1), 1000)?;
    life.generation(1000)?;
    life.read(1001)?;
    life.end()
}

// A line turned before its reference, and one that is read before it.
fn remainders_of_other_times(rt: &impl Print) -> io::Result<()> {
    let mut life = Life::create(rt, "R-7", PLAIN, 0, 0)?;
    life.update(requests::set_at_with_rate(20, 20, 1), 19)?;
    life.update(requests::rate_at(1, 19), 19)?;
    life.remainder(19)?;
    life.read(19)?;
    life.read(20)?;
    life.end()?;
    let mut life = Life::create(rt, "R-7", PLAIN, 0, 0)?;
    life.update(requests::set_with_rate(0, -1), 0)?;
    life.update(requests::rate_at(-1, 10), 0)?;
    life.remainder(0)?;
    life.read(0)?;
    life.read(4)?;
    life.read(10)?;
    life.end()
}

// Below 0 there is no S0, whatever is beside it.
fn remainders_of_refused_lines(rt: &impl Print) -> io::Result<()> {
    let mut life = Life::create(rt, "R-7", PLAIN, 0, 0)?;
    life.update(requests::set_at_with_rate(0, 10, -1), 10)?;
    life.update(requests::rate_at(-1, 9), 10)?;
    life.remainder(10)?;
    life.end()
}

// On a monotonic clock 14 compares whole values; an automatic start begins with no remainder.
fn remainders_of_other_clocks(rt: &impl Print) -> io::Result<()> {
    let mut life = Life::create(rt, "R-7", Clock::MONOTONIC, 0, 0)?;
    life.remainder(0)?;
    life.update(requests::set_with_rate(0, -1), 0)?;
    life.update(requests::rate(-1), 1)?;
    life.update(requests::set(0), 2)?;
    life.update(requests::set(1), 2)?;
    life.read(2)?;
    life.end()?;
    let mut life = Life::create(rt, "R-7", Clock::AUTO_START, 0, 0)?;
    life.remainder(0)?;
    life.update(requests::rate(-1), 1)?;
    life.remainder(1)?;
    life.update(requests::rate(0), 2)?;
    life.remainder(2)?;
    life.read(2)?;
    life.end()
}

// A running clock's rate steps by 200 at most.
fn request_9(rt: &impl Print) -> io::Result<()> {
    steps_from_0(rt)?;
    steps_from_another_rate(rt)?;
    steps_with_a_value(rt)?;
    steps_between_11_and_12(rt)?;
    steps_before_13_and_14(rt)
}

fn steps_from_0(rt: &impl Print) -> io::Result<()> {
    let mut life = clock_1(rt, "R-9", PLAIN)?;
    life.update(requests::rate(201), 350)?;
    life.update(requests::rate(-201), 350)?;
    life.update(requests::rate(1001), 350)?;
    life.update(requests::rate(200), 350)?;
    life.end()?;
    let mut life = clock_1(rt, "R-9", PLAIN)?;
    life.update(requests::rate(-200), 350)?;
    life.end()
}

// An automatic start is at 0.
fn steps_from_another_rate(rt: &impl Print) -> io::Result<()> {
    let mut life = Life::create(rt, "R-9", PLAIN, 0, 0)?;
    life.update(requests::set_with_rate(1500, 100), 100)?;
    life.update(requests::rate(-101), 350)?;
    life.update(requests::rate(-100), 350)?;
    life.end()?;
    let mut life = Life::create(rt, "R-9", Clock::AUTO_START, 0, 0)?;
    life.update(requests::rate(201), 350)?;
    life.update(requests::rate(200), 350)?;
    life.end()
}

// A start is free of it, and so is a value without a rate.
fn steps_with_a_value(rt: &impl Print) -> io::Result<()> {
    let mut life = Life::create(rt, "R-9", Clock::MONOTONIC | Clock::CONTINUOUS, 0, 0)?;
    life.update(requests::set_with_rate(1500, 1000), 100)?;
    life.end()?;
    let mut life = Life::create(rt, "R-9", PLAIN, 0, 0)?;
    life.update(requests::set_with_rate(1500, 1000), 100)?;
    life.update(requests::set_with_rate(1750, 799), 350)?;
    life.update(requests::set_with_rate(1750, 800), 350)?;
    life.update(requests::set(1750), 350)?;
    life.end()
}

// 11 comes first, then 22, then 12.
fn steps_between_11_and_12(rt: &impl Print) -> io::Result<()> {
    let mut life = clock_1(rt, "R-9", Clock::MONOTONIC)?;
    life.update(requests::set_with_rate(1750, 201), 350)?;
    life.end()?;
    let mut life = Life::create(rt, "R-9", PLAIN, 0, 0)?;
    life.update(requests::version_3(requests::set(Clock::END)), 0)?;
    life.update(requests::rate(200), 1)?;
    life.update(requests::rate(201), 1)?;
    life.end()
}

// 13 and 14 come behind it too.
fn steps_before_13_and_14(rt: &impl Print) -> io::Result<()> {
    let mut life = Life::create(rt, "R-9", PLAIN, 1000, 0)?;
    life.update(requests::set(1000), 0)?;
    life.update(requests::rate_at(200, 1000), 0)?;
    life.update(requests::rate_at(201, 1000), 0)?;
    life.end()?;
    let mut life = Life::create(rt, "R-9", Clock::MONOTONIC | Clock::AUTO_START, 0, 0)?;
    life.update(requests::rate_at(-200, 1_000_000_000), 2_000_000_000)?;
    life.update(requests::rate_at(-201, 1_000_000_000), 2_000_000_000)?;
    life.end()
}

fn request_11(rt: &impl Print) -> io::Result<()> {
    end_of_version_2(rt)?;
    sums_past_64_bits(rt)?;
    compared_past_64_bits(rt)?;
    let mut life = Life::create(rt, "R-11", PLAIN, Clock::END, Clock::END)?;
    life.read(Clock::END)?;
    life.end()
}

// A version 2 word keeps the old end, for the value and for the reference.
fn end_of_version_2(rt: &impl Print) -> io::Result<()> {
    let past = Clock::VERSION_2_END + 1;
    let mut life = Life::create(rt, "R-11", PLAIN, 0, 0)?;
    life.update(requests::set(past), 0)?;
    life.update(requests::set_at(0, past), 0)?;
    life.update(requests::version_3(requests::set(past)), 0)?;
    life.read(0)?;
    life.update(requests::set(Clock::VERSION_2_END), 0)?;
    life.read(1)?;
    life.end()
}

// Values past 2^63 and past 2^64 are above END, and don't wrap.
fn sums_past_64_bits(rt: &impl Print) -> io::Result<()> {
    let end = requests::version_3(requests::set(Clock::END));
    let mut life = Life::create(rt, "R-11", PLAIN, 0, 0)?;
    life.update(end, 0)?;
    life.read(Clock::END)?;
    let steep = requests::set_at_with_rate(Clock::END, 0, 200);
    life.update(requests::version_3(steep), Clock::END)?;
    let level = requests::set_at(Clock::END - 1, 0);
    life.update(requests::version_3(level), Clock::END)?;
    life.update(end, Clock::END)?;
    life.read(Clock::END)?;
    life.end()
}

// So are values far below 0 for rule 13, and an old value past 2^63 for rule 14.
fn compared_past_64_bits(rt: &impl Print) -> io::Result<()> {
    let mut life = Life::create(rt, "R-11", PLAIN, 0, 0)?;
    let late = requests::set_at_with_rate(0, Clock::END, 1000);
    life.update(requests::version_3(late), 0)?;
    life.end()?;
    let end = requests::version_3(requests::set(Clock::END));
    let mut life = Life::create(rt, "R-11", Clock::MONOTONIC, 0, 0)?;
    life.update(end, 0)?;
    life.update(end, Clock::END)?;
    life.end()
}
