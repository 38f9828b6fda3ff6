// What a line says of a creation word, of a request, and of what became of it.
use clock::{Clock, Request};
use print::Time;
use std::fmt;

// A creation word by the names of its bits, each after a space.
#[derive(Clone, Copy)]
pub struct Kind(pub u8);

impl fmt::Display for Kind {
    fn fmt<W: fmt::Write>(&self, f: &mut fmt::Formatter<W>) -> fmt::Result {
        let word = self.0;
        if word == 0 {
            return f.write_str(" plain");
        }
        for (bit, name) in [
            (Clock::MONOTONIC, " monotonic"),
            (Clock::CONTINUOUS, " continuous"),
            (Clock::AUTO_START, " auto start"),
        ] {
            if word & bit != 0 {
                f.write_str(name)?;
            }
        }
        Ok(())
    }
}

// A request by its version, where that is 3, and the arguments that it flags, each after a space.
#[derive(Clone, Copy)]
pub struct Asked(pub Request);

impl fmt::Display for Asked {
    fn fmt<W: fmt::Write>(&self, f: &mut fmt::Formatter<W>) -> fmt::Result {
        let request = self.0;
        let flags = request.flags();
        if request.is_version_3() {
            f.write_str(" version 3")?;
        }
        if flags.synthetic {
            write!(f, " set {}", Time(request.synthetic))?;
        }
        if flags.reference {
            write!(f, " reference {}", Time(request.reference))?;
        }
        if flags.rate {
            write!(f, " rate {}", request.rate)?;
        }
        if flags.error {
            write!(f, " error {}", request.error)?;
        }
        Ok(())
    }
}

// The number of a request's refusal, as 01 has it beside an updated clock; 0 is none.
#[derive(Clone, Copy)]
pub struct Outcome(pub u8);

impl fmt::Display for Outcome {
    fn fmt<W: fmt::Write>(&self, f: &mut fmt::Formatter<W>) -> fmt::Result {
        match self.0 {
            0 => f.write_str("taken"),
            refusal => write!(f, "refused {refusal}"),
        }
    }
}
