// Times and values as the programs print them.
#![tactic(auto)]

ghost use Rattle.std.specs.Prelude.{Some};
ghost use Rattle.print.specs.Text.{time_text};

use clock::Clock;
use std::fmt;

// A time or a value. The end of the range has a name.
#[derive(Clone, Copy)]
pub struct Time(pub i64);

impl fmt::Display for Time {
    ghost output = { λ time. Some (time_text time.0) };

    fn fmt<W: fmt::Write>(&self, f: &mut fmt::Formatter<W>) -> fmt::Result {
        let time = self.0;
        if time == Clock::END {
            f.write_str("END")
        } else {
            write!(f, "{time}")
        }
    }
}
