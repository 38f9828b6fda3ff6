// A clock's life on one line: each call writes what is asked and what the clock answers.
use crate::words::{Asked, Kind, Outcome};
use clock::{Clock, Detailed, Details, Reading, Request, Updated};
use print::Time;
use std::io;

#[derive(Drop)]
pub struct Life<'a, P> {
    rt: &'a P,
    clock: Clock,
}

impl<'a, P: Print> Life<'a, P> {
    // A line begins with its head and a creation. Where that is refused zeros stand for the clock, and are refused
    // what they are asked.
    pub fn create(rt: &'a P, head: &str, word: u8, backstop: i64, now: i64) -> io::Result<Self> {
        print!(rt; "{head}: at {} create{}", Time(now), Kind(word))?;
        if backstop != 0 {
            print!(rt; ", backstop {}", Time(backstop))?;
        }
        let clock = match Clock::create(word, backstop, now) {
            Ok(clock) => {
                print!(rt; ": created")?;
                clock
            }
            Err(refusal) => {
                print!(rt; ": refused {}", refusal.number())?;
                Clock::zeros()
            }
        };
        Ok(Life { rt, clock })
    }

    // The life goes on as the update leaves it.
    pub fn update(&mut self, request: Request, now: i64) -> io::Result<()> {
        let Updated { clock, refusal } = self.clock.update(request, now);
        self.clock = clock;
        print!(self.rt;
            "; at {}{}: {}",
            Time(now),
            Asked(request),
            Outcome(refusal)
        )
    }

    // The same request at each nanosecond up to the last, told as one. The generation shows whether all were taken.
    pub fn again(&mut self, request: Request, last: i64) -> io::Result<()> {
        for now in 1..=last {
            self.clock = self.clock.update(request, now).clock;
        }
        print!(self.rt; "; at 1 to {last}{}", Asked(request))
    }

    // Where a reading is refused, the value that C is told beside the number is told too.
    pub fn read(&self, now: i64) -> io::Result<()> {
        let answer = self.clock.read(now);
        match answer {
            Ok(value) => print!(self.rt; "; at {} reads {}", Time(now), Time(value)),
            Err(refusal) => print!(self.rt;
                "; at {} read: refused {}, value {}",
                Time(now),
                refusal.number(),
                Time(Reading::from(answer).value)
            ),
        }
    }

    pub fn generation(&self, now: i64) -> io::Result<()> {
        let details = self.details(now);
        print!(self.rt; "; at {} generation {}", Time(now), details.generation)
    }

    pub fn remainder(&self, now: i64) -> io::Result<()> {
        let line = self.details(now).line;
        print!(self.rt; "; at {} remainder {}", Time(now), line.remainder)
    }

    // Zeros where they are refused.
    fn details(&self, now: i64) -> Details {
        Detailed::from(self.clock.details(now)).details
    }

    pub fn end(self) -> io::Result<()> {
        println!(self.rt; "")
    }
}
