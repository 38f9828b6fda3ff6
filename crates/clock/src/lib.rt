// A clock by value: created, read, updated and described. Times are whole nanoseconds.
#![tactic(auto)]

ghost use Rattle.std.specs.Prelude.{◌≡◌, not, cond, ◌/◌, ◌%◌, ◌<◌, T, eqb};
ghost use Rattle.tables.specs.Tables.{first};
ghost use Rattle.tables.specs.Refusals.{refusal_of};
ghost use Rattle.line.specs.Line.{zero_line};
ghost use Rattle.line.specs.Value.{placed, held, is_beyond};
ghost use Rattle.clock.specs.Numbers.{END};
ghost use Rattle.clock.specs.Clock.{identity, old_line, time_table, InRange, Drawable, Valid};
ghost use Rattle.clock.specs.Creation.{creation_table, created, creating, told};
ghost use Rattle.clock.specs.Taken.{is_clock, guarded, zero_clock};
ghost use Rattle.clock.specs.Reading.{clock_value, reading, reading_told};
ghost use Rattle.clock.specs.Update.{values_outside, effect, has_synthetic, has_rate, new_line, request_table, allowed_table, new_line_table, updated, updating, update_told};
ghost use Rattle.clock.specs.Details.{is_started, details_of, detailing, details_told};
ghost use Rattle.clock.specs.Parts.{Judged, read_of};

mod arguments;
mod check;

use arguments::flagged_or;
use line::{Line, Value};
use tables::{Refusal, refuse_if};

// A clock, as creation gave it and accepted updates carried it on. A caller in another language may fill it with any
// numbers, so each operation first tests whether they are a clock's. The byte started is 1 once the clock is started,
// 0 before.
#[repr(C)]
#[derive(Clone, Copy)]
pub struct Clock {
    line: Line,
    backstop: i64,
    latest: i64,
    error: u64,
    generation: u32,
    word: u8,
    started: u8,
}

// An update's word and arguments. The word's flags say which arguments count.
#[repr(C)]
#[derive(Clone, Copy, Default)]
pub struct Request {
    pub word: u64,
    pub synthetic: i64,
    pub reference: i64,
    pub rate: i32,
    pub error: u64,
}

// Which of its arguments a request flags.
#[derive(Clone, Copy)]
pub struct Flags {
    pub synthetic: bool,
    pub reference: bool,
    pub rate: bool,
    pub error: bool,
}

// The clock that an update leaves; beside a refusal's number it is the one that was handed in. 0 stands for none. 01
// names this form ('Places and their forms').
#[repr(C)]
#[derive(Clone, Copy)]
pub struct Updated {
    pub clock: Clock,
    pub refusal: u8,
}

// A reading as callers in C are told it: 0 beside a refusal's number, and beside a reading 0 for none.
#[repr(C)]
#[derive(Clone, Copy)]
pub struct Reading {
    pub refusal: u8,
    pub value: i64,
}

impl From<Result<i64, Refusal>> for Reading {
    ghost from_gives = { λ answer reading. reading ≡ reading_told answer };

    fn from(answer: Result<i64, Refusal>) -> Reading {
        match answer {
            Ok(value) => Reading { refusal: 0, value },
            Err(refusal) => Reading {
                refusal: refusal.number(),
                value: 0,
            },
        }
    }
}

// What a clock tells of itself at a time.
#[repr(C)]
#[derive(Clone, Copy, Default)]
pub struct Details {
    pub started: bool,
    pub line: Line,
    pub error: u64,
    pub generation: u32,
    pub latest: i64,
    pub word: u8,
    pub backstop: i64,
    pub now: i64,
}

// Details as callers in C are told them: zeros beside a refusal's number.
#[repr(C)]
#[derive(Clone, Copy)]
pub struct Detailed {
    pub refusal: u8,
    pub details: Details,
}

impl From<Result<Details, Refusal>> for Detailed {
    ghost from_gives = { λ answer detailed. detailed ≡ details_told answer };

    fn from(answer: Result<Details, Refusal>) -> Detailed {
        match answer {
            Ok(details) => Detailed {
                refusal: 0,
                details,
            },
            Err(refusal) => Detailed {
                refusal: refusal.number(),
                details: Details::default(),
            },
        }
    }
}

impl Clock {
    // The end of the range of times and values, 2^63 - 1.
    pub const END: i64 = 9_223_372_036_854_775_807;

    // The end of the times and values that a word of version 2 may have, 2^61 - 1.
    pub const VERSION_2_END: i64 = 2_305_843_009_213_693_951;

    // The widest rate adjustment, in parts per million.
    pub const MAX_RATE: i32 = 1000;

    // The widest step of a running clock's rate, either way, in parts per million.
    pub const MAX_RATE_STEP: i32 = 200;

    // The error bound that means unknown.
    pub const UNKNOWN_ERROR: u64 = u64::MAX;

    pub const FIRST_GENERATION: u32 = 1;

    // The bits of a creation word.
    pub const MONOTONIC: u8 = 128;

    pub const CONTINUOUS: u8 = 64;

    pub const AUTO_START: u8 = 32;

    // The line of a clock that starts at creation: 0 at 0, with no remainder and the rate 0. It is no `Line::default()`:
    // only the test of an unstarted clock uses that the two are the same.
    pub fn identity_line() -> Line
        ensures { result ≡ identity }
    {
        Line {
            reference: 0,
            synthetic: 0,
            remainder: 0,
            rate: 0,
        }
    }

    // Zeros, which are no clock, and so no `Default`: they stand where a struct must hold one and there is none.
    pub fn zeros() -> Clock
        ensures { result ≡ zero_clock }
    {
        Clock {
            line: Line::default(),
            backstop: 0,
            latest: 0,
            error: 0,
            generation: 0,
            word: 0,
            started: 0,
        }
    }

    // A clock. With auto start it runs at once.
    #[tactic(auto, using(tables::proofs::Refusals::answer_taken, tables::proofs::Refusals::answer_refused), unfolding(crate::specs::Creation::creating))]
    pub fn create(word: u8, backstop: i64, now: i64) -> Result<Clock, Refusal>
        ensures { told result ≡ creating word backstop now }
    {
        creation_refusal(word, backstop, now)?;
        Ok(new_clock(word, backstop, now))
    }

    // The clock's value at now: the backstop before the start, else the line's value. Most clocks that run are told by
    // a short test; the whole one stands behind a call, so that the common way stays quick.
    pub fn read(self, now: i64) -> Result<i64, Refusal>
        ensures { reading_told result ≡ reading self now }
    {
        if self.clearly_runs() {
            self.read_tested(true, now)
        } else {
            self.read_unclear(now)
        }
    }

    // The same where the short test leaves it open.
    fn read_unclear(self, now: i64) -> Result<i64, Refusal>
        ensures { reading_told result ≡ reading self now }
    {
        self.read_tested(self.is_clock(), now)
    }

    // The same, once it is known whether it is a clock.
    #[tactic(auto, using(crate::proofs::Walks::passed_valid, crate::proofs::Walks::passed_now, crate::proofs::Walks::read_refused, crate::proofs::Walks::read_passed))]
    fn read_tested(self, taken: bool, now: i64) -> Result<i64, Refusal>
        requires { taken ≡ is_clock self }
        ensures { reading_told result ≡ reading self now }
    {
        self.time_refusal(taken, now)?;
        shown(self.clock_value(now))
    }

    // The clock as the request leaves it, or unaltered with a refusal's number.
    pub fn update(self, request: Request, now: i64) -> Updated
        ensures { result ≡ updating self request now }
    {
        match self.carried_on(request, now) {
            Ok(clock) => Updated { clock, refusal: 0 },
            Err(refusal) => Updated {
                clock: self,
                refusal: refusal.number(),
            },
        }
    }

    // The clock as the request leaves it. Request and now are handed on as `update` has them: a struct of the two would
    // be made for that alone.
    #[tactic(auto, using(crate::proofs::Walks::update_refused))]
    fn carried_on(self, request: Request, now: i64) -> Result<Clock, Refusal>
        ensures { update_told self result ≡ updating self request now }
    {
        self.request_refusal(request, now)?;
        self.redraw(request, now)
    }

    // What the clock tells of itself at now.
    #[tactic(auto, using(tables::proofs::Refusals::answer_taken, tables::proofs::Refusals::answer_refused), unfolding(crate::specs::Details::detailing, crate::specs::Details::details_table))]
    pub fn details(self, now: i64) -> Result<Details, Refusal>
        ensures { details_told result ≡ detailing self now }
    {
        self.time_refusal(self.is_clock(), now)?;
        Ok(self.described(now))
    }

    // Whether it is a clock, and started.
    #[tactic(auto, unfolding(crate::specs::Details::is_started))]
    pub fn started(self) -> bool
        ensures { result ≡ is_started self }
    {
        self.is_clock() & (self.started == 1)
    }

    // Refuses what is no clock, and by rules 1 and 2.
    #[tactic(auto, unfolding(tables::specs::Refusals::refused_if, crate::specs::Taken::guarded, crate::specs::Clock::time_table))]
    fn time_refusal(self, taken: bool, now: i64) -> Result<(), Refusal>
        requires { taken ≡ is_clock self }
        ensures { refusal_of result ≡ first (guarded self (time_table self now)) }
    {
        refuse_if(!taken, Refusal::NotAClock)?;
        refuse_if(arguments::is_outside(now), Refusal::NowOutside)?;
        refuse_if(now < self.latest, Refusal::NowEarly)
    }

    // Refuses what is no clock, and by rules 1 to 11 and 22 of an update: the time, the request, and what the clock
    // allows.
    #[tactic(auto, using(crate::proofs::Walks::refused_by_time, crate::proofs::Walks::refused_alone, crate::proofs::Walks::passed_alone))]
    fn request_refusal(self, request: Request, now: i64) -> Result<(), Refusal>
        ensures { refusal_of result ≡ first (guarded self (request_table self request now)) }
    {
        self.time_refusal(self.is_clock(), now)?;
        request.refusal()?;
        self.allows(request)
    }

    // Refuses by rules 8 to 11 and 22: what the clock allows.
    #[tactic(auto, unfolding(tables::specs::Refusals::refused_if, crate::specs::Update::allowed_table))]
    fn allows(self, request: Request) -> Result<(), Refusal>
        ensures { refusal_of result ≡ first (allowed_table self request) }
    {
        let started = self.started == 1;
        let monotonic = has(self.word, Clock::MONOTONIC);
        let continuous = has(self.word, Clock::CONTINUOUS);
        let Flags {
            synthetic,
            reference,
            rate,
            ..
        } = request.flags();
        refuse_if(!started & !synthetic, Refusal::NotStarted)?;
        refuse_if(continuous & reference, Refusal::ContinuousReference)?;
        refuse_if(continuous & started & synthetic, Refusal::ContinuousSet)?;
        refuse_if(
            monotonic & started & synthetic & rate,
            Refusal::MonotonicSetAndRate,
        )?;
        refuse_if(
            started & (rate & arguments::is_wide_step(self.line.rate, request.rate)),
            Refusal::RateStep,
        )
    }

    // The rest of an update that rules 1 to 11 and 22 let pass: the new line, and rules 12 to 14.
    #[tactic(auto, using(crate::proofs::Redrawn::judged, crate::proofs::Redrawn::drawn_new, crate::proofs::Redrawn::redraw_refused, crate::proofs::Redrawn::redraw_taken))]
    fn redraw(self, request: Request, now: i64) -> Result<Clock, Refusal>
        requires { first (guarded self (request_table self request now)) ≡ 0 }
        ensures { update_told self result ≡ updating self request now }
    {
        let old = self.old_line();
        let redrawn = self.redrawn(request, now);
        let line = redrawn.unwrap_or(old);
        self.line_refusal(request, redrawn, line, old, now)?;
        Ok(self.updated(request, line, now))
    }

    // The new line of an update that rules 1 to 11 and 22 let pass.
    fn redrawn(self, request: Request, now: i64) -> Option<Line>
        requires { first (guarded self (request_table self request now)) ≡ 0 }
        ensures { result ≡ held (new_line self request now) }
    {
        let flags = request.flags();
        let point = flagged_or(flags.reference, request.reference, now);
        new_line(request, self.old_line(), point)
    }

    // Rules 12 to 14 of an update. The line is the one that was drawn, or else the old one.
    fn line_refusal(
        self,
        request: Request,
        redrawn: Option<Line>,
        line: Line,
        old: Line,
        now: i64,
    ) -> Result<(), Refusal>
        requires { Judged self request now redrawn line old }
        ensures { refusal_of result ≡ first (new_line_table self request now) }
    {
        let Flags {
            synthetic,
            rate,
            ..
        } = request.flags();
        let replaced = synthetic | rate;
        let new_value = line.value_at(now);
        let old_value = old.value_at(now);
        let beyond = begins_beyond(redrawn);
        let above = Value::Within(Clock::END) < new_value;
        let under = new_value < Value::Within(self.backstop);
        let monotonic = has(self.word, Clock::MONOTONIC);
        let less = new_value.is_less(old_value);
        refuse_if(replaced & (beyond | above), Refusal::LineOutside)?;
        refuse_if(replaced & under, Refusal::BelowBackstop)?;
        refuse_if(
            replaced & (monotonic & (self.started == 1) & less),
            Refusal::MonotonicBack,
        )
    }

    // The clock that an accepted update leaves.
    #[tactic(auto, unfolding(crate::specs::Update::updated, crate::specs::Update::next_generation))]
    fn updated(self, request: Request, line: Line, now: i64) -> Clock
        requires { line ≡ new_line self request now }
        ensures { result ≡ updated self request now }
    {
        let flags = request.flags();
        Clock {
            line,
            backstop: self.backstop,
            latest: now,
            error: flagged_or(flags.error, request.error, self.error),
            generation: self.generation.wrapping_add(1),
            word: self.word,
            started: u8::from((self.started == 1) | flags.synthetic),
        }
    }

    // The old line of an update: the identity line before the start.
    #[tactic(auto, unfolding(crate::specs::Clock::old_line))]
    fn old_line(self) -> Line
        ensures { result ≡ old_line self }
    {
        if self.started == 1 {
            self.line
        } else {
            Clock::identity_line()
        }
    }

    fn clock_value(self, now: i64) -> Value
        requires { Valid self × InRange now }
        ensures { result ≡ placed (clock_value self now) }
    {
        if self.started == 1 {
            self.line.value_at(now)
        } else {
            Value::Within(self.backstop)
        }
    }

    #[tactic(auto, unfolding(crate::specs::Details::details_of))]
    fn described(self, now: i64) -> Details
        ensures { result ≡ details_of self now }
    {
        let started = self.started == 1;
        Details {
            started,
            line: shown_line(started, self.line),
            error: self.error,
            generation: self.generation,
            latest: self.latest,
            word: self.word,
            backstop: self.backstop,
            now,
        }
    }
}

#[tactic(auto, unfolding(tables::specs::Refusals::refused_if, crate::specs::Creation::creation_table))]
fn creation_refusal(word: u8, backstop: i64, now: i64) -> Result<(), Refusal>
    ensures { refusal_of result ≡ first (creation_table word backstop now) }
{
    let monotonic = has(word, Clock::MONOTONIC);
    let continuous = has(word, Clock::CONTINUOUS);
    let auto_start = has(word, Clock::AUTO_START);
    refuse_if(arguments::is_outside(now), Refusal::NowOutside)?;
    refuse_if(word % Clock::AUTO_START != 0, Refusal::WordWrong)?;
    refuse_if(continuous & !monotonic, Refusal::ContinuousNotMonotonic)?;
    refuse_if(arguments::is_outside(backstop), Refusal::BackstopOutside)?;
    refuse_if(auto_start & (now < backstop), Refusal::BackstopAhead)
}

#[tactic(auto, unfolding(crate::specs::Creation::created))]
fn new_clock(word: u8, backstop: i64, now: i64) -> Clock
    ensures { result ≡ created word backstop now }
{
    Clock {
        line: Clock::identity_line(),
        backstop,
        latest: now,
        error: Clock::UNKNOWN_ERROR,
        generation: Clock::FIRST_GENERATION,
        word,
        started: u8::from(has(word, Clock::AUTO_START)),
    }
}

// Whether a creation word has a flag.
fn has(word: u8, flag: u8) -> bool
    requires { 0 < flag }
    ensures { result ≡ eqb (word / flag % 2) 1 }
{
    word / flag % 2 == 1
}

// The line that an update draws, where rules 5 and 6 let its arguments pass.
fn new_line(request: Request, old: Line, point: i64) -> Option<Line>
    requires { T (not (values_outside request)) × Drawable old × InRange point }
    ensures { result ≡ held (effect (has_synthetic request) (has_rate request) old point request.synthetic request.rate) }
{
    let flags = request.flags();
    if flags.synthetic {
        Some(Line {
            reference: point,
            synthetic: request.synthetic,
            remainder: 0, // a value set clears it
            rate: flagged_or(flags.rate, request.rate, old.rate),
        })
    } else if flags.rate {
        old.turn(point, request.rate)
    } else {
        Some(old)
    }
}

// Whether a line was not drawn, or begins beyond the range.
fn begins_beyond(redrawn: Option<Line>) -> bool
    ensures { result ≡ is_beyond redrawn END }
{
    redrawn.is_none_or(|line| Clock::END < line.synthetic)
}

// The line as details show it. It is told number by number: one that is chosen as a whole waits for memory.
fn shown_line(started: bool, line: Line) -> Line
    ensures { result ≡ cond started line zero_line }
{
    let Line {
        reference,
        synthetic,
        remainder,
        rate,
    } = line;
    Line {
        reference: flagged_or(started, reference, 0),
        synthetic: flagged_or(started, synthetic, 0),
        remainder: flagged_or(started, remainder, 0),
        rate: flagged_or(started, rate, 0),
    }
}

// What a reading of this value answers.
#[tactic(auto, using(line::proofs::Placed::over_is), unfolding(tables::specs::Refusals::refused_if))]
fn shown(value: Value) -> Result<i64, Refusal>
    ensures { reading_told result ≡ read_of value }
{
    refuse_if(Value::Within(Clock::END) < value, Refusal::LineOutside)?;
    Ok(value.number())
}
