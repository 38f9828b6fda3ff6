// Lines: values in whole nanoseconds and the millionths beside them, with no product or sum beyond 64 bits. Casts are
// `as` where a clause shows that nothing is lost: `try_from` would bring errors that can't come.
#![tactic(auto)]

ghost use Rattle.std.specs.Prelude.{◌≡◌, pos, ◌≤ℤ◌};
ghost use Rattle.line.specs.Line.{value_at, turned, is_zeros, bounded, reaches, Computable, Storable};
ghost use Rattle.line.specs.Value.{placed, is_less, number_of, held};

mod numbers;

use numbers::{MILLION, Numbers};

// A line that is at synthetic nanoseconds and remainder millionths at reference, and gains 1,000,000 + rate millionths
// in each nanosecond. A caller from C fills it with any numbers, so what is asked of them stands at each function.
#[repr(C)]
#[derive(Clone, Copy, Default, PartialEq, Eq)]
pub struct Line {
    pub reference: i64,
    pub synthetic: i64,
    pub remainder: u32,
    pub rate: i32,
}

// A whole number: below 0, within what an i64 holds, or above that. They are ordered as they stand here.
#[derive(Clone, Copy, PartialEq, Eq, PartialOrd, Ord)]
pub enum Value {
    Below,
    Within(i64),
    Above,
}

impl Line {
    #[tactic(auto, unfolding(crate::specs::Line::is_zeros))]
    pub fn is_zeros(self) -> bool
        ensures { result ≡ is_zeros self }
    {
        self == Line::default()
    }

    // Whether reference and synthetic lie in 0..end, the remainder in 0..999,999 and the rate in -widest..widest. With
    // `contains` in place of the compares the proof didn't close.
    pub fn is_bounded(self, end: i64, widest: i32) -> bool
        requires { pos 0 ≤ℤ widest }
        ensures { result ≡ bounded self «end» widest }
    {
        let Line {
            reference,
            synthetic,
            remainder,
            rate,
        } = self;
        !((reference < 0) | (end < reference))
            & !((synthetic < 0) | (end < synthetic))
            & (u64::from(remainder) < MILLION)
            & !((rate < -widest) | (widest < rate))
    }

    // The line's value at t.
    #[tactic(auto, using(crate::proofs::FourAnswers::exact_value, crate::proofs::Casts::cast_is))]
    pub fn value_at(self, t: i64) -> Value
        requires computable { Computable self }
        requires time { pos 0 ≤ℤ t }
        ensures { result ≡ placed (value_at self t) }
    {
        Numbers::of(self).value_at(t as u64)
    }

    // Whether the value at t is at least the bound. Where the line begins no later than t and no lower, it needn't be
    // worked out.
    pub fn reaches(self, t: i64, bound: i64) -> bool
        requires computable { Computable self }
        requires time { pos 0 ≤ℤ t }
        requires bound { Storable bound }
        ensures { result ≡ reaches self t bound }
    {
        let Line {
            reference,
            synthetic,
            ..
        } = self;
        if (reference <= t) & (bound <= synthetic) {
            true
        } else {
            Value::Within(bound) <= self.value_at(t)
        }
    }

    // The line with another rate from a point on, where it has the exact value that it had, or none where an i64
    // doesn't hold that in whole nanoseconds.
    pub fn turn(self, point: i64, rate: i32) -> Option<Line>
        requires computable { Computable self }
        requires time { pos 0 ≤ℤ point }
        ensures { result ≡ held (turned self point rate) }
    {
        let numbers = Numbers::of(self);
        let at = point as u64;
        match numbers.value_at(at) {
            Value::Within(value) => Some(Line {
                reference: point,
                synthetic: value,
                remainder: numbers.remainder_at(at),
                rate,
            }),
            Value::Below | Value::Above => None,
        }
    }
}

impl Value {
    // Whether it is below another one, where one of the two is within. Of two that are above it says yes, as the order
    // doesn't: so it stays beside that.
    pub fn is_less(self, other: Value) -> bool
        ensures { result ≡ is_less self other }
    {
        (other == Value::Above) | (self < other)
    }

    // The number of a value that an i64 holds, 0 of any other: so it can't fail.
    pub fn number(self) -> i64
        ensures { result ≡ number_of self }
    {
        match self {
            Value::Within(x) => x,
            Value::Below | Value::Above => 0,
        }
    }
}
