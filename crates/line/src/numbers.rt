// A line in natural numbers: its value at a time and the millionths beside it, with no product or sum beyond 64 bits.
ghost use Rattle.std.specs.Prelude.{◌≡◌, ◌+◌, ◌*◌, ◌/◌, ◌%◌, ◌≤◌, ◌<◌};
ghost use Rattle.line.specs.Numbers.{million, signed_end, steepest};

use crate::{Line, Value};

// Millionths in a nanosecond, and parts per million in one.
pub(crate) const MILLION: u64 = 1_000_000;

// The last number that an i64 holds.
const SIGNED_END: u64 = i64::MAX as u64;

// A line in natural numbers, with its slope in millionths.
#[derive(Clone, Copy)]
pub(crate) struct Numbers {
    reference: u64,
    synthetic: u64,
    remainder: u64,
    slope: u64,
    ghost reference_fits: { reference ≤ signed_end },
    ghost synthetic_fits: { synthetic ≤ signed_end },
    ghost remainder_fits: { remainder < million },
    ghost slope_fits: { slope ≤ steepest },
}

impl Numbers {
    ghost use Rattle.line.specs.Numbers.{floor_div, floor_mod};
    ghost use Rattle.line.specs.Line.{Computable};
    ghost use Rattle.line.specs.Value.{placed};
    ghost use Rattle.line.specs.Parts.{exact_of, IsLine};

    pub(crate) fn of(line: Line) -> Numbers
        requires { Computable line }
        ensures { IsLine line result }
    {
        let Line {
            reference,
            synthetic,
            remainder,
            rate,
        } = line;
        Numbers {
            reference: reference as u64,
            synthetic: synthetic as u64,
            remainder: u64::from(remainder),
            slope: (MILLION as i32 + rate) as u64, // what the line gains in each nanosecond
        }
    }

    // The value at t.
    #[tactic(auto, using(crate::proofs::FourAnswers::four_answers))]
    pub(crate) fn value_at(self, t: u64) -> Value
        requires { t ≤ signed_end }
        ensures { result ≡ placed (floor_div (exact_of self t) million) }
    {
        let Numbers {
            reference,
            synthetic,
            remainder,
            slope,
        } = self;
        if reference <= t {
            let growth = scaled(t - reference, slope, remainder).0;
            if SIGNED_END - synthetic < growth {
                Value::Above
            } else {
                Value::Within((synthetic + growth) as i64)
            }
        } else {
            let fall = scaled(reference - t, slope, MILLION - 1 - remainder).0;
            if synthetic < fall {
                Value::Below
            } else {
                Value::Within((synthetic - fall) as i64)
            }
        }
    }

    // The millionths beside that value. Before the reference they are counted down from 999,999.
    #[tactic(auto, using(crate::proofs::FourAnswers::both_rests))]
    pub(crate) fn remainder_at(self, t: u64) -> u32
        requires { t ≤ signed_end }
        ensures { result ≡ floor_mod (exact_of self t) million }
    {
        let Numbers {
            reference,
            remainder,
            slope,
            ..
        } = self;
        if reference <= t {
            scaled(t - reference, slope, remainder).1 as u32
        } else {
            (MILLION - 1 - scaled(reference - t, slope, MILLION - 1 - remainder).1) as u32
        }
    }
}

// (distance x slope + carry) / 1,000,000, by parts, and what it leaves.
#[inline]
#[tactic(auto, using(crate::proofs::ByParts::by_parts))]
fn scaled(distance: u64, slope: u64, carry: u64) -> (u64, u64)
    requires distance { distance ≤ signed_end }
    requires slope { slope ≤ steepest }
    requires carry { carry < million }
    ensures quotient { result.0 ≡ (distance * slope + carry) / million }
    ensures rest { result.1 ≡ (distance * slope + carry) % million }
{
    let part = distance % MILLION * slope + carry;
    (distance / MILLION * slope + part / MILLION, part % MILLION)
}
