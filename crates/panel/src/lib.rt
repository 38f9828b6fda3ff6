// Commands of a trim panel, in floats, and the request that each asks for.
#![tactic(auto)]

ghost use Rattle.std.specs.Prelude.{◌≡◌, true};
ghost use Rattle.std.specs.Float.{float_is_finite};
ghost use Rattle.panel.specs.declared.Command.TheVariants.{Trim, Pull};
ghost use Rattle.panel.specs.Bits.{bits};
ghost use Rattle.panel.specs.Panel.{rate_request, translating, told};
ghost use Rattle.panel.specs.Parts.{capped_whole};

use clock::Request;
use std::num::saturating_f64_to_i32;
use tables::{Refusal, refuse_if};

// What a maintainer asks of a clock: to leave it as it runs, to have this rate, or to gain an offset over a window. A
// rate is in parts per million and replaces the clock's own; an offset is in nanoseconds, a window in seconds.
#[derive(Clone, Copy)]
pub enum Command {
    Hold,
    Trim(f64),
    Pull { offset: f64, window: f64 },
}

// A size that is wider than any rate: from here on sizes are not told apart.
const CAP: f64 = 2048.0;

impl Command {
    // The request that the command asks for, or none for hold. No clock is asked: whether one takes the rate, its
    // update says.
    #[tactic(auto, unfolding(crate::specs::Panel::translating))]
    pub fn translate(self) -> Result<Option<Request>, Refusal>
        ensures { told result ≡ translating self }
    {
        match self {
            Command::Hold => Ok(None),
            Command::Trim(ppm) => trim(ppm),
            Command::Pull { offset, window } => pull(offset, window),
        }
    }
}

#[tactic(auto, using(crate::proofs::Tables::trim_judged), unfolding(tables::specs::Refusals::refused_if))]
fn trim(ppm: f64) -> Result<Option<Request>, Refusal>
    ensures { told result ≡ translating (Trim ppm) }
{
    refuse_if(!ppm.is_finite(), Refusal::NotFinite)?;
    let request = rate_request(whole(ppm));
    refuse_if(request.rate_too_wide(), Refusal::RateOutside)?;
    Ok(Some(request))
}

// The quotient is judged as a trim's rate.
#[tactic(auto, using(crate::proofs::Tables::pull_judged), unfolding(tables::specs::Refusals::refused_if))]
fn pull(offset: f64, window: f64) -> Result<Option<Request>, Refusal>
    ensures { told result ≡ translating (Pull offset window) }
{
    refuse_if(!offset.is_finite(), Refusal::NotFinite)?;
    refuse_if(!window.is_finite(), Refusal::NotFinite)?;
    refuse_if(!(0.0 < window), Refusal::NotFinite)?;
    let product = window * 1000.0;
    refuse_if(!product.is_finite(), Refusal::NotFinite)?;
    trim(offset / product)
}

// A request of version 2 that flags the rate alone.
fn rate_request(rate: i32) -> Request
    ensures { result ≡ rate_request rate }
{
    Request {
        word: Request::VERSION_2 + Request::RATE,
        rate,
        ..Request::default()
    }
}

// The whole number nearest to x, of a half the even one; CAP or -CAP where that lies further out.
#[tactic(auto, using(crate::proofs::Rounding::rounded))]
fn whole(x: f64) -> i32
    requires { float_is_finite x ≡ true }
    ensures { result ≡ capped_whole (bits x) }
{
    saturating_f64_to_i32(x.clamp(-CAP, CAP).round_ties_even())
}
