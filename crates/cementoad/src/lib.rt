// The clock's and the slips' operations for callers in C and Rust, over numbers, structs of numbers and lent bytes.
// include/cementoad.h declares them. Anything may be handed in: each operation tests for itself whether it is handed a
// clock.
#![tactic(auto)]

ghost use Rattle.std.specs.Prelude.{◌≡◌};
ghost use Rattle.slip.specs.Reading.{reading_front, reading_single};
ghost use Rattle.slip.specs.Writing.{written_length, writing, outcome};
ghost use Rattle.clock.specs.Reading.{reading};
ghost use Rattle.clock.specs.Update.{updating};
ghost use Rattle.clock.specs.Details.{is_started, detailing};
ghost use Rattle.cementoad.specs.Boundary.{abi, creating_for, created_told};

use clock::{Clock, Detailed, Reading, Request, Updated};
use slip::{Received, Written};
use tables::Refusal;

// The version of the boundary: one more with each change of a struct, a function or a number that callers were built
// with, and with each new refusal.
pub const ABI: u32 = 5;

// A new clock, for C. A refused creation gives zeros, which are no clock, beside the refusal's number.
#[repr(C)]
#[derive(Clone, Copy)]
pub struct Created {
    pub clock: Clock,
    pub refusal: u8,
}

impl From<Result<Clock, Refusal>> for Created {
    ghost from_gives = { λ answer created. created ≡ created_told answer };

    fn from(answer: Result<Clock, Refusal>) -> Created {
        match answer {
            Ok(clock) => Created { clock, refusal: 0 },
            Err(refusal) => Created {
                clock: Clock::zeros(),
                refusal: refusal.number(),
            },
        }
    }
}

// The archive's version, for a caller to compare with the one that it was built with.
#[unsafe(no_mangle)]
pub extern "C" fn cementoad_abi() -> u32
    ensures { result ≡ abi }
{
    ABI
}

#[unsafe(no_mangle)]
#[tactic(auto, unfolding(crate::specs::Boundary::creating_for))]
pub extern "C" fn cementoad_create(word: u8, backstop: i64, now: i64) -> Created
    ensures { result ≡ creating_for word backstop now }
{
    Created::from(Clock::create(word, backstop, now))
}

#[unsafe(no_mangle)]
pub extern "C" fn cementoad_read(clock: Clock, now: i64) -> Reading
    ensures { result ≡ reading clock now }
{
    Reading::from(clock.read(now))
}

#[unsafe(no_mangle)]
pub extern "C" fn cementoad_update(clock: Clock, request: Request, now: i64) -> Updated
    ensures { result ≡ updating clock request now }
{
    clock.update(request, now)
}

#[unsafe(no_mangle)]
pub extern "C" fn cementoad_get_details(clock: Clock, now: i64) -> Detailed
    ensures { result ≡ detailing clock now }
{
    Detailed::from(clock.details(now))
}

#[unsafe(no_mangle)]
pub extern "C" fn cementoad_is_started(clock: Clock) -> bool
    ensures { result ≡ is_started clock }
{
    clock.started()
}

#[unsafe(no_mangle)]
pub extern "C" fn cementoad_read_slip(bytes: &[u8]) -> Received
    ensures { result ≡ reading_front bytes.now }
{
    Received::from(slip::read(bytes))
}

#[unsafe(no_mangle)]
pub extern "C" fn cementoad_read_single_slip(bytes: &[u8]) -> Received
    ensures { result ≡ reading_single bytes.now }
{
    Received::from(slip::read_single(bytes))
}

#[unsafe(no_mangle)]
pub extern "C" fn cementoad_write_slip(request: Request, buffer: &mut [u8]) -> Written
    ensures { outcome result buffer.new ≡ writing request buffer.old }
{
    Written::from(slip::write(request, &mut *buffer))
}

#[unsafe(no_mangle)]
pub extern "C" fn cementoad_slip_length(request: Request) -> usize
    ensures { result ≡ written_length request }
{
    slip::slip_length(request)
}
