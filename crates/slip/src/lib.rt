// Update slips: a request as packed bytes, read and written. Casts are `as` where a clause shows that nothing is lost:
// `try_from` would bring errors that can't come.
#![tactic(auto)]

ghost use Rattle.std.specs.Prelude.{◌≡◌, not, cond, ◌++◌, ◌*◌, ◌≤◌, pos, T, length, drop};
ghost use Rattle.fields.specs.Record.{widths_in, values_in};
ghost use Rattle.clock.specs.declared.Request.{Request};
ghost use Rattle.clock.specs.Clock.{Permitted};
ghost use Rattle.clock.specs.Update.{version_unit, values_outside, rate_too_wide};
ghost use Rattle.slip.specs.Layout.{bare, time_width, rate_field, rate_of, rate_field_end, widths, slip_length, fits_version2, is_needless};
ghost use Rattle.slip.specs.Reading.{reading_front, reading_single, received_as};
ghost use Rattle.slip.specs.Writing.{slip_version, in_slip, values_of, bytes_for, written_length, writing, outcome, written_as};
ghost use Rattle.slip.specs.Row.{next_slip, reading_next};
ghost use Rattle.slip.specs.Parts.{numbered, sizes, opening, judging, Small, asking};

use clock::{Clock, Request};
use fields::{ByBytes, Packed, Take};
use std::array;
use std::marker::Model;
use tables::{Refusal, refuse_if};

// A request that was read, and how many bytes its slip used.
#[derive(Clone, Copy)]
pub struct Slip {
    pub request: Request,
    pub length: usize,
}

// The same for C, with the number of a refusal. A refused one is zeros but for its number.
#[repr(C)]
#[derive(Clone, Copy)]
pub struct Received {
    pub request: Request,
    pub length: usize,
    pub refusal: u8,
}

impl From<Result<Slip, Refusal>> for Received {
    ghost from_gives = { λ answer r. r ≡ received_as answer };

    fn from(answer: Result<Slip, Refusal>) -> Received {
        match answer {
            Ok(Slip { request, length }) => Received {
                request,
                length,
                refusal: 0,
            },
            Err(refusal) => Received {
                request: bare(0),
                length: 0,
                refusal: refusal.number(),
            },
        }
    }
}

// How many bytes were written, for C: 0 where it is refused.
#[repr(C)]
#[derive(Clone, Copy)]
pub struct Written {
    pub length: usize,
    pub refusal: u8,
}

impl From<Result<usize, Refusal>> for Written {
    ghost from_gives = { λ answer w. w ≡ written_as answer };

    fn from(answer: Result<usize, Refusal>) -> Written {
        Written {
            length: answer.unwrap_or(0),
            refusal: answer.err().map_or(0, Refusal::number),
        }
    }
}

// A request that a slip holds, in the version that it has: its arguments fit its word.
#[derive(Clone, Copy)]
struct Held {
    request: Request,
}

impl Model for Held {
    ghost Value = { Request };

    ghost view = { λ held. held.request };

    ghost invariant = { λ held. T (not (values_outside held.request)) × T (not (rate_too_wide held.request)) };

    ghost inverse = { λ u. record { request = u } };
}

// The bits of header, synthetic, reference, rate, error and padding, and the bytes that they fill.
#[derive(Clone, Copy)]
struct Sizes {
    layout: [usize; 6],
    length: usize,
}

// What a header calls for: its word with zero arguments, and the sizes of its slip.
#[derive(Clone, Copy)]
struct Opened {
    asked: Request,
    sizes: Sizes,
}

// The bits of the header, of a time in versions 2 and 3, of a rate and an error bound. The header is the top of the
// word.
const HEADER_BITS: usize = 16;

const TIME_BITS_2: usize = 61;

const TIME_BITS_3: usize = 63;

const RATE_BITS: usize = 11;

const ERROR_BITS: usize = 64;

// The bytes of a header, which are a slip where nothing is flagged.
const HEADER_LENGTH: usize = HEADER_BITS / 8;

// The bytes of the longest slip, which has version 3 and flags all four arguments.
pub const MAX_LENGTH: usize = (HEADER_BITS + 2 * TIME_BITS_3 + RATE_BITS + ERROR_BITS + 7) / 8;

// The header's last bit, in the word.
const HEADER_UNIT: u64 = 1 << (64 - HEADER_BITS);

// The largest rate field, which stands for the widest rate: a rate is written as a + MAX_RATE.
const RATE_FIELD_END: u64 = 2 * (Clock::MAX_RATE as u64);

// The slip on the front of the bytes, whatever follows it. It is compiled into each of its callers: the answer of a call
// waits for memory (docs/PERFORMANCE.md).
#[inline(always)]
pub fn read(bytes: &[u8]) -> Result<Slip, Refusal>
    ensures { received_as result ≡ reading_front bytes.now }
{
    read_by::<ByBytes>(bytes)
}

// The same, with its bits taken by T.
#[inline(always)]
#[tactic(auto, using(crate::proofs::Fronts::front_refused, crate::proofs::Fronts::opened_judged))]
pub fn read_by<T: Take>(bytes: &[u8]) -> Result<Slip, Refusal>
    ensures { received_as result ≡ reading_front bytes.now }
{
    let opened = opening_of::<T>(bytes)?;
    let sizes = opened.sizes;
    let values = T::take_six(bytes, sizes.layout);
    judged(opened.asked, values, sizes.length)
}

// The request of the slip on the front of the bytes, and the bytes behind it: the caller's own, from the end of the
// slip on, or all of them where it is refused.
#[tactic(auto, using(crate::proofs::Fronts::front_within), unfolding(crate::specs::Row::reading_next))]
pub fn read_next<'a>(bytes: &'a [u8]) -> (Result<Request, Refusal>, &'a [u8])
    ensures { next_slip result.0 result.1 ≡ reading_next bytes.entry }
{
    match read(bytes) {
        Ok(slip) => (Ok(slip.request), &bytes[slip.length..]),
        Err(refusal) => (Err(refusal), bytes),
    }
}

// A slip that is all of the bytes: none may be left over.
#[tactic(auto, unfolding(tables::specs::Refusals::refused_if, crate::specs::Reading::reading_single))]
pub fn read_single(bytes: &[u8]) -> Result<Slip, Refusal>
    ensures { received_as result ≡ reading_single bytes.now }
{
    let slip = read(bytes)?;
    refuse_if(slip.length < bytes.len(), Refusal::BytesLeftOver)?;
    Ok(slip)
}

// Writes the request as a slip to the front of the buffer, and tells how many bytes that are. No other byte is touched,
// and none where it is refused.
#[tactic(auto, using(crate::proofs::Layouts::length_alike, crate::proofs::Writings::writing_refused, crate::proofs::Writings::writing_short, crate::proofs::Writings::writing_done), unfolding(tables::specs::Refusals::refused_if))]
pub fn write(request: Request, buffer: &mut [u8]) -> Result<usize, Refusal>
    ensures { outcome (written_as result) buffer.new ≡ writing request buffer.old }
{
    let slip = slip_for(request)?;
    let length = length_of(slip.request.word);
    refuse_if(buffer.len() < length, Refusal::BufferShort)?;
    write_slip(slip, &mut *buffer);
    Ok(length)
}

// How many bytes the request's slip has, 0 where writing refuses it whatever the room: so it can't fail.
#[tactic(auto, using(crate::proofs::Layouts::length_alike, tables::proofs::Tables::answered, tables::proofs::Tables::refused_by_lem), unfolding(crate::specs::Parts::asking, crate::specs::Writing::written_length))]
pub fn slip_length(request: Request) -> usize
    ensures { result ≡ written_length request }
{
    match slip_for(request) {
        Ok(slip) => length_of(slip.request.word),
        Err(_) => 0,
    }
}

// ---- the parts of a reading

// What the header on the front of these bytes calls for. The sizes are worked out here, once.
#[tactic(auto, unfolding(tables::specs::Refusals::refused_if, crate::specs::Parts::opening, crate::specs::Reading::header_table_by, crate::specs::Reading::headed))]
fn opening_of<T: Take>(bytes: &[u8]) -> Result<Opened, Refusal>
    ensures { numbered result ≡ opening bytes.now }
{
    refuse_if(bytes.len() < HEADER_LENGTH, Refusal::TooShort)?;
    let asked = bare(T::take(bytes, 0, HEADER_BITS) * HEADER_UNIT);
    refuse_if(asked.word_wrong(), Refusal::WordWrong)?;
    let sizes = sizes_of(asked.word);
    refuse_if(bytes.len() < sizes.length, Refusal::TooShort)?;
    Ok(Opened { asked, sizes })
}

// The tests of the fields as they stand in a slip of this length, and the request that they give. The values are those
// of header, synthetic, reference, rate, error and padding.
#[tactic(auto, unfolding(tables::specs::Refusals::refused_if, crate::specs::Parts::judging, crate::specs::Reading::fields_table))]
fn judged(asked: Request, values: [u64; 6], length: usize) -> Result<Slip, Refusal>
    requires { Small values }
    ensures { numbered result ≡ judging asked values length }
{
    refuse_if(RATE_FIELD_END < values[3], Refusal::RateOutside)?;
    refuse_if(values[5] != 0, Refusal::PaddingSet)?;
    let flags = asked.flags();
    let request = Request {
        word: asked.word,
        synthetic: values[1] as i64,
        reference: values[2] as i64,
        rate: rate_of(flags.rate, values[3]),
        error: values[4],
    };
    refuse_if(is_needless(request), Refusal::VersionNeedless)?;
    Ok(Slip { request, length })
}

// A flagged rate of a slip, 0 for one that isn't flagged. As an `if` in its caller it leaves that one's proof open.
fn rate_of(flagged: bool, value: u64) -> i32
    requires { value ≤ rate_field_end }
    ensures { result ≡ cond flagged (rate_of value) (pos 0) }
{
    if flagged {
        (value as i32) - Clock::MAX_RATE
    } else {
        0
    }
}

// A request of this word with zero arguments.
fn bare(word: u64) -> Request
    ensures { result ≡ bare word }
{
    Request {
        word,
        ..Request::default()
    }
}

// Whether version 2 holds the flagged synthetic and reference.
fn fits_version_2(request: Request) -> bool
    ensures { result ≡ fits_version2 request }
{
    !request.values_beyond(Clock::VERSION_2_END)
}

// Whether it has version 3, where 2 would do.
fn is_needless(request: Request) -> bool
    ensures { result ≡ is_needless request }
{
    request.is_version_3() & fits_version_2(request)
}

// The bits of a time behind its word.
fn time_width(asked: Request) -> usize
    ensures { result ≡ time_width asked.word }
{
    if asked.is_version_3() {
        TIME_BITS_3
    } else {
        TIME_BITS_2
    }
}

// The bits of header, synthetic, reference, rate and error. A field that isn't flagged has none.
#[tactic(auto, unfolding(crate::specs::Layout::widths_by))]
fn widths_of(word: u64) -> [usize; 5]
    ensures { result ≡ widths (bare word) }
{
    let asked = bare(word);
    let time = time_width(asked);
    let flags = asked.flags();
    [
        HEADER_BITS,
        if flags.synthetic { time } else { 0 },
        if flags.reference { time } else { 0 },
        if flags.rate { RATE_BITS } else { 0 },
        if flags.error { ERROR_BITS } else { 0 },
    ]
}

#[tactic(auto, using(crate::proofs::Layouts::sum_small, crate::proofs::Layouts::sizes_are))]
fn sizes_of(word: u64) -> Sizes
    ensures { result ≡ sizes (bare word) }
{
    let w = widths_of(word);
    let bits = w[0] + w[1] + w[2] + w[3] + w[4];
    let length = (bits + 7) / 8;
    let padding = 8 * length - bits;
    let layout = [w[0], w[1], w[2], w[3], w[4], padding];
    Sizes { layout, length }
}

// The bytes of a slip whose header is the top of this word.
fn length_of(word: u64) -> usize
    ensures { result ≡ slip_length (bare word) }
{
    sizes_of(word).length
}

// The request as its slip has it: in version 2 where that does, else in version 3.
#[tactic(auto, unfolding(crate::specs::Writing::in_slip))]
fn in_slip(request: Request) -> Request
    ensures { result ≡ in_slip request }
{
    Request {
        word: slip_version(request) + request.word % Request::VERSION_UNIT,
        ..request
    }
}

// The version of its slip, as a word has it.
fn slip_version(request: Request) -> u64
    ensures { result ≡ slip_version request * version_unit }
{
    if fits_version_2(request) {
        Request::VERSION_2
    } else {
        Request::VERSION_3
    }
}

// The request as its slip has it, where it can be written given room.
#[tactic(auto, unfolding(tables::specs::Refusals::refused_if, crate::specs::Writing::asked_table, crate::specs::Parts::asking))]
fn slip_for(request: Request) -> Result<Held, Refusal>
    ensures { numbered result ≡ asking request }
{
    refuse_if(request.word_wrong(), Refusal::WordWrong)?;
    refuse_if(request.values_outside(), Refusal::ValueOutside)?;
    refuse_if(request.rate_too_wide(), Refusal::RateOutside)?;
    Ok(Held {
        request: in_slip(request),
    })
}

// Writes a request in the version that it has into a buffer with room for it.
fn write_slip(slip: Held, buffer: &mut [u8])
    requires { slip_length slip ≤ length buffer.old }
    ensures { buffer.new ≡ bytes_for slip ++ drop (slip_length slip) buffer.old }
{
    let sizes = sizes_of(slip.request.word);
    let values = values_of(slip);
    let packed = packed_of(sizes.layout, values);
    fields::put_all(&mut *buffer, &packed);
}

// Each value with its width. The widths are those of a layout, which reading shares.
fn packed_of(widths: [usize; 6], values: [u64; 6]) -> [Packed; 6]
    ensures widths { widths_in result ≡ widths }
    ensures values { values_in result ≡ values }
{
    array::from_fn(|i| Packed {
        width: widths[i],
        value: values[i],
    })
}

// Header, synthetic, reference, rate, error and padding as a slip has them.
#[tactic(auto, using(clock::proofs::Requests::synthetic_in_range, clock::proofs::Requests::reference_in_range, clock::proofs::Requests::rate_permitted), unfolding(crate::specs::Writing::values_of))]
fn values_of(slip: Held) -> [u64; 6]
    ensures { result ≡ values_of slip }
{
    let request = slip.request;
    let header = request.word / HEADER_UNIT;
    let flags = request.flags();
    let rate = rate_value(flags.rate, request.rate);
    let synthetic = if flags.synthetic {
        request.synthetic as u64
    } else {
        0
    };
    let reference = if flags.reference {
        request.reference as u64
    } else {
        0
    };
    let error = if flags.error { request.error } else { 0 };
    [header, synthetic, reference, rate, error, 0]
}

// A flagged rate as a slip has it, 0 for one that isn't flagged. As an `if` in its caller it leaves that one's proof
// open.
fn rate_value(flagged: bool, rate: i32) -> u64
    requires { T flagged → Permitted rate }
    ensures { result ≡ cond flagged (rate_field rate) 0 }
{
    if flagged {
        (rate + Clock::MAX_RATE) as u64
    } else {
        0
    }
}
