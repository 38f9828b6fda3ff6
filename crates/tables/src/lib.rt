// The refusals, each with its number, and the test that tells one.
#![tactic(auto)]

ghost use Rattle.std.specs.Prelude.{◌≡◌, Some};
ghost use Rattle.tables.specs.Refusals.{number, sentence, refused_if};

use std::error::Error;
use std::fmt;

// Why something is refused, with its number in the papers; 254 and 255 are ours. 0 is no refusal's.
#[derive(Clone, Copy, Debug, PartialEq, Eq)]
pub enum Refusal {
    NowOutside = 1,
    NowEarly = 2,
    WordWrong = 3,
    NothingFlagged = 4,
    ValueOutside = 5,
    RateOutside = 6,
    ReferenceAlone = 7,
    NotStarted = 8,
    ContinuousReference = 9,
    ContinuousSet = 10,
    MonotonicSetAndRate = 11,
    LineOutside = 12,
    BelowBackstop = 13,
    MonotonicBack = 14,
    ContinuousNotMonotonic = 15,
    BackstopOutside = 16,
    BackstopAhead = 17,
    TooShort = 18,
    PaddingSet = 19,
    BytesLeftOver = 20,
    BufferShort = 21,
    RateStep = 22,
    VersionNeedless = 31,
    NotFinite = 32,
    NotACommand = 254,
    NotAClock = 255,
}

impl Refusal {
    pub fn number(self) -> u8
        ensures { result ≡ number self }
    {
        self as u8
    }
}

impl fmt::Display for Refusal {
    ghost output = { λ refusal. Some (sentence refusal) };

    fn fmt<W: fmt::Write>(&self, f: &mut fmt::Formatter<W>) -> fmt::Result {
        f.write_str(match self {
            Refusal::NowOutside => "now lies outside 0..END",
            Refusal::NowEarly => "now lies before the clock's latest time",
            Refusal::WordWrong => "a bit is set that must be zero, or a version isn't known",
            Refusal::NothingFlagged => "no argument is flagged",
            Refusal::ValueOutside => "a time or a value lies outside its range",
            Refusal::RateOutside => "a rate lies outside -1000..1000",
            Refusal::ReferenceAlone => "a reference comes with neither a value nor a rate",
            Refusal::NotStarted => "the clock isn't started, and what is asked needs one that is",
            Refusal::ContinuousReference =>
                "a continuous clock is handed a reference, at its start or later",
            Refusal::ContinuousSet => "a continuous clock that runs is to be set",
            Refusal::MonotonicSetAndRate =>
                "a monotonic clock that runs is handed a value and a rate at once",
            Refusal::LineOutside =>
                "a line's value lies outside 0..END where it begins, or above END at now",
            Refusal::BelowBackstop => "the clock would show less than its backstop",
            Refusal::MonotonicBack => "a monotonic clock that runs would show less than it does",
            Refusal::ContinuousNotMonotonic =>
                "a new clock is to be continuous without being monotonic",
            Refusal::BackstopOutside => "a new clock's backstop lies outside 0..END",
            Refusal::BackstopAhead =>
                "a new clock is to start at once, with its backstop ahead of now",
            Refusal::TooShort => "there are fewer bytes than what is read calls for",
            Refusal::PaddingSet => "a padding bit is set",
            Refusal::BytesLeftOver => "bytes follow what is read",
            Refusal::BufferShort => "the buffer is too short for what is written",
            Refusal::RateStep => "a clock that runs is handed a rate more than 200 from its own",
            Refusal::VersionNeedless => "a slip has version 3, though version 2 would hold it",
            Refusal::NotFinite =>
                "a command's number or what comes of it isn't finite, or its window isn't above zero",
            Refusal::NotACommand => "what was handed in is a command of no known kind",
            Refusal::NotAClock => "what was handed in is not taken for a clock",
        })
    }
}

impl Error for Refusal {}

// Refuses where the test holds: `refuse_if(test, refusal)?` is one row of a table, after the rows above it.
#[tactic(auto, unfolding(crate::specs::Refusals::refused_if))]
pub fn refuse_if(test: bool, refusal: Refusal) -> Result<(), Refusal>
    ensures { result ≡ refused_if test refusal }
{
    if test { Err(refusal) } else { Ok(()) }
}
