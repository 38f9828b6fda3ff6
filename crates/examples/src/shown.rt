use clock::{Clock, Request};
use tables::Refusal;

// A monotonic clock, set to 1500 at 100 ns: 1750 is what it shows at 350.
pub fn shown() -> Result<i64, Refusal> {
    let clock = Clock::create(Clock::MONOTONIC, 0, 0)?;
    let set = Request {
        word: Request::VERSION_2 | Request::SYNTHETIC,
        synthetic: 1500,
        ..Request::default()
    };
    let updated = clock.update(set, 100);
    updated.clock.read(350)
}
