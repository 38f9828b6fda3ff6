use clock::Clock;
use tables::Refusal;

// A clock that runs from creation on: at 350 ns it shows 350.
pub fn started() -> Result<i64, Refusal> {
    let clock = Clock::create(Clock::AUTO_START, 0, 0)?;
    clock.read(350)
}
