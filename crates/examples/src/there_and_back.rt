use clock::Request;
use tables::Refusal;

// A rate of -23 parts per million, written as the four bytes 08 80 7a 20 and read back: its rate.
pub fn there_and_back() -> Result<i32, Refusal> {
    let trim = Request {
        word: Request::VERSION_2 | Request::RATE,
        rate: -23,
        ..Request::default()
    };
    let mut buffer = [0u8; slip::MAX_LENGTH];
    let length = slip::write(trim, &mut buffer)?;
    let written = buffer.get(..length).unwrap_or(&[]);
    let slip = slip::read_single(written)?;
    Ok(slip.request.rate)
}
