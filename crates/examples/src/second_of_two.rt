use tables::Refusal;

// Two slips in a row, one that flags nothing and a rate of -23: the second is read where the first ends.
pub fn second_of_two() -> Result<i32, Refusal> {
    let row: [u8; 6] = [0x08, 0x00, 0x08, 0x80, 0x7a, 0x20];
    let (first, rest) = slip::read_next(&row);
    first?;
    let (second, _) = slip::read_next(rest);
    Ok(second?.rate)
}
