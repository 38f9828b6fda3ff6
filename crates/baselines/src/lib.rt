// A reader of slips that takes one bit at a time, kept to compare the product's with (02, R-3). It is proved to answer
// alike, and shares with `slip` all but the taking of bits.
#![tactic(auto)]

ghost use Rattle.std.specs.Prelude.{◌≡◌, ◌-◌, ◌/◌, ◌%◌, ◌^◌, ◌<◌};
ghost use Rattle.fields.specs.Field.{field, Inside};
ghost use Rattle.fields.specs.Record.{fields, AllInside};
ghost use Rattle.slip.specs.Reading.{reading_front};

use fields::Take;
use slip::Received;

// The slip on the front of the bytes, whatever follows it.
#[unsafe(no_mangle)]
pub extern "C" fn baselines_read_slip(bytes: &[u8]) -> Received
    ensures { result ≡ reading_front bytes.now }
{
    Received::from(slip::read_by::<ByBits>(bytes))
}

// A bit at a time.
struct ByBits;

impl Take for ByBits {
    fn take(bytes: &[u8], place: usize, width: usize) -> u64 {
        let mut value = 0;
        for n in 0..width {
            let p = place + n;
            value = value * 2 + bit_of(bytes[p / 8], p % 8);
        }
        value
    }
}

// Bit `o` of a byte, 0 or 1. Bit 0 is the most significant.
fn bit_of(byte: u8, o: usize) -> u64
    requires { o < 8 }
    ensures { result ≡ byte / 2 ^ (7 - o) % 2 }
{
    (u64::from(byte) >> (7 - o)) % 2
}
