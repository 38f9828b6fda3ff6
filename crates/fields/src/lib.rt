// Packed fields: numbers of 0 to 64 bits that stand in bytes one after another, most significant bit first.
// Casts are `as` where a clause shows that nothing is lost: `try_from` would bring errors that can't come.
#![tactic(auto)]

ghost use Rattle.std.specs.Prelude.{◌≡◌, ◌+◌, ◌-◌, ◌*◌, ◌/◌, ◌%◌, ◌^◌, ◌≤◌, ◌<◌, min, length};
ghost use Rattle.fields.specs.Bits.{digits, row};
ghost use Rattle.fields.specs.Field.{field, over, Inside};
ghost use Rattle.fields.specs.Record.{packed, fields, widths_in, values_in, AllInside};
ghost use Rattle.fields.specs.Reader.{reader_at, moved_on};
ghost use Rattle.fields.specs.Pending.{Waiting, waiting, reach, merged, Ready, Together};

use std::marker::Model;

// The lent bytes, and the place of the next field in bits.
#[derive(Clone, Copy)]
pub struct Reader<'a> {
    src: &'a [u8],
    place: usize,
}

impl<'a> Reader<'a> {
    pub fn new(src: &'a [u8], place: usize) -> Reader<'a>
        ensures { result ≡ reader_at src.entry place }
    {
        Reader { src, place }
    }

    // The field at the reader's place.
    pub fn field(self, width: usize) -> u64
        requires { Inside self.src.now self.place width }
        ensures { result ≡ field self.entry.src.now self.entry.place width }
    {
        get(self.src, self.place, width)
    }

    // The reader with its place after that field.
    pub fn past(self, width: usize) -> Reader<'a>
        requires { self.place + width < 2 ^ 64 }
        ensures { result ≡ moved_on self.entry width }
    {
        Reader {
            src: self.src,
            place: self.place + width,
        }
    }

    // The fields of some widths, one after another: the reader is carried through them. A field of width 0 leaves it
    // where it is.
    #[inline(always)]
    fn fields<const N: usize>(self, widths: [usize; N]) -> [u64; N]
        requires { AllInside self.src.now self.place widths }
        ensures { result ≡ fields self.entry.src.now self.entry.place widths.entry }
    {
        let mut reader = self;
        let mut values = [0; N];
        for (i, width) in widths.iter().enumerate() {
            values[i] = reader.field(*width);
            reader = reader.past(*width);
        }
        values
    }
}

// A way to take packed fields out of bytes. What is asked speaks of the lent bytes and of places in them together, and
// the bytes are a caller's own: so it stands at each function.
pub trait Take {
    // The field of `width` bits from a place on.
    fn take(bytes: &[u8], place: usize, width: usize) -> u64
        requires { Inside bytes.now place width }
        ensures { result ≡ field bytes.now place width };

    // The fields of six widths, one after another from the first bit on. Six, and not any number: a method of a trait
    // can't have a const parameter yet.
    fn take_six(bytes: &[u8], widths: [usize; 6]) -> [u64; 6]
        requires { AllInside bytes.now 0 widths }
        ensures { result ≡ fields bytes.now 0 widths }
    {
        let mut values = [0; 6];
        let mut place = 0;
        for (i, width) in widths.iter().enumerate() {
            values[i] = Self::take(bytes, place, *width);
            place += *width;
        }
        values
    }
}

// By whole bytes, through a reader.
pub struct ByBytes;

impl Take for ByBytes {
    // One field, through a reader of its own.
    fn take(bytes: &[u8], place: usize, width: usize) -> u64 {
        let reader = Reader::new(bytes, place);
        reader.field(width)
    }

    // Through one reader (01), and compiled into each caller: as a call, full slips took a fifth longer.
    #[inline(always)]
    fn take_six(bytes: &[u8], widths: [usize; 6]) -> [u64; 6] {
        let reader = Reader::new(bytes, 0);
        reader.fields(widths)
    }
}

// The field of `width` bits from a place on, by whole bytes. Width 0 stands apart: no number can be shifted by 64.
// Bytes and place are handed over apart: 01 has the reader's functions thin, over such as this one and those below.
fn get(bytes: &[u8], place: usize, width: usize) -> u64
    requires { Inside bytes.now place width }
    ensures { result ≡ field bytes.now place width }
{
    if width == 0 {
        return 0;
    }
    if bytes.len() < 8 {
        return get_of_few(bytes, place, width);
    }
    get_of_many(bytes, place, width)
}

// A field out of fewer than 8 bytes: from the one that it begins in to the last, as one number, which is shifted up
// until the bits before the field are gone, and down to its width.
fn get_of_few(bytes: &[u8], place: usize, width: usize) -> u64
    requires { (place + width ≤ 8 * length bytes.now) × (0 < width) × (length bytes.now < 8) }
    ensures { result ≡ field bytes.now place width }
{
    let left = 8 * bytes.len() - place;
    let number = gathered(bytes, place / 8);
    (number << (64 - left)) >> (64 - width)
}

// A field out of 8 bytes or more: the same of 8 of them, and what stands in a ninth.
fn get_of_many(bytes: &[u8], place: usize, width: usize) -> u64
    requires { (place + width ≤ 8 * length bytes.now) × (0 < width) × (width ≤ 64) × (8 ≤ length bytes.now) }
    ensures { result ≡ field bytes.now place width }
{
    let first = window_start(place, bytes.len());
    let before = place - 8 * first;
    let number = eight(bytes, first);
    let value = (number << before) >> (64 - width);
    if before + width <= 64 {
        return value;
    }
    value + (u64::from(bytes[first + 8]) >> (72 - before - width))
}

// The byte that has the place, or an earlier one that 7 follow.
fn window_start(place: usize, size: usize) -> usize
    requires { 8 ≤ size }
    ensures { result ≡ min (place / 8) (size - 8) }
{
    let first = place / 8;
    let last = size - 8;
    if first < last { first } else { last }
}

// The bytes from `first` to the last as one number.
fn gathered(bytes: &[u8], first: usize) -> u64
    requires { (first ≤ length bytes.now) × (length bytes.now ≤ first + 8) }
    ensures { result ≡ field bytes.now (8 * first) (8 * (length bytes.now - first)) }
{
    let mut number = 0;
    for i in first..bytes.len() {
        number = number * 256 + u64::from(bytes[i]);
    }
    number
}

// Eight bytes from `first` on as one number.
fn eight(bytes: &[u8], first: usize) -> u64
    requires { first + 8 ≤ length bytes.now }
    ensures { result ≡ field bytes.now (8 * first) 64 }
{
    let word: &[u8; 8] = bytes[first..].first_chunk().unwrap();
    u64::from_be_bytes(*word)
}

// Writes the `width` low bits of the value from a place on. Every other bit stays: those before the field in its first
// byte wait in front of it. Width 0 stands apart: there may be no byte at its place.
pub fn put(buf: &mut [u8], place: usize, width: usize, value: u64)
    requires { Inside buf.old place width }
    ensures { row buf.new ≡ over (row buf.old) place (digits width value) }
{
    if width == 0 {
        return;
    }
    let first = place / 8;
    let count = place % 8;
    let word = front_bits(buf[first], count);
    let before = Pending { word, count, first };
    let pending = before.add(&mut *buf, width, value);
    pending.finish(&mut *buf);
}

// A number, and the bits that it is written in.
#[derive(Clone, Copy)]
pub struct Packed {
    pub width: usize,
    pub value: u64,
}

// Writes these fields one after another from the first bit on. Every other bit stays.
pub fn put_all(buf: &mut [u8], fields: &[Packed])
    requires { AllInside buf.old 0 (widths_in fields.now) }
    ensures { row buf.new ≡ over (row buf.old) 0 (packed (widths_in fields.now) (values_in fields.now)) }
{
    let mut pending = Pending {
        word: 0,
        count: 0,
        first: 0,
    };
    for field in fields {
        pending = pending.add(&mut *buf, field.width, field.value);
    }
    pending.finish(&mut *buf);
}

// Bits that wait to be written from the byte `first` on: the first `count` of the word, whose others are 0.
#[derive(Drop)]
struct Pending {
    word: u64,
    count: usize,
    first: usize,
}

// Clauses see the bits, and the byte that they begin in.
impl Model for Pending {
    ghost Value = { Waiting };

    ghost view = { λ p. waiting p.word p.count p.first };

    ghost invariant = { λ p. Ready p.word p.count };
}

// The buffer is lent to each step, and no struct holds it: a promise on its bytes is one on what is lent.
impl Pending {
    // The bits that wait with a field behind them. Once they fill the word, it is written, and what is left of the
    // field waits. No number can be shifted by 64: so width 0 stands apart, and what is left is shifted in two steps.
    fn add(self, buf: &mut [u8], width: usize, value: u64) -> Pending
        requires { (reach self + width ≤ 8 * length buf.old) × (width ≤ 64) }
        ensures { Together buf.new result (over (merged buf.old self) (reach self) (digits width value)) (reach self + width) }
    {
        if width == 0 {
            return self;
        }
        let Pending { word, count, first } = self;
        let word = behind(word, count, width, value);
        let count = count + width;
        if count < 64 {
            return Pending { word, count, first };
        }
        store(&mut *buf, first, 8, word);
        let left = count - 64;
        Pending {
            word: (value << (63 - left)) << 1,
            count: left,
            first: first + 8,
        }
    }

    // Writes the bits that wait, by four bytes, two and one; what is left of them goes into the front of a byte.
    fn finish(self, buf: &mut [u8])
        requires { reach self ≤ 8 * length buf.old }
        ensures { row buf.new ≡ merged buf.old self }
    {
        // That fewer than 64 wait is known once a field is read.
        let _ = &self.count;
        let pending = self.drain(&mut *buf, 4);
        let pending = pending.drain(&mut *buf, 2);
        let pending = pending.drain(&mut *buf, 1);
        let Pending { word, count, first } = pending;
        if count != 0 {
            let x = with_front(buf[first], count, word);
            buf[first] = x;
        }
    }

    // Writes the first `bytes` bytes of the bits that wait, where as many wait. Of fewer than twice as many, fewer than
    // these are left.
    fn drain(self, buf: &mut [u8], bytes: usize) -> Pending
        requires { (length self.bits < 16 * bytes) × (reach self ≤ 8 * length buf.old) × (bytes ≤ 4) }
        ensures few { length result.bits < 8 * bytes }
        ensures together { Together buf.new result (merged buf.old self) (reach self) }
    {
        let Pending { word, count, first } = self;
        let bits = 8 * bytes;
        if count < bits {
            return Pending { word, count, first };
        }
        store(&mut *buf, first, bytes, word >> (64 - bits));
        Pending {
            word: word << bits,
            count: count - bits,
            first: first + bytes,
        }
    }
}

// A word that has `count` bits and no others, with as many of the bits of a field behind them as find room.
fn behind(word: u64, count: usize, width: usize, value: u64) -> u64
    requires { (count < 64) × (word % 2 ^ (64 - count) ≡ 0) × (0 < width) × (width ≤ 64) }
    ensures { result ≡ word + value * 2 ^ (64 - width) % 2 ^ 64 / 2 ^ count }
{
    word + ((value << (64 - width)) >> count)
}

// Writes the low `bytes` bytes of a number from the byte `first` on, the highest of them first.
fn store(buf: &mut [u8], first: usize, bytes: usize, number: u64)
    requires { (bytes ≤ 8) × (first + bytes ≤ length buf.old) }
    ensures { row buf.new ≡ over (row buf.old) (8 * first) (digits (8 * bytes) number) }
{
    for i in 0..bytes {
        let x = low_byte(number >> (8 * (bytes - 1 - i)));
        buf[first + i] = x;
    }
}

// The first `count` bits of a byte, as the first of a word. They are shifted up in two steps, since there may be none.
fn front_bits(byte: u8, count: usize) -> u64
    requires { count < 8 }
    ensures { result ≡ byte / 2 ^ (8 - count) * 2 ^ (64 - count) }
{
    ((u64::from(byte) >> (8 - count)) << (8 - count)) << 56
}

// The byte with its first `count` bits replaced by those of a word, which has no others.
fn with_front(byte: u8, count: usize, word: u64) -> u8
    requires { (count < 8) × (word % 2 ^ (64 - count) ≡ 0) }
    ensures { digits 8 result ≡ over (digits 8 byte) 0 (digits count (word / 2 ^ (64 - count))) }
{
    let rest = (u64::from(byte) << (56 + count)) >> (56 + count);
    ((word >> 56) + rest) as u8
}

// No From or TryFrom of the library takes the low byte of a number.
fn low_byte(x: u64) -> u8
    ensures { result ≡ x % 256 }
{
    (x % 256) as u8
}
