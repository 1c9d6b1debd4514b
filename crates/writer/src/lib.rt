// Writing texts into a lent buffer: bytes, byte strings and numerals, one behind the other. A byte past the end of the buffer is left
// out and counted all the same, so a writer over an empty buffer tells how long its text is.
#![tactic(auto)]

ghost use Rattle.std.specs.Prelude.{◌≡◌, [], ◌∷◌, ◌++◌, map, ◌+◌, ◌<◌, length, set};
ghost use Rattle.text_theory.specs.Text.{digit as digit_of, decimal, line};
ghost use Rattle.writer.specs.Place.{WrittenAt, overwrite};

// A lent buffer, and the place in it where the next byte is put. Both its length and the place are numbers of 64 bits.
#[derive(Drop)]
pub struct Writer<'a> {
    buffer: &'a mut [u8],
    at: usize,
    ghost fits: { (length buffer.now < 18446744073709551616) × (at < 18446744073709551616) },
}

impl<'a> Writer<'a> {
    ghost use Rattle.writer.specs.Buffer.{Writes};

    // A writer at the front of a buffer.
    pub fn new(buffer: &'a mut [u8]) -> Writer<'a>
        ensures same { result.buffer.ghost_name ≡ buffer.entry.ghost_name }
        ensures held { result.buffer.now ≡ buffer.old }
        ensures front { result.at ≡ 0 }
    {
        Writer { buffer, at: 0 }
    }

    // A writer at a place of a buffer, which may be past its end.
    pub fn at(buffer: &'a mut [u8], at: usize) -> Writer<'a>
        ensures same { result.buffer.ghost_name ≡ buffer.entry.ghost_name }
        ensures held { result.buffer.now ≡ buffer.old }
        ensures placed { result.at ≡ at }
    {
        Writer { buffer, at }
    }

    // The place of the next byte. Behind a text from the front on, the text's length.
    pub fn position(&self) -> usize
        ensures { result ≡ self.now.at }
    {
        self.at
    }

    // Puts a byte.
    pub fn byte(&mut self, byte: u8)
        ensures { Writes self.old self.new (byte ∷ []) }
    {
        self.at = write_byte(self.buffer, self.at, byte);
    }

    // Puts a byte string.
    pub fn bytes(&mut self, bytes: &[u8])
        ensures { Writes self.old self.new bytes.now }
    {
        self.at = write_bytes(self.buffer, self.at, bytes);
    }

    // Puts a numeral. Past the end its digits are counted and no more.
    pub fn numeral(&mut self, n: u64)
        ensures { Writes self.old self.new (decimal n) }
    {
        self.at = write_numeral(self.buffer, self.at, n);
    }

    // Puts a numeral and the byte that ends its field.
    pub fn field(&mut self, n: u64, end: u8)
        ensures { Writes self.old self.new (decimal n ++ (end ∷ [])) }
    {
        self.at = write_field(self.buffer, self.at, n, end);
    }

    // Puts a line of numerals.
    pub fn numbers(&mut self, numbers: &[u32])
        ensures { Writes self.old self.new (line (map decimal numbers.now) []) }
    {
        self.at = write_numbers(self.buffer, self.at, numbers);
    }
}

// The methods hand the place to these functions, and keep what they hand back: it is loaded and stored once a text, and not once a byte.

// Puts a byte at a place, and hands back the next place.
fn write_byte(buffer: &mut [u8], at: usize, byte: u8) -> usize
    ensures { WrittenAt buffer.old buffer.new at (byte ∷ []) result }
{
    if at < buffer.len() {
        buffer[at] = byte;
    }
    at.saturating_add(1)
}

// Puts a byte string at a place, and hands back the place behind it. Byte by byte, since the strings are short.
fn write_bytes(buffer: &mut [u8], at: usize, bytes: &[u8]) -> usize
    ensures { WrittenAt buffer.old buffer.new at bytes.now result }
{
    if at < buffer.len() {
        put_bytes(buffer, at, bytes);
    }
    at.saturating_add(bytes.len())
}

// Puts so much of a byte string as there is room for at a place within a buffer.
fn put_bytes(buffer: &mut [u8], at: usize, bytes: &[u8])
    requires { at < length buffer.old }
    ensures { buffer.new ≡ overwrite buffer.old at bytes.now }
{
    let n = bytes.len().min(buffer.len() - at);
    for i in 0..n {
        buffer[at + i] = bytes[i];
    }
}

// The last digit of a number.
#[tactic(auto, unfolding(text_theory::specs::Text::digit))]
fn digit(n: u64) -> u8
    ensures { result ≡ digit_of n }
{
    b'0' + (n % 10) as u8
}

// How many digits the numeral of a number has. Counted by twos: most are short, and for these that is faster than a logarithm.
fn width(n: u64) -> usize
    ensures { result ≡ length (decimal n) }
{
    let mut rest = n;
    let mut digits = 0;
    while 100 <= rest {
        rest /= 100;
        digits += 2;
    }
    if rest < 10 {
        return digits + 1;
    }
    digits + 2
}

// Puts the last digit of a number so many digits behind a place within a buffer. Past the end it is left out.
fn write_digit(buffer: &mut [u8], at: usize, front: usize, n: u64)
    requires { at < length buffer.old }
    ensures { buffer.new ≡ set buffer.old (at + front) (digit_of n) }
{
    if front < buffer.len() - at {
        buffer[at + front] = digit(n);
    }
}

// Puts a numeral of so many digits at a place within a buffer, from the last digit to the first. The first is put without another division.
fn write_digits(buffer: &mut [u8], at: usize, n: u64, digits: usize)
    requires { (at < length buffer.old) × (digits ≡ length (decimal n)) }
    ensures { buffer.new ≡ overwrite buffer.old at (decimal n) }
{
    let mut rest = n;
    for front in (1..digits).rev() {
        write_digit(buffer, at, front, rest);
        rest /= 10;
    }
    buffer[at] = digit(rest);
}

// Puts a numeral at a place, and hands back the place behind it. Past the end its digits are counted and no more.
fn write_numeral(buffer: &mut [u8], at: usize, n: u64) -> usize
    ensures { WrittenAt buffer.old buffer.new at (decimal n) result }
{
    let digits = width(n);
    if at < buffer.len() {
        write_digits(buffer, at, n, digits);
    }
    at.saturating_add(digits)
}

// Puts a numeral and the byte that ends its field at a place, and hands back the place behind them.
fn write_field(buffer: &mut [u8], at: usize, n: u64, end: u8) -> usize
    ensures { WrittenAt buffer.old buffer.new at (decimal n ++ (end ∷ [])) result }
{
    let next = write_numeral(buffer, at, n);
    write_byte(buffer, next, end)
}

// Puts a line of numerals at a place, and hands back the place behind it.
fn write_numbers(buffer: &mut [u8], at: usize, numbers: &[u32]) -> usize
    ensures { WrittenAt buffer.old buffer.new at (line (map decimal numbers.now) []) result }
{
    let Some((last, front)) = numbers.split_last() else {
        return write_byte(buffer, at, b'\n');
    };
    let mut next = at;
    for n in front {
        next = write_field(buffer, next, u64::from(*n), b',');
    }
    write_field(buffer, next, u64::from(*last), b'\n')
}
