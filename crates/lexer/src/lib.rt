// The cursor over a lent text, and what is read at it: fields, numerals, the ends of lines and of the text.
#![tactic(auto)]

ghost use Rattle.std.specs.Prelude.{◌≡◌, ◌-◌, ◌≤◌, length, drop, min};
ghost use Rattle.spec.specs.Text.{leading_zero, numeral, digit_limit};
ghost use Rattle.lexer.specs.Views.{end_byte, end_before, text_ended};
ghost use Rattle.lexer.specs.Cursors.{Fits, Placed, start as start_of, rest, past, span_to, span_at};
ghost use Rattle.lexer.specs.Numbers.{DigitsTaken, number_at, stored, NumbersRead};

// "Numerals may now have up to 10 digits"
const DIGIT_LIMIT: usize = 10;

// The reading place: the byte to read next, and the number of the last line read, 0 before the first. Both are as wide as what
// a refusal holds, so that an answer that holds either is copied in whole words.
#[derive(Clone, Copy, PartialEq, Eq)]
pub struct Cursor {
    pub at: u32,
    pub line: u32,
}

// What ends a field: a comma, the line's byte 10, or the end of the text.
#[derive(Clone, Copy, PartialEq, Eq)]
pub enum FieldEnd {
    Comma,
    Newline,
    Text,
}

// A field: its first byte, the byte after its last, what ends it, and the cursor after that.
#[derive(Clone, Copy, PartialEq, Eq)]
pub struct Span {
    pub from: usize,
    pub to: usize,
    pub end: FieldEnd,
    pub next: Cursor,
}

// The digits taken at a cursor: what they come to, and the byte after them.
#[derive(Clone, Copy)]
struct Taken {
    value: u64,
    to: usize,
}

// The number at a cursor, what ends it, and the cursor after that.
#[derive(Clone, Copy, PartialEq, Eq)]
pub struct Number {
    pub value: u64,
    pub end: FieldEnd,
    pub next: Cursor,
}

// Whether a field begins with a 0 that is not all of it.
fn leading_zero(field: &[u8]) -> bool
    ensures { result ≡ leading_zero field.now }
{
    matches!(field, [b'0', _, ..])
}

// The number that a field spells, where it is a numeral.
#[tactic(auto, unfolding(spec::specs::Text::numeral))]
pub fn numeral_of(field: &[u8]) -> Option<u64>
    ensures { result ≡ numeral field.now }
{
    if field.is_empty() || DIGIT_LIMIT < field.len() || leading_zero(field) {
        return None;
    }
    let mut value: u64 = 0;
    for b in field {
        if !b.is_ascii_digit() {
            return None;
        }
        value = value * 10 + u64::from(*b - b'0');
    }
    Some(value)
}

// A number as it is stored, in 32 bits: one that they do not hold is stored as the largest that they hold, which is in no
// range.
pub fn narrow(n: u64) -> u32
    ensures { result ≡ stored n }
{
    u32::try_from(n).unwrap_or(u32::MAX)
}

impl FieldEnd {
    // What a byte ends a field with, if it ends one.
    #[tactic(auto, unfolding(crate::specs::Views::end_byte))]
    pub fn of(byte: u8) -> Option<FieldEnd>
        ensures { result ≡ end_byte byte }
    {
        match byte {
            b',' => Some(FieldEnd::Comma),
            b'\n' => Some(FieldEnd::Newline),
            _ => None,
        }
    }

    // What ends a field before a byte of a text or its end, if anything does.
    fn at(text: &[u8], to: usize) -> Option<FieldEnd>
        requires { to ≤ length text.now }
        ensures { result ≡ end_before (drop to text.now) }
    {
        if to == text.len() {
            return Some(FieldEnd::Text);
        }
        FieldEnd::of(text[to])
    }
}

impl Cursor {
    // In front of the first line of a text.
    pub fn start() -> Cursor
        ensures { result ≡ start_of }
    {
        Cursor { at: 0, line: 0 }
    }

    // Whether nothing is left of the text.
    pub fn at_end(self, text: &[u8]) -> bool
        ensures { result ≡ text_ended (rest text.now self) }
    {
        text.len() <= self.at as usize
    }

    // The cursor after what ends a field.
    #[tactic(auto, unfolding(crate::specs::Cursors::past))]
    fn past(self, end: FieldEnd, to: usize) -> Cursor
        requires { Fits (past end to self.line) }
        ensures { result ≡ past end to self.line }
    {
        let at = to as u32;
        let line = self.line;
        match end {
            FieldEnd::Comma => Cursor { at: at + 1, line },
            FieldEnd::Newline => Cursor {
                at: at + 1,
                line: line + 1,
            },
            FieldEnd::Text => Cursor { at, line },
        }
    }

    // The field from the cursor to a byte, with what ends it there.
    #[tactic(auto, unfolding(crate::specs::Cursors::span_to))]
    fn span(self, end: FieldEnd, to: usize) -> Span
        requires { Fits (past end to self.line) }
        ensures { result ≡ span_to end to self }
    {
        Span {
            from: self.at as usize,
            to,
            end,
            next: self.past(end, to),
        }
    }

    // The field at the cursor.
    pub fn field(self, text: &[u8]) -> Span
        requires { Placed text.now self }
        ensures { result ≡ span_at text.now self }
    {
        for to in self.at as usize..text.len() {
            if let Some(end) = FieldEnd::of(text[to]) {
                return self.span(end, to);
            }
        }
        self.span(FieldEnd::Text, text.len())
    }

    // The digits at the cursor, no more than so many.
    fn digits_within(self, text: &[u8], most: usize) -> Taken
        requires { Placed text.now self × most ≡ min (length text.now - self.at) digit_limit }
        ensures { DigitsTaken text.now self result }
    {
        let from = self.at as usize;
        let stop = from + most;
        let mut value: u64 = 0;
        for to in from..stop {
            let b = text[to];
            if !b.is_ascii_digit() {
                return Taken { value, to };
            }
            value = value * 10 + u64::from(b - b'0');
        }
        Taken { value, to: stop }
    }

    // The digits at the cursor, no more than a numeral can have.
    #[tactic(auto, unfolding(spec::specs::Text::digit_limit))]
    fn take_digits(self, text: &[u8]) -> Taken
        requires { Placed text.now self }
        ensures { DigitsTaken text.now self result }
    {
        let left = text.len() - self.at as usize;
        self.digits_within(text, left.min(DIGIT_LIMIT))
    }

    // The same for long numerals: where enough of the text is left, the loop has a fixed number of turns, and none is counted.
    #[tactic(auto, unfolding(spec::specs::Text::digit_limit))]
    fn take_many_digits(self, text: &[u8]) -> Taken
        requires { Placed text.now self }
        ensures { DigitsTaken text.now self result }
    {
        let left = text.len() - self.at as usize;
        if left < DIGIT_LIMIT {
            return self.digits_within(text, left);
        }
        self.digits_within(text, DIGIT_LIMIT)
    }

    // The numeral whose digits are taken: a byte after them that ends no field makes it malformed.
    fn number_of(self, text: &[u8], taken: Taken) -> Option<Number>
        requires { Placed text.now self × DigitsTaken text.now self taken }
        ensures { result ≡ number_at text.now self }
    {
        let from = self.at as usize;
        let Taken { value, to } = taken;
        if to == from || leading_zero(&text[from..to]) {
            return None;
        }
        let end = FieldEnd::at(text, to)?;
        let next = self.past(end, to);
        Some(Number { value, end, next })
    }

    // The numeral at the cursor, in one pass.
    pub fn number(self, text: &[u8]) -> Option<Number>
        requires { Placed text.now self }
        ensures { result ≡ number_at text.now self }
    {
        self.number_of(text, self.take_digits(text))
    }

    // The same for long numerals.
    fn long_number(self, text: &[u8]) -> Option<Number>
        requires { Placed text.now self }
        ensures { result ≡ number_at text.now self }
    {
        self.number_of(text, self.take_many_digits(text))
    }

    // The numerals that end the line at the cursor, as many as the slice is long, stored in that slice.
    pub fn numbers(self, text: &[u8], into: &mut [u32]) -> Option<Cursor>
        requires { Placed text.now self }
        ensures { NumbersRead text.now self into.old into.new result }
    {
        let count = into.len();
        let mut cursor = self;
        for i in 0..count {
            let Number { value, end, next } = cursor.long_number(text)?;
            into[i] = narrow(value);
            match end {
                FieldEnd::Comma => cursor = next,
                FieldEnd::Newline => return (i + 1 == count).then_some(next),
                FieldEnd::Text => return None,
            }
        }
        None // a numeral too many
    }
}
