// Bytes to lines, and a line to a command.
ghost use Rattle.std.specs.Prelude.{◌≡◌, [], eqb, length};
ghost use Rattle.script.specs.Numbers.{value_of, with_digit, number_from, key_of, number_of};
ghost use Rattle.script.specs.Lines.{key_and_value_of, tagged_of, command_of, kept_of};

use std::marker::Model;

// A line's command.
#[derive(Clone, Copy)]
pub enum Command {
    Put(u64, u64),
    Delete(u64),
    Get(u64),
    Listing,
    Cut(usize),
}

// Bytes of a line, at most.
const LONGEST: usize = 63;

// Bytes of a line that are kept: one more than a right line can have, so that a longer one is seen to be too long.
pub const LINE: usize = 64;

// Stores after which a cut comes, at most.
const CUT: u64 = 21;

// Digits of a key.
const KEY: usize = 16;

// The digit that a byte is, 0 to 9 or a to f.
fn value(byte: u8) -> Option<u64>
    ensures { result ≡ value_of byte }
{
    match byte {
        b'0'..=b'9' => Some(u64::from(byte - b'0')),
        b'a'..=b'f' => Some(u64::from(byte - b'a' + 10)),
        _ => None,
    }
}

// The number with one digit more.
fn with_digit(base: u64, x: u64, byte: u8) -> Option<u64>
    ensures { result ≡ with_digit base x byte }
{
    let digit = value(byte)?;
    if base <= digit {
        return None;
    }
    x.checked_mul(base)?.checked_add(digit)
}

// The number that digits say, the highest first.
fn number_from(base: u64, digits: &[u8]) -> Option<u64>
    ensures { result ≡ number_from base 0 digits.now }
{
    let mut x = 0;
    for byte in digits {
        x = with_digit(base, x, *byte)?;
    }
    Some(x)
}

// A key: sixteen lower-case hex digits.
fn key(field: &[u8]) -> Option<u64>
    ensures { result ≡ key_of field.now }
{
    if field.len() != KEY {
        return None;
    }
    number_from(16, field)
}

// A decimal number with no leading zeros.
fn decimal(field: &[u8]) -> Option<u64>
    ensures { result ≡ number_of field.now }
{
    match field {
        [] | [b'0', _, ..] => None,
        _ => number_from(10, field),
    }
}

// What stands after P and a tab: a key, a tab and a value.
fn key_and_value(rest: &[u8]) -> Option<Command>
    ensures { result ≡ key_and_value_of rest.now }
{
    let (key_field, rest) = rest.split_at_checked(KEY)?;
    let [b'\t', value_field @ ..] = rest else {
        return None;
    };
    Some(Command::Put(key(key_field)?, decimal(value_field)?))
}

// What stands after a tag and a tab.
fn tagged(tag: u8, rest: &[u8]) -> Option<Command>
    ensures { result ≡ tagged_of tag rest.now }
{
    match tag {
        b'P' => key_and_value(rest),
        b'D' => Some(Command::Delete(key(rest)?)),
        b'G' => Some(Command::Get(key(rest)?)),
        b'C' => match decimal(rest)? {
            stores @ 0..=CUT => Some(Command::Cut(stores as usize)),
            _ => None,
        },
        _ => None,
    }
}

// The command of a line, which comes without its newline. A wrong line has none.
#[tactic(auto, unfolding(crate::specs::Lines::command_of))]
pub fn command_of(line: &[u8]) -> Option<Command>
    ensures { result ≡ command_of line.now }
{
    if LONGEST < line.len() {
        return None;
    }
    match line {
        [b'L'] => Some(Command::Listing),
        [tag, b'\t', rest @ ..] => tagged(*tag, rest),
        _ => None,
    }
}

// What is kept of the line that is being gathered.
#[derive(Clone, Copy)]
pub struct Line {
    bytes: [u8; LINE],
    len: usize,
}

// Clauses see the bytes that are kept. The places behind them are 0, so that these bytes say what the line is in memory, and it can be copied.
impl Model for Line {
    ghost use Rattle.std.specs.Prelude.{List, ℕ, length, take};
    ghost use Rattle.script.specs.declared.lines.TheConstants.{LINE};

    ghost Value = { List ℕ };

    ghost use Rattle.script.specs.Kept.{laid, IsLaid, laid_back};

    ghost view = { λ line. take line.len line.bytes };

    ghost invariant = { λ line. IsLaid LINE line.len line.bytes };

    ghost inverse = { λ kept. record { bytes = laid LINE kept; len = length kept } };

    ghost inverse_ok = { laid_back LINE };
}

impl Line {
    // A line with no byte.
    pub fn new() -> Self
        ensures { result ≡ [] }
    {
        Line {
            bytes: [0; LINE],
            len: 0,
        }
    }

    pub fn is_empty(&self) -> bool
        ensures { result ≡ eqb (length self.now) 0 }
    {
        self.len == 0
    }

    // The bytes that are kept.
    pub fn as_slice(&self) -> &[u8]
        ensures { result.now ≡ self.now }
    {
        &self.bytes[..self.len]
    }

    // One byte more; it is dropped where there is no room.
    pub fn push(&mut self, byte: u8)
        ensures { self.new ≡ kept_of self.old byte }
    {
        if self.len < LINE {
            self.bytes[self.len] = byte;
            self.len += 1;
        }
    }

    // The next line begins.
    pub fn clear(&mut self)
        ensures { self.new ≡ [] }
    {
        *self = Line::new();
    }
}
