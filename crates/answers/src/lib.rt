// What `names` prints: the text of an answer, and the page that texts go onto.
#![tactic(auto)]

ghost use Rattle.std.specs.Prelude.{◌≡◌, ◌∷◌, ◌++◌, ◌+◌, ◌*◌, ◌≤◌, ◌<◌, length};
ghost use Rattle.arrayvec.specs.ArrayString.{array_string_len};
ghost use Rattle.answers.specs.Numbers.{glyph_of, hex_of};
ghost use Rattle.answers.specs.Answers.{line_end, fields_of, text_of};

mod page;

use arrayvec::ArrayString;
use itoa::Buffer;
pub use page::Page;
use refusals::{Refusal, number};

// What is printed.
#[derive(Clone, Copy)]
pub enum Answer {
    // The stores that a put made.
    Put(Result<usize, Refusal>),
    // The stores that a delete made.
    Delete(Result<usize, Refusal>),
    // What a look-up found, and the nodes that it counted.
    Get {
        value: Result<u64, Refusal>,
        nodes: usize,
    },
    // Key and value.
    Entry(u64, u64),
    // Entries listed.
    End(usize),
    // Whether the plan of the call that was cut was refused, the stores that were made, and then what opening told: keys, headers rewritten.
    Cut {
        planned: Result<(), Refusal>,
        stores: usize,
        keys: usize,
        headers: usize,
    },
    // Line number.
    Wrong(u64),
}

// Bytes of a text, at most: a tag, four fields of a tab and twenty digits, and a newline.
const LONGEST: usize = 86;

// A text while it is made. A `write!` does not promise to succeed where there is room, and each answer has to be printed: so the parts of a text are pushed, each with room for it.
type Text = ArrayString<LONGEST>;

impl Answer {
    // An answer's text.
    #[tactic(auto, unfolding(crate::specs::Answers::text_of))]
    fn text(self) -> Text
        ensures { result.bytes ≡ text_of self }
    {
        match self {
            Answer::Put(stores) => line('P', &[number(&stores), stores.unwrap_or(0) as u64]),
            Answer::Delete(stores) => line('D', &[number(&stores), stores.unwrap_or(0) as u64]),
            Answer::Get { value, nodes } => {
                line('G', &[number(&value), value.unwrap_or(0), nodes as u64])
            }
            Answer::Entry(key, value) => entry(key, value),
            Answer::End(count) => line('E', &[count as u64]),
            Answer::Cut {
                planned,
                stores,
                keys,
                headers,
            } => {
                line(
                    'C',
                    &[number(&planned), stores as u64, keys as u64, headers as u64],
                )
            }
            Answer::Wrong(number) => line('?', &[number]),
        }
    }
}

// The text of a tag and some numbers.
fn line(tag: char, numbers: &[u64]) -> Text
    requires { (tag < 128) × (length numbers.now ≤ 4) }
    ensures { result.bytes ≡ tag ∷ fields_of numbers.now line_end }
{
    let mut text = Text::new();
    text.push(tag);
    push_fields(&mut text, numbers);
    text
}

// An entry's text.
#[tactic(auto, unfolding(crate::specs::Answers::text_of))]
fn entry(key: u64, value: u64) -> Text
    ensures { result.bytes ≡ text_of (Answer.Entry key value) }
{
    let mut text = Text::new();
    text.push_str("L\t");
    push_key(&mut text, key);
    push_fields(&mut text, &[value]);
    text
}

// The character that a digit is printed as.
#[tactic(auto, unfolding(crate::specs::Numbers::glyph_of))]
fn glyph(digit: u64) -> char
    requires { digit < 16 }
    ensures value { result ≡ glyph_of digit }
    ensures ascii { result < 128 }
{
    char::from_digit(digit as u32, 16).unwrap()
}

// A key's sixteen digits, the highest first, go after what is there.
fn push_key(text: &mut Text, key: u64)
    requires { array_string_len text.old + 16 ≤ LONGEST }
    ensures bytes { text.new.bytes ≡ text.old.bytes ++ hex_of key }
    ensures len { array_string_len text.new ≡ array_string_len text.old + 16 }
{
    for place in 0..16u32 {
        text.push(glyph(key >> (60 - 4 * place) & 15));
    }
}

// The decimal fields of some numbers, with which a line ends, go after what is there.
fn push_fields(text: &mut Text, numbers: &[u64])
    requires { array_string_len text.old + 21 * length numbers.now < LONGEST }
    ensures { text.new.bytes ≡ text.old.bytes ++ fields_of numbers.now line_end }
{
    let mut digits = Buffer::new();
    for number in numbers {
        text.push('\t');
        text.push_str(digits.format(*number));
    }
    text.push('\n');
}
