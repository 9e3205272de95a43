// The page that answers go onto.
ghost use Rattle.std.specs.Prelude.{◌≡◌, ◌≤◌, [], length};

use crate::Answer;

// A page that is filled from its start: the bytes that it was lent, and up to where they are filled. Its caller knows what these hold once it is over, since each function that takes a page ensures that it still holds the same ones.
#[derive(Drop)]
pub struct Page<'a> {
    pub bytes: &'a mut [u8],
    pub end: usize,
    pub ghost within: { end ≤ length bytes.now },
}

impl<'a> Page<'a> {
    ghost use Rattle.answers.specs.Answers.{text_of, page, on, room_of, written, emptied, listing_of};

    // A page with nothing on it.
    pub fn new(bytes: &'a mut [u8]) -> Page<'a>
        ensures same { result.bytes.ghost_name ≡ bytes.entry.ghost_name }
        ensures page { on result ≡ page [] bytes.old }
    {
        Page { bytes, end: 0 }
    }

    // The bytes that are on it.
    pub fn filled(&self) -> &[u8]
        ensures { result.now ≡ (on self.now).filled }
    {
        &self.bytes[..self.end]
    }

    // How many more bytes it has room for.
    pub fn room(&self) -> usize
        ensures { result ≡ room_of (on self.now) }
    {
        self.bytes.len() - self.end
    }

    // Takes everything off it.
    pub fn clear(&mut self)
        ensures same { self.new.bytes.ghost_name ≡ self.old.bytes.ghost_name }
        ensures page { on self.new ≡ emptied (on self.old) }
    {
        self.end = 0;
    }

    // A text goes onto it, whole or not at all.
    #[tactic(auto, using(crate::proofs::Pages::written_whole, crate::proofs::Pages::written_not, std::proofs::lemmas::Slice::overwrites))]
    fn append(&mut self, text: &[u8])
        ensures same { self.new.bytes.ghost_name ≡ self.old.bytes.ghost_name }
        ensures page { on self.new ≡ written text.now (on self.old) }
    {
        if text.len() <= self.room() {
            let end = self.end + text.len();
            let bytes = &mut *self.bytes;
            bytes[self.end..end].copy_from_slice(text);
            self.end = end;
        }
    }

    // An answer goes onto it, whole or not at all.
    pub fn write_answer(&mut self, answer: Answer)
        ensures same { self.new.bytes.ghost_name ≡ self.old.bytes.ghost_name }
        ensures page { on self.new ≡ written (text_of answer) (on self.old) }
    {
        self.append(answer.text().as_bytes());
    }

    // The entries of a listing go onto it, and their count.
    pub fn write_listing(&mut self, keys: &[u64], values: &[u64], count: usize)
        ensures same { self.new.bytes.ghost_name ≡ self.old.bytes.ghost_name }
        ensures page { on self.new ≡ listing_of keys.now values.now count (on self.old) }
    {
        for (key, value) in keys.iter().zip(values).take(count) {
            self.write_answer(Answer::Entry(*key, *value));
        }
        self.write_answer(Answer::End(count));
    }
}
