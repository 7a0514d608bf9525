// Text in a room of fixed size: what is put goes behind what stands there.
ghost use Rattle.std.specs.Prelude.{◌≡◌, [], ◌∷◌, ◌+◌, ◌≤◌, ◌<◌, ◌++◌, length};
ghost use Rattle.list_text.specs.Listing.{text_length};
ghost use Rattle.list_text.specs.Text.{decimal, word};

use crate::list::TEXT_LENGTH;
use arrayvec::ArrayVec;
use itoa::Buffer;
use std::marker::Model;

pub const SPACE: u8 = 32;

pub const LINE_FEED: u8 = 10;

#[derive(Drop)]
pub struct Text {
    bytes: ArrayVec<u8, TEXT_LENGTH>,
}

impl Model for Text {
    ghost use Rattle.std.specs.Prelude.{ℕ, List};

    ghost Value = { List ℕ };

    ghost view = { λ t. t.bytes.items };
}

impl Text {
    pub fn new() -> Text
        ensures { result ≡ [] }
    {
        Text {
            bytes: ArrayVec::new(),
        }
    }

    pub fn as_slice(&self) -> &[u8]
        ensures value { result.now ≡ self.now }
        ensures fits { length result.now ≤ text_length }
    {
        self.bytes.as_slice()
    }

    // Puts bytes.
    pub fn put(&mut self, v: &[u8])
        requires { length self.old + length v.now ≤ text_length }
        ensures { self.new ≡ self.old ++ v.now }
    {
        self.bytes.try_extend_from_slice(v).unwrap();
    }

    // Puts one byte.
    pub fn put_byte(&mut self, b: u8)
        requires { length self.old < text_length }
        ensures { self.new ≡ self.old ++ b ∷ [] }
    {
        self.bytes.push(b);
    }

    // Puts a number in decimal.
    pub fn put_decimal(&mut self, n: usize)
        requires { length self.old + length (decimal n) ≤ text_length }
        ensures { self.new ≡ self.old ++ decimal n }
    {
        self.put(Buffer::new().format(n).as_bytes());
    }

    // Puts a word and the byte behind it.
    pub fn put_word(&mut self, v: &[u8], behind: u8)
        requires { length self.old + length (word v.now behind) ≤ text_length }
        ensures { self.new ≡ self.old ++ word v.now behind }
    {
        self.put(v);
        self.put_byte(behind);
    }

    // Puts a number and the byte behind it.
    // No put_word of its digits: they would have to stand in a buffer first.
    pub fn put_number(&mut self, n: usize, behind: u8)
        requires { length self.old + length (word (decimal n) behind) ≤ text_length }
        ensures { self.new ≡ self.old ++ word (decimal n) behind }
    {
        self.put_decimal(n);
        self.put_byte(behind);
    }
}
