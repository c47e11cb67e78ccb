ghost use Rattle.std.specs.Prelude.{◌≡◌, ◌≤◌, length, drop};
ghost use Rattle.std.specs.List.{prefix_len};
ghost use Rattle.gx_expr.specs.Token.{is_name_byte, run_of, begins_decimal};
ghost use Rattle.std.specs.Char.{is_ascii_digit, is_ascii_alphabetic};
ghost use Rattle.gx_expr.specs.Descent.{test_of, Takes};

use std::marker::Model;

// A kind of bytes that stand together in a text.
#[derive(Clone, Copy)]
pub enum Class {
    Digit,
    Letter,
    NameByte,
}

impl Class {
    fn has(self, byte: u8) -> bool
        ensures { result ≡ test_of self byte }
    {
        match self {
            Class::Digit => byte.is_ascii_digit(),
            Class::Letter => byte.is_ascii_alphabetic(),
            Class::NameByte => byte.is_ascii_alphabetic() || byte.is_ascii_digit() || byte == b'_',
        }
    }
}

// The bytes of a word that are left to read.
#[derive(Drop)]
pub struct Cursor<'a> {
    left: &'a [u8],
}

impl<'a> Model for Cursor<'a> {
    ghost use Rattle.std.specs.Prelude.{ℕ, List};

    ghost Value = { List ℕ };

    ghost view = { λ t. t.left.now };
}

impl<'a> Cursor<'a> {
    ghost use Rattle.std.specs.Prelude.{◌↔◌, [], IsTrue, EachIndex, slice_index};

    // The whole word.
    pub fn new(left: &'a [u8]) -> Cursor<'a>
        ensures { result ≡ left.now }
    {
        Cursor { left }
    }

    // The bytes, for a reading that may be undone.
    pub fn left(&self) -> &'a [u8]
        ensures { result.now ≡ self.now }
    {
        self.left
    }

    pub fn is_empty(&self) -> bool
        ensures { IsTrue result ↔ (self.now ≡ []) }
    {
        self.left.is_empty()
    }

    // Whether the byte is the first one, which is passed then.
    pub fn take(&mut self, byte: u8) -> bool
        ensures { Takes byte self.old self.new result }
    {
        match self.left {
            [first, rest @ ..] if *first == byte => {
                self.left = rest;
                true
            }
            _ => false,
        }
    }

    // Whether a number is next.
    pub fn begins_number(&self) -> bool
        ensures { result ≡ begins_decimal self.now }
    {
        match self.left {
            [b'.', second, ..] => second.is_ascii_digit(),
            [first, ..] => first.is_ascii_digit(),
            [] => false,
        }
    }

    // The longest run of such bytes, which is passed.
    #[tactic(auto, using(crate::proofs::Tokens::run_all))]
    pub fn run(&mut self, class: Class) -> &'a [u8]
        ensures what { result.now ≡ (run_of (test_of class) self.old).what }
        ensures rest { self.new ≡ drop (prefix_len (test_of class) self.old) self.old }
        ensures all { EachIndex result.now (λ k. IsTrue (test_of class (slice_index result.now k))) }
    {
        let (run, rest) = self.left.split_at(run_len(self.left, class));
        self.left = rest;
        run
    }
}

// How many bytes of the kind are in front.
fn run_len(text: &[u8], class: Class) -> usize
    ensures value { result ≡ prefix_len (test_of class) text.now }
    ensures within { result ≤ length text.now }
{
    text.iter().take_while(|byte| class.has(**byte)).count()
}
