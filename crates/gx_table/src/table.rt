ghost use Rattle.std.specs.Prelude.{◌≡◌, ◌<◌, ◌≤◌, IsTrue, length};
ghost use Rattle.std.specs.Str.{str_eq_ignore_ascii_case};
ghost use Rattle.gx_table.specs.Table.{is_ascii_text, number_in};

use std::marker::Model;

/// A text of 1 to 16 ASCII bytes, and its number. The fields are for `entry!`; contracts see a `TableEntry`.
#[derive(Clone, Copy)]
pub struct Entry {
    pub bytes: [u8; 16],
    pub count: u8,
    pub number: u8,
}

impl Model for Entry {
    ghost use Rattle.std.specs.Prelude.{length, take};
    ghost use Rattle.gx_table.specs.Table.{TableEntry, Holds, padded};

    ghost Value = { TableEntry };

    ghost view = { λ e. record { text = take e.count e.bytes; number = e.number } };

    ghost invariant = { λ e. Holds e.bytes e.count (take e.count e.bytes) };

    ghost inverse = { λ row. record { bytes = padded row.text; count = length row.text; number = row.number } };
}

impl Entry {
    /// The entry with this text and number, where a constant isn't needed.
    #[tactic(auto, using(crate::proofs::TableLemmas::holds_written))]
    pub fn new(text: &str, number: u8) -> Entry
        requires some { 0 < length text.now }
        requires short { length text.now ≤ 16 }
        requires ascii { IsTrue (is_ascii_text text.now) }
        ensures { result ≡ record { text = text.now; number = number } }
    {
        let mut bytes = [0; 16];
        bytes[..text.len()].copy_from_slice(text.as_bytes());
        Entry {
            bytes,
            count: text.len() as u8,
            number,
        }
    }

    pub fn number(&self) -> u8
        ensures { result ≡ self.now.number }
    {
        self.number
    }

    /// Whether the word is the text, in any case of its letters.
    pub fn same(&self, word: &[u8]) -> bool
        ensures { result ≡ str_eq_ignore_ascii_case self.now.text word.now }
    {
        self.bytes[..self.count as usize].eq_ignore_ascii_case(word)
    }
}

/// An entry of a constant table, as `entry!(b"mm", 0)`. A text that no entry can hold is refused where the table is used.
#[macro_export]
macro_rules! entry {
    ($text:literal, $number:expr) => {
        $crate::entry!($text, $number, 0 1 2 3 4 5 6 7 8 9 10 11 12 13 14 15)
    };
    ($text:literal, $number:expr, $($place:literal)*) => {
        $crate::Entry {
            bytes: [$(if $place < $text.len() { $text[$place] } else { 0 }),*],
            count: $text.len() as u8,
            number: $number,
        }
    };
}

/// The number of the first row whose text is the word, in any case of its letters.
pub fn find<const N: usize>(table: &[Entry; N], word: &[u8]) -> Option<u8>
    ensures { result ≡ number_in table.now word.now }
{
    let row = table.iter().find(|row| row.same(word))?;
    Some(row.number())
}
