ghost use Rattle.std.specs.Prelude.{◌≡◌, ◌==◌, ◌&&◌, not, IfOk};
ghost use Rattle.std.specs.List.{list_all};
ghost use Rattle.gx_text.specs.Names.{is_name_of};

use gx_num::NoMemory;
use std::alloc::Global;
use std::marker::Model;

/// A name. Contracts see its bytes.
#[derive(Drop)]
pub struct Name {
    bytes: Vec<u8>,
}

impl Model for Name {
    ghost use Rattle.std.specs.Prelude.{List, ℕ};

    ghost Value = { List ℕ };

    ghost view = { λ n. n.bytes.items };
}

impl Name {
    pub fn new(alloc: Global, bytes: &[u8]) -> Result<Name, NoMemory>
        ensures { IfOk result (λ name. name ≡ bytes.now) }
    {
        Ok(Name {
            bytes: Vec::from_slice(alloc, bytes)?,
        })
    }

    pub fn bytes(&self) -> &[u8]
        ensures { result.now ≡ self.now }
    {
        self.bytes.as_slice()
    }

    pub fn into_bytes(self) -> Vec<u8>
        ensures { result.items ≡ self }
    {
        self.bytes
    }
}

/// A name has 1 to 255 bytes, none of them `"` or `$`, and its first byte isn't `:`.
pub fn is_name(word: &[u8]) -> bool
    ensures { result ≡ is_name_of word.now }
{
    !word.is_empty() && word.len() <= 255 && word[0] != b':' && is_plain(word)
}

fn is_plain(word: &[u8]) -> bool
    ensures { result ≡ list_all (λ b. not (b == 34) && not (b == 36)) word.now }
{
    word.iter().all(|byte| *byte != b'"' && *byte != b'$')
}
