ghost use Rattle.std.specs.Prelude.{◌≡◌, ◌≢◌, ◌∷◌, [], ◌++◌, ◌==◌, length, IfErr, OnOk, None, Some};
ghost use Rattle.gx_text.specs.Lines.{IsCause, fault_of};
ghost use Rattle.gx_text.specs.PartialLine.{has_comment, ends, brings_nothing};

use crate::fault::{first_fault, is_allowed};
use crate::lines::{LineError, MAX_LINE};
use crate::words::visible;
use gx_num::NoMemory;
use std::alloc::Global;
use std::marker::Model;

/// A line that isn't ended yet, and whether its comment has begun.
#[derive(Drop)]
pub struct PartialLine {
    bytes: Vec<u8>,
    comment: bool,
}

impl Model for PartialLine {
    ghost use Rattle.std.specs.Prelude.{◌≡◌, List, ℕ};
    ghost use Rattle.gx_text.specs.PartialLine.{has_comment};

    ghost Value = { List ℕ };

    ghost view = { λ l. l.bytes.items };

    ghost invariant = { λ l. l.comment ≡ has_comment l.bytes.items };
}

impl PartialLine {
    pub fn new(alloc: Global) -> PartialLine
        ensures { result ≡ [] }
    {
        PartialLine {
            bytes: Vec::new(alloc),
            comment: false,
        }
    }

    pub fn bytes(&self) -> &[u8]
        ensures { result.now ≡ self.now }
    {
        &self.bytes
    }

    pub fn is_empty(&self) -> bool
        ensures { result ≡ (length self.now == 0) }
    {
        self.bytes.is_empty()
    }

    pub fn clear(&mut self)
        ensures { self.new ≡ [] }
    {
        self.bytes.clear();
        self.comment = false;
    }

    /// Takes the next byte of a line with this number, or answers the fault that the byte decides.
    #[tactic(auto, using(crate::proofs::FaultLemmas::clear))]
    pub fn push(&mut self, number: u32, byte: u8) -> Result<(), LineError>
        requires { fault_of number self.old ≡ None }
        ensures kept { OnOk result (fault_of number (self.old ++ byte ∷ []) ≡ None) }
        ensures line { OnOk result (self.new ≡ self.old ++ byte ∷ []) }
        ensures err { IfErr result (IsCause (fault_of number (self.old ++ byte ∷ []))) }
    {
        let plain = is_plain(&self.bytes, self.comment, byte);
        let comment = comment_after(&self.bytes, self.comment, byte);
        self.grow(byte, comment)?;
        if plain && self.bytes.len() <= MAX_LINE {
            return Ok(());
        }
        match first_fault(number, &self.bytes, visible(&self.bytes)) {
            Some(fault) => Err(LineError::Fault(fault)),
            None => Ok(()),
        }
    }

    /// Takes the next bytes of a line with this number, or answers the fault that one of them decides.
    pub fn extend(&mut self, number: u32, bytes: &[u8]) -> Result<(), LineError>
        requires { fault_of number self.old ≡ None }
        ensures kept { OnOk result (fault_of number (self.old ++ bytes.now) ≡ None) }
        ensures line { OnOk result (self.new ≡ self.old ++ bytes.now) }
        ensures err { IfErr result (IsCause (fault_of number (self.old ++ bytes.now))) }
    {
        for byte in bytes {
            self.push(number, *byte)?;
        }
        Ok(())
    }

    fn grow(&mut self, byte: u8, comment: bool) -> Result<(), NoMemory>
        requires { comment ≡ has_comment (self.old ++ byte ∷ []) }
        ensures { OnOk result (self.new ≡ self.old ++ byte ∷ []) }
    {
        self.bytes.push(byte)?;
        self.comment = comment;
        Ok(())
    }
}

// Whether the comment of a line has begun once it has one more byte.
#[tactic(auto, using(crate::proofs::FaultLemmas::has_comment_more))]
fn comment_after(line: &[u8], comment: bool, byte: u8) -> bool
    requires { comment ≡ has_comment line.now }
    ensures { result ≡ has_comment (line.now ++ byte ∷ []) }
{
    comment || (ends_with(line, b'/') && byte == b'/')
}

// Whether one more byte may stand where it does, for all that isn't known of the bytes to come.
fn is_plain(line: &[u8], comment: bool, byte: u8) -> bool
    requires { comment ≡ has_comment line.now }
    ensures { result ≡ brings_nothing line.now byte }
{
    comment || (is_allowed(byte) && !ends_with(line, b'\r'))
}

fn ends_with(line: &[u8], byte: u8) -> bool
    ensures { result ≡ ends line.now byte }
{
    match line {
        [.., last] => *last == byte,
        _ => false,
    }
}
