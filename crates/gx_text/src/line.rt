ghost use Rattle.std.specs.Prelude.{◌≡◌, ◌≢◌, ◌≤◌, ◌-◌, [], ◌++◌, length, slice_index_or, All, Ok, Err, IfOk, IfErr, OnOk};
ghost use Rattle.gx_text.specs.Lines.{IsCause, ended, fault_of, line_of, words_in, is_blank as is_blank_byte};
ghost use Rattle.gx_text.specs.Places.{words_at, unless_empty, IsWithin};

use crate::fault::first_fault;
use crate::lines::{LineError, MAX_LINE};
use crate::words::visible;
use gx_num::NoMemory;
use std::alloc::Global;
use std::marker::Model;

/// Where a word stands in a line's bytes.
#[derive(Clone, Copy)]
pub struct Place {
    start: usize,
    end: usize,
}

/// A line that has a word. Contracts see its number, from 1, and its words in order.
#[derive(Drop)]
pub struct Line {
    number: u32,
    bytes: Vec<u8>,
    places: Vec<Place>,
}

impl Model for Line {
    ghost use Rattle.std.specs.Prelude.{◌≤◌, length, All};
    ghost use Rattle.gx_text.specs.declared.lines.TheConstants.{MAX_LINE};
    ghost use Rattle.gx_text.specs.Places.{words_at, IsWithin};
    ghost use Rattle.gx_text.specs.TextLine.{TextLine};

    ghost Value = { TextLine };

    ghost view = { λ l. record { number = l.number; words = words_at l.bytes.items l.places.items } };

    ghost invariant = { λ l. (length l.places.items ≤ MAX_LINE) × All (IsWithin (length l.bytes.items)) l.places.items };
}

impl Line {
    /// What a line with these bytes gives when it is ended: itself, where it has a word, or its fault.
    pub(crate) fn ended(alloc: Global, number: u32, line: &[u8]) -> Result<Option<Line>, LineError>
        ensures ok { IfOk result (λ read. ended number line.now ≡ Ok read) }
        ensures err { IfErr result (IsCause (fault_of number line.now)) }
    {
        let visible = visible(line);
        match first_fault(number, line, visible) {
            Some(fault) => Err(LineError::Fault(fault)),
            None => Ok(Line::new(alloc, number, visible)?),
        }
    }

    fn new(alloc: Global, number: u32, text: &[u8]) -> Result<Option<Line>, NoMemory>
        requires { length text.now ≤ MAX_LINE }
        ensures { IfOk result (λ line. line ≡ line_of number (words_in text.now)) }
    {
        if text.is_empty() {
            return Ok(None);
        }
        let places = places(alloc, text)?;
        if places.is_empty() {
            return Ok(None);
        }
        let bytes = Vec::from_slice(alloc, text)?;
        Ok(Some(Line {
            number,
            bytes,
            places,
        }))
    }

    pub fn number(&self) -> u32
        ensures { result ≡ self.now.number }
    {
        self.number
    }

    /// How many words it has.
    pub fn count(&self) -> u32
        ensures value { result ≡ length self.now.words }
        ensures few { result ≤ MAX_LINE }
    {
        self.places.len() as u32
    }

    /// Word i, from 1 to the count.
    pub fn word(&self, i: u32) -> &[u8]
        requires first { 1 ≤ i }
        requires last { i ≤ length self.now.words }
        ensures { result.now ≡ slice_index_or self.now.words (i - 1) [] }
    {
        let place = self.places[i as usize - 1];
        &self.bytes[place.start..place.end]
    }
}

fn is_blank(byte: u8) -> bool
    ensures { result ≡ is_blank_byte byte }
{
    byte == b' ' || byte == b'\t'
}

// The places of a text's words, in one allocation.
fn places(alloc: Global, text: &[u8]) -> Result<Vec<Place>, NoMemory>
    requires { length text.now ≤ MAX_LINE }
    ensures words { IfOk result (λ places. words_at text.now places.items ≡ words_in text.now) }
    ensures few { IfOk result (λ places. length places.items ≤ MAX_LINE) }
    ensures within { IfOk result (λ places. All (IsWithin (length text.now)) places.items) }
{
    let mut places = Vec::with_capacity(alloc, text.len() / 2 + 1)?;
    let mut start = 0;
    for i in 0..text.len() {
        if is_blank(text[i]) {
            push_place(&mut places, start, i)?;
            start = i + 1;
        }
    }
    push_place(&mut places, start, text.len())?;
    Ok(places)
}

fn push_place(places: &mut Vec<Place>, start: usize, end: usize) -> Result<(), NoMemory>
    ensures { OnOk result (places.new.items ≡ places.old.items ++ unless_empty start end) }
{
    if start < end {
        places.push(Place { start, end })?;
    }
    Ok(())
}
