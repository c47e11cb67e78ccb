ghost use Rattle.std.specs.Prelude.{◌≡◌, [], map, string_bytes};
ghost use Rattle.gx_expr.specs.Eval.{value_of_word};
ghost use Rattle.g4exact.specs.Commands.{step_of, grid_of, takes_brief, with_brief, with_grid, with_option, options_from, no_options, verb_of, verb_with, reading_of, number_up_to, greatest_sample, sample_of, command_of};

use gx_check::Selection;
use gx_expr::{Grid, Params, eval};
use itoa::Buffer;
use std::alloc::Global;

const BRIEF: &[u8; 7] = b"--brief";

const OPTION: &[u8; 7] = b"--grid=";

const GREATEST_SAMPLE: u32 = 64;

/// What the words ask for.
#[derive(Clone, Copy, Debug, PartialEq, Eq)]
pub enum Command {
    /// A text is read, with lengths in steps of the grid, and the verb says what is written of it.
    Reading { verb: Verb, grid: Grid },
    /// The sample text of this number is traced, on a grid of 1 mm, and no text is read.
    Sample { number: u32 },
}

/// What is written of a text.
#[derive(Clone, Copy, Debug, PartialEq, Eq)]
pub enum Verb {
    /// Each ray's report, or what is told of it.
    Trace(Telling),
    /// The verdicts on daughters and pairs of daughters, and their counts.
    Check(Selection),
    /// The canonical text of the geometry and the rays.
    List,
}

/// What is told of reports.
#[derive(Clone, Copy, Debug, PartialEq, Eq)]
pub enum Telling {
    /// Their rows.
    Rows,
    /// How many rows they have, for the sample of this number.
    Summary(u32),
}

/// The command that the words after the program's name are, if they are one. Takes no memory.
pub fn command_from(alloc: Global, words: &[String]) -> Option<Command>
    ensures { result ≡ command_of (map string_bytes words.now) }
{
    let [first, words @ ..] = words else {
        return None;
    };
    if first.as_str() == "sample" {
        return sample_from(words);
    }
    reading_from(alloc, first.as_str(), words)
}

// A verb, and then its options.
fn reading_from(alloc: Global, first: &str, words: &[String]) -> Option<Command>
    ensures { result ≡ reading_of first.now (map string_bytes words.now) }
{
    let verb = verb_from(first)?;
    let options = options_of(alloc, verb, words)?;
    Some(Command::Reading {
        verb: with_options(verb, options.brief),
        grid: options.grid.unwrap_or(Grid::tenth()),
    })
}

// One number.
fn sample_from(words: &[String]) -> Option<Command>
    ensures { result ≡ sample_of (map string_bytes words.now) }
{
    let [word] = words else {
        return None;
    };
    let number = number_from(word.as_bytes())?;
    Some(Command::Sample { number })
}

// The number from 1 to 64 that is written like the word.
fn number_from(word: &[u8]) -> Option<u32>
    ensures { result ≡ number_up_to greatest_sample word.now }
{
    let mut number = GREATEST_SAMPLE;
    while number > 0 {
        if Buffer::new().format(number).as_bytes() == word {
            return Some(number);
        }
        number -= 1;
    }
    None
}

fn verb_from(word: &str) -> Option<Verb>
    ensures { result ≡ verb_of word.now }
{
    match word {
        "trace" => Some(Verb::Trace(Telling::Rows)),
        "check" => Some(Verb::Check(Selection::All)),
        "list" => Some(Verb::List),
        _ => None,
    }
}

fn with_options(verb: Verb, brief: bool) -> Verb
    ensures { result ≡ verb_with brief verb }
{
    match verb {
        Verb::Check(_) if brief => Verb::Check(Selection::Refuting),
        verb => verb,
    }
}

// The options of a command, each at most once.
#[derive(Clone, Copy)]
struct Options {
    brief: bool,
    grid: Option<Grid>,
}

fn options_of(alloc: Global, verb: Verb, words: &[String]) -> Option<Options>
    ensures { result ≡ options_from verb no_options (map string_bytes words.now) }
{
    let mut options = Options {
        brief: false,
        grid: None,
    };
    for word in words {
        options = with_option(alloc, verb, options, word.as_bytes())?;
    }
    Some(options)
}

fn with_option(alloc: Global, verb: Verb, options: Options, word: &[u8]) -> Option<Options>
    ensures { result ≡ with_option verb options word.now }
{
    if word == BRIEF.as_slice() {
        with_brief(verb, options)
    } else {
        with_grid(options, grid_from(alloc, word))
    }
}

fn with_brief(verb: Verb, options: Options) -> Option<Options>
    ensures { result ≡ with_brief verb options }
{
    if options.brief {
        return None;
    }
    if takes_brief(verb) {
        Some(Options {
            brief: true,
            grid: options.grid,
        })
    } else {
        None
    }
}

fn takes_brief(verb: Verb) -> bool
    ensures { result ≡ takes_brief verb }
{
    matches!(verb, Verb::Check(_))
}

fn with_grid(options: Options, grid: Option<Grid>) -> Option<Options>
    ensures { result ≡ with_grid options grid }
{
    let grid = grid?;
    if options.grid.is_some() {
        return None;
    }
    Some(Options {
        brief: options.brief,
        grid: Some(grid),
    })
}

// The grid that a word `--grid=EXPR` gives.
fn grid_from(alloc: Global, word: &[u8]) -> Option<Grid>
    ensures { result ≡ grid_of word.now }
{
    if word.len() < OPTION.len() {
        return None;
    }
    let (option, expression) = word.split_at(OPTION.len());
    if option != OPTION.as_slice() {
        return None;
    }
    step(alloc, expression)
}

fn step(alloc: Global, word: &[u8]) -> Option<Grid>
    ensures { result ≡ step_of (value_of_word [] word.now) }
{
    match eval(&Params::new(alloc), word) {
        Ok(value) => Grid::new(&value),
        Err(_) => None,
    }
}
