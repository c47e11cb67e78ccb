ghost use Rattle.std.specs.Prelude.{◌≡◌, ◌≢◌, [], drop, Ok, Err, IfOk};
ghost use Rattle.std.specs.Vec.Iter.{into_iter_items};
ghost use Rattle.g4exact.specs.Commands.{AreWords};

use std::alloc::{AllocError, Global};
use std::env::Args;
use std::io;
use std::io::ErrorKind;

/// The words after the program's name, of the arguments that the environment gave. Words that are no text are no
/// command, and so are none.
pub fn words_from(alloc: Global, given: io::Result<Args>) -> Result<Vec<String>, AllocError>
    ensures { IfOk result (λ words. AreWords into_iter_items given words.items) }
{
    match given {
        Ok(words) => after_first(alloc, words),
        Err(error) => {
            if error.kind() == ErrorKind::OutOfMemory {
                return Err(AllocError);
            }
            Ok(Vec::new(alloc))
        }
    }
}

fn after_first(alloc: Global, mut words: Args) -> Result<Vec<String>, AllocError>
    ensures { IfOk result (λ rest. rest.items ≡ drop 1 (into_iter_items words)) }
{
    let _name = words.next();
    let mut rest = Vec::new(alloc);
    for word in words {
        rest.push(word)?;
    }
    Ok(rest)
}
