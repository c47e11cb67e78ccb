ghost use Rattle.std.specs.Prelude.{◌≡◌, IsTrue, IfOk};
ghost use Rattle.std.specs.List.{list_all};
ghost use Rattle.gx_expr.specs.Token.{is_name_byte};
ghost use Rattle.gx_form.specs.Form.{Reads};
ghost use Rattle.gx_decl.specs.Lines as spec;
ghost use Rattle.gx_decl.specs.Words.{param_name as param_name_in, is_param_name as is_param_name_of};
ghost use Rattle.gx_decl.specs.Range.{IsInRange};

use crate::declaration::Declaration;
use crate::words::Words;
use gx_form::Refusal;
use gx_table::FaultName;
use gx_text::Name;

/// `:P` NAME EXPR.
pub fn param(words: &mut Words<'_>) -> Result<Declaration, Refusal>
    ensures reads { Reads (spec.param words.old) result words.new }
    ensures range { IfOk result IsInRange }
{
    let name = param_name(words)?;
    let value = words.expression()?;
    words.end()?;
    Ok(Declaration::Param { name, value })
}

fn param_name(words: &mut Words<'_>) -> Result<Name, Refusal>
    ensures reads { Reads (param_name_in words.old) result words.new }
    ensures name { IfOk result (λ name. IsTrue (is_param_name_of name)) }
{
    let word = words.word()?;
    if !is_param_name(word) {
        return Err(words.last_fault(FaultName::Name).into());
    }
    words.kept(word)
}

fn is_param_name(word: &[u8]) -> bool
    ensures { result ≡ is_param_name_of word.now }
{
    !word.is_empty() && word.len() <= 255 && are_param_bytes(word)
}

fn are_param_bytes(word: &[u8]) -> bool
    ensures { result ≡ list_all is_name_byte word.now }
{
    word.iter().all(|byte| is_param_byte(*byte))
}

fn is_param_byte(byte: u8) -> bool
    ensures { result ≡ is_name_byte byte }
{
    (byte >= b'A' && byte <= b'Z')
        || (byte >= b'a' && byte <= b'z')
        || (byte >= b'0' && byte <= b'9')
        || byte == b'_'
}
