ghost use Rattle.std.specs.Prelude.{◌≡◌, position, not};
ghost use Rattle.gx_text.specs.Lines.{fault_of, fault_at, visible_of, is_allowed as is_allowed_byte};

use crate::lines::{LineFault, MAX_LINE};

/// Whether a byte may stand before a comment.
pub fn is_allowed(byte: u8) -> bool
    ensures { result ≡ is_allowed_byte byte }
{
    (byte >= b'!' && byte <= b'~') || byte == b' ' || byte == b'\t'
}

fn first_refused(text: &[u8]) -> Option<usize>
    ensures { result ≡ position (λ b. not (is_allowed_byte b)) text.now }
{
    text.iter().position(|byte| !is_allowed(*byte))
}

/// The first fault of a line, of which this part is visible.
pub fn first_fault(number: u32, line: &[u8], visible: &[u8]) -> Option<LineFault>
    requires { visible.now ≡ visible_of line.now }
    ensures { result ≡ fault_of number line.now }
{
    fault_from(number, line, first_refused(visible))
}

fn fault_from(number: u32, line: &[u8], refused: Option<usize>) -> Option<LineFault>
    ensures { result ≡ fault_at number line.now refused }
{
    match refused {
        Some(place) => {
            if place < MAX_LINE {
                Some(LineFault::NotAscii {
                    line: number,
                    column: place as u32 + 1,
                })
            } else {
                Some(LineFault::LongLine { line: number })
            }
        }
        None => {
            if line.len() > MAX_LINE {
                Some(LineFault::LongLine { line: number })
            } else {
                None
            }
        }
    }
}
