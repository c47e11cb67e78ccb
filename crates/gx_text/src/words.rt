ghost use Rattle.std.specs.Prelude.{◌≡◌};
ghost use Rattle.gx_text.specs.Lines.{before_comment, visible_of};

fn without_comment(line: &[u8]) -> &[u8]
    ensures { result.now ≡ before_comment line.now }
{
    for i in 0..line.len().saturating_sub(1) {
        if line[i] == b'/' && line[i + 1] == b'/' {
            return &line[..i];
        }
    }
    line
}

/// The part of a line that isn't comment, without a CR at the line's end.
pub fn visible(line: &[u8]) -> &[u8]
    ensures { result.now ≡ visible_of line.now }
{
    match line {
        [front @ .., b'\r'] => without_comment(front),
        _ => without_comment(line),
    }
}
