ghost use Rattle.std.specs.Prelude.{◌≡◌, ◌≤◌, ◌^◌, IfSome, unsigned_abs};
ghost use Rattle.gx_expr.specs.Digits.{plain_number as plain_number_of, few_digits as value_of_few};

// The number that a word of 1 to 9 digits is, with or without a `-` before them: most words of a long text are so.
pub fn plain_number(word: &[u8]) -> Option<i128>
    ensures value { result ≡ plain_number_of word.now }
    ensures bound { IfSome result (λ n. unsigned_abs n ≤ 2 ^ 62) }
{
    match word {
        [first, digits @ ..] if *first == b'-' => Some(-i128::from(few_digits(digits)?)),
        _ => Some(i128::from(few_digits(word)?)),
    }
}

// The value of 1 to 9 digits.
fn few_digits(digits: &[u8]) -> Option<u32>
    ensures { result ≡ value_of_few digits.now }
{
    if digits.is_empty() || digits.len() > 9 {
        return None;
    }
    let mut value = 0;
    for digit in digits {
        if !digit.is_ascii_digit() {
            return None;
        }
        value = 10 * value + u32::from(digit - b'0');
    }
    Some(value)
}
