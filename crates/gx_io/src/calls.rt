ghost use Rattle.std.specs.Prelude.{◌≡◌, ◌==◌};
ghost use Rattle.std.specs.List.{list_any};
ghost use Rattle.gx_io.specs.Memory.{fails_next};

// Whether the call after so many is listed as one that fails.
pub fn fails_next(fails: &[u32], calls: u32) -> bool
    ensures { result ≡ fails_next fails.now calls }
{
    if calls < u32::MAX {
        is_listed(fails, calls + 1)
    } else {
        false
    }
}

fn is_listed(numbers: &[u32], number: u32) -> bool
    ensures { result ≡ list_any (λ n. n == number) numbers.now }
{
    numbers.iter().any(|n| *n == number)
}
