use crate::*;
use std::test::Fail;

// The values follow by hand: half a millimetre is a step, 37 cm are 740 steps, and 3 - 93 degrees are three quarters.
#[test]
fn values_steps_and_quarter_turns(rt: HostRuntime) -> Result<(), Fail> {
    let centimetre = Value::new(10, 1, true, false)?;
    let width = Value::new(370, 10, false, false)?.mul(&centimetre)?;
    assert_eq!(rt; width, Value::new(370, 1, true, false)?);
    let half = Value::new(1, 2, true, false)?;
    assert_eq!(rt; Grid::new(&half.neg()), None);
    let grid = Grid::new(&half).ok_or("a grid")?;
    assert_eq!(rt; to_steps(&width, &grid), Ok(740));
    let third = width.div(&Value::new(3, 1, false, false)?)?;
    assert_eq!(rt; to_steps(&third, &grid), Err(StepFault::OffGrid));
    let none = width.sub(&width)?;
    assert_eq!(rt; width.div(&none), Err(ExprFault::DivideByZero));
    assert_eq!(rt; to_whole(&width, 0, 400), Err(WholeFault::UnitKind));
    let degrees = Value::new(3, 1, false, true)?.add(&Value::new(-93, 1, false, false)?)?;
    assert_eq!(rt; to_quarters(&degrees), Ok(Some(3)));
    assert_eq!(rt; to_steps(&degrees, &grid), Err(StepFault::UnitKind));
    Ok(())
}

#[test]
fn a_parameter_keeps_its_first_value(rt: HostRuntime) -> Result<(), Fail> {
    let one = Value::new(1, 1, false, false)?;
    let length = Value::new(1, 1, true, false)?;
    let mut params = Params::new(rt.alloc());
    params.define(b"w", one)?;
    params.define(b"w", Value::new(2, 2, false, false)?)?;
    assert_eq!(rt; params.define(b"w", length), Err(ParamFault::Twice));
    assert_eq!(rt; params.get(b"w"), Some(one));
    assert_eq!(rt; params.get(b"W"), None);
    Ok(())
}

#[test]
fn the_message_of_a_fault_is_its_name(rt: HostRuntime) -> Result<(), Fail> {
    let twice = format!(in rt.alloc(); "{}", ParamFault::Twice)?;
    assert_eq!(rt; twice.as_str(), "Twice");
    let memory = format!(in rt.alloc(); "{}", ParamFault::NoMemory)?;
    assert_eq!(rt; memory.as_str(), "NoMemory");
    Ok(())
}

// The values follow by hand from the grammar; 37000 steps of a tenth of a millimetre are 370 cm.
#[test]
fn words_have_the_values_that_the_grammar_gives(rt: HostRuntime) -> Result<(), Fail> {
    let plain = |num: i128, den: i128| Value::new(num, den, false, false);
    let length = |num: i128, den: i128| Value::new(num, den, true, false);
    let mut params = Params::new(rt.alloc());
    params.define(b"a_1", length(5, 2)?)?;
    let cases: [(&[u8], Result<Value, ExprFault>); 50] = [
        (b"370.*cm", length(3700, 1)),
        (b"1.5e-1*m", length(150, 1)),
        (b"2*(3-5)/4", plain(-1, 1)),
        (b"1/0", Err(ExprFault::DivideByZero)),
        (b"5mm", Err(ExprFault::Syntax)),
        (b"3*rad", Err(ExprFault::UnknownUnit)),
        (b"$q", Err(ExprFault::UnknownParam)),
        (b"1e19", Err(ExprFault::TooWide)),
        (b"1e18", plain(1000000000000000000, 1)),
        (b"1/0+)", Err(ExprFault::Syntax)),
        (b"$q+1/0", Err(ExprFault::UnknownParam)),
        (b"1/0+$q", Err(ExprFault::DivideByZero)),
        (b"0e99999999999", plain(0, 1)),
        (b"0e-99999999999", plain(0, 1)),
        (b"00.000", plain(0, 1)),
        (b"1e-18", plain(1, 1000000000000000000)),
        (b"1e-19", Err(ExprFault::TooWide)),
        (b"10e-19", plain(1, 1000000000000000000)),
        (
            b"1e99999999999999999999999999999999999999999",
            Err(ExprFault::TooWide),
        ),
        (
            b"1e-99999999999999999999999999999999999999999",
            Err(ExprFault::TooWide),
        ),
        (b"461168601842738790*10+4", plain(4611686018427387904, 1)),
        (b"461168601842738790*10+5", Err(ExprFault::TooWide)),
        (b"4611686018427387904", Err(ExprFault::TooWide)),
        (b"999999999999999999", plain(999999999999999999, 1)),
        (b"1000000000000000001", Err(ExprFault::TooWide)),
        (
            b"0010000000000000000000.00e-1",
            plain(1000000000000000000, 1),
        ),
        (b"$a_1", length(5, 2)),
        (b"-$a_1*2", length(-5, 1)),
        (b"$", Err(ExprFault::Syntax)),
        (b"1e", Err(ExprFault::Syntax)),
        (b"1.e2", plain(100, 1)),
        (b"1E+2", plain(100, 1)),
        (b".5", plain(1, 2)),
        (b".", Err(ExprFault::Syntax)),
        (b"--+3", plain(3, 1)),
        (b"-+-+-3", plain(-3, 1)),
        (b"3*MM", length(3, 1)),
        (b"um", length(1, 1000)),
        (b"nm", length(1, 1000000)),
        (b"angstrom", length(1, 10000000)),
        (b"Degree", Value::new(1, 1, false, true)),
        (b"", Err(ExprFault::Syntax)),
        (b"(3", Err(ExprFault::Syntax)),
        (b"3)", Err(ExprFault::Syntax)),
        (b"1-2-3*4/6/2", plain(-2, 1)),
        (b"8/2*2", plain(8, 1)),
        (b"-0", plain(0, 1)),
        (b"-007", plain(-7, 1)),
        (b"999999999", plain(999999999, 1)),
        (b"-1234567890", plain(-1234567890, 1)),
    ];
    for (word, value) in cases {
        assert_eq!(rt; eval(&params, word), value);
    }
    Ok(())
}

#[test]
fn at_most_64_parentheses_are_open(rt: HostRuntime) -> Result<(), Fail> {
    let params = Params::new(rt.alloc());
    let mut word = [b'('; 131];
    word[65] = b'1';
    word[66..].fill(b')');
    assert_eq!(rt;
        eval(&params, &word[1..130]),
        Value::new(1, 1, false, false)
    );
    assert_eq!(rt; eval(&params, &word), Err(ExprFault::Syntax));
    Ok(())
}
