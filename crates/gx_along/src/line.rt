ghost use Rattle.std.specs.Prelude.{◌≡◌, false, ◌<◌, ◌≤◌, ◌^◌, ◌*◌, ◌*ℤ◌, pos, unsigned_abs, int_lt, int_le};
ghost use Rattle.gx_along.specs.Line.{near, far, is_left, is_entered, above_zero, later, earlier, part_of, time};

use gx_num::cmp_products;

/// From one coordinate up to, and without, another.
#[derive(Clone, Copy, Debug)]
pub struct Bounds {
    pub low: i64,
    pub high: i64,
}

/// A ray on one axis.
#[derive(Clone, Copy, Debug)]
pub struct Line {
    pub o: i64,
    pub d: i64,
}

/// A parameter of a ray, not in lowest terms.
#[derive(Clone, Copy, Debug)]
pub struct Time {
    pub num: u128,
    pub den: u128,
}

/// An open interval of parameters.
#[derive(Clone, Copy, Debug)]
pub struct Stretch {
    pub from: Time,
    pub to: Time,
}

fn speed(line: Line) -> u64
    ensures { result ≡ unsigned_abs line.d }
{
    line.d.unsigned_abs()
}

// How far along its direction the ray comes to a run.
fn near(line: Line, run: Bounds) -> i64
    requires o { unsigned_abs line.o ≤ 2 ^ 31 }
    requires low { unsigned_abs run.low ≤ 2 ^ 31 }
    requires high { unsigned_abs run.high ≤ 2 ^ 31 }
    ensures { result ≡ near line.o line.d run.low run.high }
{
    if line.d < 0 {
        line.o - run.high
    } else {
        run.low - line.o
    }
}

// How far along its direction the ray leaves a run.
fn far(line: Line, run: Bounds) -> i64
    requires o { unsigned_abs line.o ≤ 2 ^ 31 }
    requires low { unsigned_abs run.low ≤ 2 ^ 31 }
    requires high { unsigned_abs run.high ≤ 2 ^ 31 }
    ensures { result ≡ far line.o line.d run.low run.high }
{
    if line.d < 0 {
        line.o - run.low
    } else {
        run.high - line.o
    }
}

fn is_at_most(a: i64, den: u128, num: u128, speed: u64) -> bool
    ensures { result ≡ int_le (a *ℤ pos den) (pos (num * speed)) }
{
    if a < 0 {
        return true;
    }
    !cmp_products(a.unsigned_abs() as u128, den, num, speed as u128).is_gt()
}

fn is_less(a: i64, den: u128, num: u128, speed: u64) -> bool
    requires { 0 < den }
    ensures { result ≡ int_lt (a *ℤ pos den) (pos (num * speed)) }
{
    if a < 0 {
        return true;
    }
    cmp_products(a.unsigned_abs() as u128, den, num, speed as u128).is_lt()
}

/// From the time on the ray is no more in a run that is left at `far`.
#[tactic(auto, unfolding(crate::specs::Line::is_left))]
pub fn is_left(line: Line, run: Bounds, at: Time) -> bool
    requires o { unsigned_abs line.o ≤ 2 ^ 31 }
    requires low { unsigned_abs run.low ≤ 2 ^ 31 }
    requires high { unsigned_abs run.high ≤ 2 ^ 31 }
    ensures { result ≡ is_left line.o line.d run.low run.high (time at) }
{
    let far = far(line, run);
    is_at_most(far, at.den, at.num, line.d.unsigned_abs())
}

/// Before the time the ray has come to the run.
#[tactic(auto, unfolding(crate::specs::Line::is_entered))]
pub fn is_entered(line: Line, run: Bounds, at: Time) -> bool
    requires o { unsigned_abs line.o ≤ 2 ^ 31 }
    requires low { unsigned_abs run.low ≤ 2 ^ 31 }
    requires high { unsigned_abs run.high ≤ 2 ^ 31 }
    requires den { 0 < at.den }
    ensures { result ≡ is_entered line.o line.d run.low run.high (time at) }
{
    let near = near(line, run);
    let speed = line.d.unsigned_abs();
    if speed == 0 {
        return near <= 0;
    }
    is_less(near, at.den, at.num, speed)
}

#[tactic(auto, unfolding(crate::specs::Line::later))]
fn later(a: Time, b: Time) -> Time
    ensures { result ≡ later a b }
{
    if cmp_products(a.num, b.den, b.num, a.den).is_lt() {
        b
    } else {
        a
    }
}

#[tactic(auto, unfolding(crate::specs::Line::earlier))]
fn earlier(a: Time, b: Time) -> Time
    ensures { result ≡ earlier a b }
{
    if cmp_products(a.num, b.den, b.num, a.den).is_gt() {
        b
    } else {
        a
    }
}

fn enter(line: Line, run: Bounds) -> u64
    requires o { unsigned_abs line.o ≤ 2 ^ 31 }
    requires low { unsigned_abs run.low ≤ 2 ^ 31 }
    requires high { unsigned_abs run.high ≤ 2 ^ 31 }
    ensures { result ≡ above_zero (near line.o line.d run.low run.high) }
{
    let near = near(line, run);
    if near < 0 { 0 } else { near.unsigned_abs() }
}

fn exit(line: Line, run: Bounds) -> u64
    requires o { unsigned_abs line.o ≤ 2 ^ 31 }
    requires low { unsigned_abs run.low ≤ 2 ^ 31 }
    requires high { unsigned_abs run.high ≤ 2 ^ 31 }
    ensures { result ≡ unsigned_abs (far line.o line.d run.low run.high) }
{
    far(line, run).unsigned_abs()
}

// The part of a stretch between two times.
fn within(stretch: Stretch, enter: u64, exit: u64, speed: u64) -> Stretch
    ensures { result ≡ record { from = later stretch.from (record { num = enter; den = speed }); to = earlier stretch.to (record { num = exit; den = speed }) } }
{
    let speed = u128::from(speed);
    Stretch {
        from: later(
            stretch.from,
            Time {
                num: u128::from(enter),
                den: speed,
            },
        ),
        to: earlier(
            stretch.to,
            Time {
                num: u128::from(exit),
                den: speed,
            },
        ),
    }
}

/// The part of a stretch in which the ray is in a run.
#[tactic(auto, unfolding(crate::specs::Line::part_of))]
pub fn part(line: Line, run: Bounds, stretch: Stretch) -> Stretch
    requires o { unsigned_abs line.o ≤ 2 ^ 31 }
    requires low { unsigned_abs run.low ≤ 2 ^ 31 }
    requires high { unsigned_abs run.high ≤ 2 ^ 31 }
    ensures { result ≡ part_of line.o line.d run.low run.high stretch }
{
    let speed = speed(line);
    if speed == 0 {
        return stretch;
    }
    within(stretch, enter(line, run), exit(line, run), speed)
}
