ghost use Rattle.std.specs.Prelude.{◌≡◌, ◌<◌, ◌≤◌, ◌==◌, ◌&&◌, ℕ, Some, find};
ghost use Rattle.gx_num.specs.Ray.{RayParameter};
ghost use Rattle.gx_walk.specs.declared.met.Frame.{Frame as At};
ghost use Rattle.std.specs.Option.{option_map};
ghost use Rattle.gx_walk.specs.Small.{meets};

use crate::{Frame, Geometry, Met, Scratch, walk_world};
use gx_clip::Span;
use gx_fraction::Frac;
use gx_io::Failed;
use gx_num::{Ray, V3};
use gx_offers::Offers;
use gx_path::MemRows;
use gx_steps::Steps;
use std::alloc::Global;
use std::marker::Brand;
use std::sync::ledger::{Blank, Ledger};
use std::test::Fail;

// A mother's daughter, and where a ray is inside her.
#[derive(Clone, Copy)]
struct Daughter {
    mother: u32,
    ordinal: u32,
    volume: u32,
    span: Span,
}

// Volumes with three daughters each. Those that aren't listed are met nowhere.
#[derive(Drop)]
struct Small {
    daughters: Vec<Daughter>,
}

impl Geometry for Small {
    ghost count_of = { λ _ _. 3 };

    ghost met_of = { λ g frame k. option_map (λ d. record { ordinal = k; span = d.span; frame = record { volume = d.volume; ray = frame.ray } }) (find (λ d. d.mother == frame.volume && d.ordinal == k) g.daughters.items) };

    ghost daughter_of = { λ g v k. option_map (λ d. d.volume) (find (λ d. d.mother == v && d.ordinal == k) g.daughters.items) };

    ghost knows = { λ _ _ _ _. Unit {0} };

    ghost bounds = { λ _ tests _. (frame : At) (from to : RayParameter) → 3 ≤ tests frame from to };

    ghost least_reads = { λ _ _. 0 };

    ghost knows_met = { λ _ _ _ _ _ _ _ _. tt };

    ghost meets = { λ g mother k met e. meets (find (λ d. d.mother == mother.volume && d.ordinal == k) g.daughters.items) (λ d. d.volume) (λ d. d.span) mother.ray k met e };

    fn offer<Q: Ledger>(&self, _: &Frame, _: Span, offers: &mut Offers, _: &mut Steps<Q>) {
        offers.offer(0);
        offers.offer(1);
        offers.offer(2);
    }

    fn meet<T: Ledger>(&self, mother: &Frame, ordinal: u32, tests: &mut Steps<T>) -> Option<Met> {
        tests.tick();
        self.daughters
            .iter()
            .find(|d| d.mother == mother.volume && d.ordinal == ordinal)
            .map(|d| Met {
                ordinal,
                span: d.span,
                frame: Frame {
                    volume: d.volume,
                    ray: mother.ray,
                },
            })
    }
}

fn span(from: i64, to: i64) -> Result<Span, Fail> {
    let from = Frac::new(i128::from(from), 1);
    let to = Frac::new(i128::from(to), 1);
    if from.num() < 0 {
        return Err("a span begins below 0".into());
    }
    if to.num() < 0 {
        return Err("a span ends below 0".into());
    }
    if from.cmp(&to).is_lt() {
        return Ok(Span { from, to });
    }
    Err("a span is empty".into())
}

// Mother, ordinal, volume, and the ends of a span.
type Listed = (u32, u32, u32, i64, i64);

fn geometry_of(alloc: Global, listed: &[Listed]) -> Result<Small, Fail> {
    let mut daughters = Vec::new(alloc);
    for &(mother, ordinal, volume, from, to) in listed {
        daughters.push(Daughter {
            mother,
            ordinal,
            volume,
            span: span(from, to)?,
        })?;
    }
    Ok(Small { daughters })
}

// The rows of a ray that is in the world from 10 to 50, and the answer.
fn walked<T: Ledger, Q: Ledger>(
    tests: Blank,
    reads: Blank,
    alloc: Global,
    geometry: &Small,
    fails: Vec<u32>,
) -> Result<(Result<(), Failed>, String), Fail>
    requires tests_name { tests.name ≡ T.name }
    requires tests_parts { tests.parts ≡ T.parts }
    requires tests_some { 0 < T.parts }
    requires reads_name { reads.name ≡ Q.name }
    requires reads_parts { reads.parts ≡ Q.parts }
    requires reads_some { 0 < Q.parts }
{
    let mut tests: Steps<T> = Steps::new(tests);
    let mut reads: Steps<Q> = Steps::new(reads);
    let mut scratch = Scratch::new(alloc, 3)?;
    let mut rows = MemRows::new(alloc, 9, fails)?;
    let o = V3 { x: 0, y: 0, z: 0 };
    let world = Frame {
        volume: 0,
        ray: Ray { o, d: o },
    };
    let answer = walk_world(
        geometry,
        &world,
        span(10, 50)?,
        &mut scratch,
        &mut rows,
        &mut tests,
        &mut reads,
    );
    Ok((answer, text(alloc, &rows)?))
}

fn text(alloc: Global, rows: &MemRows) -> Result<String, Fail> {
    let mut text = String::new(alloc);
    for i in 0..rows.count() {
        let row = rows.at(i);
        text.push_str(&format!(in alloc; "{} {} [", row.from.num(), row.to.num())?)?;
        for j in 0..row.path.len() {
            text.push_str(&format!(in alloc; " {}", row.path.at(j))?)?;
        }
        text.push_str(" ]; ")?;
    }
    Ok(text)
}

// By hand.
#[test]
fn rows_come_in_the_order_of_entry_down_to_the_deepest_volume(rt: HostRuntime) -> Result<(), Fail> {
    let alloc = rt.alloc();
    let cases: [(&[Listed], &str); 5] = [
        (&[], "10 50 [ ]; "),
        // two that touch
        (
            &[(0, 0, 1, 20, 30), (0, 1, 2, 30, 40)],
            "10 20 [ ]; 20 30 [ 0 ]; 30 40 [ 1 ]; 40 50 [ ]; ",
        ),
        // the last one is entered first, and the first one last
        (
            &[(0, 0, 1, 40, 50), (0, 1, 1, 25, 30), (0, 2, 1, 10, 20)],
            "10 20 [ 2 ]; 20 25 [ ]; 25 30 [ 1 ]; 30 40 [ ]; 40 50 [ 0 ]; ",
        ),
        // one within another, in one that fills the world
        (
            &[(0, 1, 1, 10, 50), (1, 0, 2, 20, 40), (2, 2, 3, 20, 30)],
            "10 20 [ 1 ]; 20 30 [ 1 0 2 ]; 30 40 [ 1 0 ]; 40 50 [ 1 ]; ",
        ),
        // one volume in two places
        (
            &[(0, 0, 1, 10, 30), (0, 1, 2, 30, 50), (1, 0, 3, 15, 20)],
            "10 15 [ 0 ]; 15 20 [ 0 0 ]; 20 30 [ 0 ]; 30 50 [ 1 ]; ",
        ),
    ];
    for (listed, rows) in cases {
        let geometry = geometry_of(alloc, listed)?;
        let (answer, text) = walked::<Brand, Brand>(
            Blank::new(1),
            Blank::new(1),
            alloc,
            &geometry,
            Vec::new(alloc),
        )?;
        assert_eq!(rt; answer, Ok(()));
        assert_eq!(rt; text.as_str(), rows);
    }
    Ok(())
}

#[test]
fn a_row_that_isnt_taken_ends_the_walk(rt: HostRuntime) -> Result<(), Fail> {
    let alloc = rt.alloc();
    let geometry = geometry_of(alloc, &[(0, 0, 1, 20, 30), (1, 0, 2, 22, 25)])?;
    // the call that fails, and what was taken before
    let cases = [
        (1, ""),
        (3, "10 20 [ ]; 20 22 [ 0 ]; "),
        (5, "10 20 [ ]; 20 22 [ 0 ]; 22 25 [ 0 0 ]; 25 30 [ 0 ]; "),
    ];
    for (fails, rows) in cases {
        let (answer, text) = walked::<Brand, Brand>(
            Blank::new(1),
            Blank::new(1),
            alloc,
            &geometry,
            [fails].to_vec(alloc)?,
        )?;
        assert_eq!(rt; answer, Err(Failed));
        assert_eq!(rt; text.as_str(), rows);
    }
    Ok(())
}

#[test]
fn a_scratch_tells_its_room(rt: HostRuntime) -> Result<(), Fail> {
    for room in [0, 3, 4096] {
        assert_eq!(rt; Scratch::new(rt.alloc(), room)?.room(), room);
    }
    Ok(())
}
