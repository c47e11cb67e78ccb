//! Measures hulls, the planes between them, whether they meet, solids of lists of values, and hierarchies. The words are
//! `hulls COUNT VERTICES`, `pairs COUNT VERTICES`, `decide` or `show` with `COUNT LEAST MOST TIMES` or `CONTACT TIMES`,
//! `solids KIND COUNT VERTICES`, `hostile KIND COUNT` for a list that the last test
//! refuses, or `trees` or `daughters` with `SCENE TIMES`.
#![tactic(auto)]

mod hulls;
mod lists;
mod meets;
mod random;
mod solids;
mod trees;

use gx_shapes::SolidKind;
use gx_table::fault_text;
use meets::Question;
use random::Random;
use std::alloc::Global;
use std::{env, io};

fn main(rt: HostRuntime) -> io::Result<()> {
    let mut words = Vec::new(rt.alloc());
    for word in env::args(&rt)?.skip(1) {
        words.push(word)?;
    }
    if let Some(line) = measured(rt.alloc(), &words) {
        println!(rt; "{line}")?;
    }
    Ok(())
}

// What the words ask for, in a line.
fn measured(alloc: Global, words: &[String]) -> Option<String> {
    let mut random = Random::new();
    let [what, words @ ..] = words else {
        return None;
    };
    match (what.as_str(), words) {
        ("hulls", [count, vertices]) => {
            let (count, vertices) = (count.parse().ok()?, vertices.parse().ok()?);
            let faces = hulls::faces(alloc, &mut random, count, vertices)?;
            format!(in alloc; "{count} hulls of {vertices} vertices, {faces} faces").ok()
        }
        ("pairs", [count, vertices]) => {
            let (count, vertices) = (count.parse().ok()?, vertices.parse().ok()?);
            let planes = hulls::planes(alloc, &mut random, count, vertices)?;
            format!(in alloc;
                "the pairs of {count} hulls of {vertices} vertices, {planes} planes"
            ).ok()
        }
        ("decide", words) => asked(alloc, &mut random, Question::Decide, words),
        ("show", words) => asked(alloc, &mut random, Question::Show, words),
        ("solids", [word, count, vertices]) => {
            let kind = kind_of(word.as_str())?;
            let (count, vertices) = (count.parse().ok()?, vertices.parse().ok()?);
            let faces = solids::faces(alloc, &mut random, kind, count, vertices)?;
            format!(in alloc;
                "{count} solids of kind {word} with {vertices} vertices, {faces} faces"
            ).ok()
        }
        ("hostile", [word, count]) => {
            let kind = kind_of(word.as_str())?;
            let count = count.parse().ok()?;
            let fault = fault_text(solids::fault(alloc, &mut random, kind, count)?);
            format!(in alloc; "{count} hostile lists of kind {word}, {fault}").ok()
        }
        ("trees", [scene, times]) => {
            let volumes = trees::judged(alloc, scene.as_str(), times.parse().ok()?)?;
            format!(in alloc; "{times} times the {volumes} volumes of {scene}").ok()
        }
        ("daughters", [scene, times]) => {
            let found = trees::found(alloc, scene.as_str(), times.parse().ok()?)?;
            format!(in alloc; "{found} daughters of {scene}").ok()
        }
        _ => None,
    }
}

fn asked(
    alloc: Global,
    random: &mut Random,
    question: Question,
    words: &[String],
) -> Option<String> {
    let (hulls, times) = match words {
        [contact, times] => (meets::contact(alloc, contact.as_str())?, times),
        [count, least, most, times] => {
            let (least, most) = (least.parse().ok()?, most.parse().ok()?);
            let count = count.parse().ok()?;
            (meets::lenses(alloc, random, count, least, most)?, times)
        }
        _ => return None,
    };
    let times = times.parse().ok()?;
    let meeting = meets::pairs(alloc, question, &hulls, times)?;
    format!(in alloc;
        "{times} times the pairs of {} hulls, {meeting} meet",
        hulls.len()
    )
    .ok()
}

fn kind_of(word: &str) -> Option<SolidKind> {
    match word {
        "box" => Some(SolidKind::Cuboid),
        "trd" => Some(SolidKind::Trd),
        "tet" => Some(SolidKind::Tet),
        "extruded" => Some(SolidKind::Extruded),
        "tessellated" => Some(SolidKind::Tessellated),
        _ => None,
    }
}
