ghost use Rattle.std.specs.Prelude.{◌≡◌, unsigned_abs, ◌++◌, All, IfOk, OnOk, IsTrue};
ghost use Rattle.gx_num.specs.declared.vector.TheConstants.{M};
ghost use Rattle.gx_num.specs.Vector.{IsWithin};
ghost use Rattle.gx_shapes.specs.Tessellation.{corners_of, tessellation_vertices};

use crate::facets_fault;
use gx_hull::Hull;
use gx_num::{M, V3};
use gx_shapes::Facet;
use gx_table::FaultName;
use std::alloc::{AllocError, Global};
use std::test::Fail;

// The corners of a box, the middle of the edge from 0 to 1, and a point inside.
const POINTS: [[i8; 3]; 10] = [
    [-2, -2, -2],
    [2, -2, -2],
    [-2, 2, -2],
    [2, 2, -2],
    [-2, -2, 2],
    [2, -2, 2],
    [-2, 2, 2],
    [2, 2, 2],
    [0, -2, -2],
    [0, 0, 0],
];

fn point(digit: u8) -> Option<V3> {
    let [x, y, z] = *POINTS.get(usize::from(digit.checked_sub(b'0')?))?;
    Some(V3 {
        x: i64::from(x),
        y: i64::from(y),
        z: i64::from(z),
    })
}

// The facet with these points.
fn facet(digits: &[u8]) -> Option<Facet> {
    let (a, b, c, d) = match digits {
        [a, b, c] => (a, b, c, None),
        [a, b, c, d] => (a, b, c, Some(point(*d)?)),
        _ => return None,
    };
    Some(Facet {
        a: point(*a)?,
        b: point(*b)?,
        c: point(*c)?,
        d,
    })
}

fn push_corners(points: &mut Vec<V3>, facet: &Facet) -> Result<(), AllocError>
    ensures { OnOk result (points.new.items ≡ points.old.items ++ corners_of facet.now) }
{
    points.push(facet.a)?;
    points.push(facet.b)?;
    points.push(facet.c)?;
    if let Some(d) = facet.d {
        points.push(d)?;
        return Ok(());
    }
    Ok(())
}

fn corners(alloc: Global, facets: &[Facet]) -> Result<Vec<V3>, AllocError>
    ensures { IfOk result (λ points. points.items ≡ tessellation_vertices facets.now) }
{
    let mut points = Vec::new(alloc);
    for facet in facets {
        push_corners(&mut points, facet)?;
    }
    Ok(points)
}

fn are_near(points: &[V3]) -> bool
    ensures { IsTrue result → All (IsWithin (unsigned_abs M)) points.now }
{
    points.iter().all(|&p| is_near(p))
}

fn is_near(p: V3) -> bool
    ensures { IsTrue result → IsWithin (unsigned_abs M) p }
{
    let most = M.unsigned_abs();
    p.x.unsigned_abs() <= most && p.y.unsigned_abs() <= most && p.z.unsigned_abs() <= most
}

fn fault(alloc: Global, words: &str) -> Result<Option<FaultName>, Fail> {
    let mut facets = Vec::new(alloc);
    for word in words.split_whitespace() {
        facets.push(facet(word.as_bytes()).ok_or("a facet")?)?;
    }
    let points = corners(alloc, &facets)?;
    if !are_near(&points) {
        return Err("a point too far".into());
    }
    let hull = Hull::new(alloc, points).ok().ok_or("a hull")?;
    Ok(facets_fault(&facets, &hull))
}

// By hand.
#[test]
fn facets_bound_a_solid_or_have_a_fault(rt: HostRuntime) -> Result<(), Fail> {
    let cases = [
        ("0231 4576 0154 2673 0462 1375", None),
        ("023 031 457 476 015 054 267 273 046 062 137 175", None),
        // A facet twice.
        (
            "0231 4576 0154 2673 0462 1375 1375",
            Some(FaultName::OpenEdge),
        ),
        // A facet missing.
        ("0231 4576 0154 2673 0462", Some(FaultName::MissingFace)),
        // A facet turned inside.
        ("1320 4576 0154 2673 0462 1375", Some(FaultName::NotConvex)),
        // The fourth corner off the plane.
        ("0235 4576 0154 2673 0462 1375", Some(FaultName::NotPlanar)),
        // Collinear corners.
        (
            "0231 4576 0154 2673 0462 1375 081",
            Some(FaultName::NotPlanar),
        ),
        // The corners turn back.
        ("0213 4576 0154 2673 0462 1375", Some(FaultName::NotConvex)),
        // Facets to an inner point.
        (
            "029 239 319 109 4576 0154 2673 0462 1375",
            Some(FaultName::NotConvex),
        ),
        // A corner at the middle of an edge.
        ("0238 4576 0154 2673 0462 1375", Some(FaultName::OpenEdge)),
        // A corner twice.
        (
            "0233 031 4576 0154 2673 0462 1375",
            Some(FaultName::OpenEdge),
        ),
    ];
    for (words, expected) in cases {
        assert_eq!(rt; fault(rt.alloc(), words)?, expected, "at {words}");
    }
    Ok(())
}
