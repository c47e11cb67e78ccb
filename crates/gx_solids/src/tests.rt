use crate::{solid, word_fault};
use gx_hull::Solid;
use gx_num::M;
use gx_shapes::{SolidFault, SolidKind};
use gx_table::FaultName;
use std::alloc::Global;
use std::test::Fail;

fn solid_of(
    alloc: Global,
    kind: SolidKind,
    values: &[i64],
) -> Result<Result<Solid, SolidFault>, Fail> {
    if values.len() > 200 {
        return Err("too many values".into());
    }
    Ok(solid(alloc, kind, values))
}

// By hand: how many vertices and faces the hull has.
#[test]
fn values_make_a_solid(rt: HostRuntime) -> Result<(), Fail> {
    let alloc = rt.alloc();
    let made = [
        (SolidKind::Cuboid, [1i64, 2, 3].as_slice(), 8, 6),
        (SolidKind::Trd, &[4, 8, 4, 8, 40], 8, 6),
        (SolidKind::Trd, &[0, 8, 8, 0, 8], 4, 4),
        (SolidKind::Trd, &[0, 8, 8, 8, 8], 6, 5),
        (SolidKind::Tet, &[0, 0, 0, 4, 0, 0, 0, 4, 0, 0, 0, 4], 4, 4),
        // A square, half as large at the other end; anticlockwise, clockwise, and with a corner amid an edge.
        (
            SolidKind::Extruded,
            &[
                4, -10, -10, 10, -10, 10, 10, -10, 10, 2, -5, 0, 0, 1, 1, 5, 0, 0, 1, 2,
            ],
            8,
            6,
        ),
        (
            SolidKind::Extruded,
            &[
                4, -10, 10, 10, 10, 10, -10, -10, -10, 2, -5, 0, 0, 1, 1, 5, 0, 0, 1, 2,
            ],
            8,
            6,
        ),
        (
            SolidKind::Extruded,
            &[
                5, -10, -10, 0, -10, 10, -10, 10, 10, -10, 10, 2, -5, 0, 0, 1, 1, 5, 0, 0, 1, 2,
            ],
            10,
            6,
        ),
        // A box by six quadrilaterals, and by twelve triangles.
        (
            SolidKind::Tessellated,
            &[
                6, 4, 0, 0, 0, 0, 2, 0, 2, 2, 0, 2, 0, 0, 4, 0, 0, 2, 2, 0, 2, 2, 2, 2, 0, 2, 2, 4,
                0, 0, 0, 2, 0, 0, 2, 0, 2, 0, 0, 2, 4, 0, 2, 0, 0, 2, 2, 2, 2, 2, 2, 2, 0, 4, 0, 0,
                0, 0, 0, 2, 0, 2, 2, 0, 2, 0, 4, 2, 0, 0, 2, 2, 0, 2, 2, 2, 2, 0, 2,
            ],
            8,
            6,
        ),
        (
            SolidKind::Tessellated,
            &[
                12, 3, 0, 0, 0, 0, 2, 0, 2, 2, 0, 3, 0, 0, 0, 2, 2, 0, 2, 0, 0, 3, 0, 0, 2, 2, 0,
                2, 2, 2, 2, 3, 0, 0, 2, 2, 2, 2, 0, 2, 2, 3, 0, 0, 0, 2, 0, 0, 2, 0, 2, 3, 0, 0, 0,
                2, 0, 2, 0, 0, 2, 3, 0, 2, 0, 0, 2, 2, 2, 2, 2, 3, 0, 2, 0, 2, 2, 2, 2, 2, 0, 3, 0,
                0, 0, 0, 0, 2, 0, 2, 2, 3, 0, 0, 0, 0, 2, 2, 0, 2, 0, 3, 2, 0, 0, 2, 2, 0, 2, 2, 2,
                3, 2, 0, 0, 2, 2, 2, 2, 0, 2,
            ],
            8,
            6,
        ),
        // A tetrahedron, and a pyramid on a square.
        (
            SolidKind::Tessellated,
            &[
                4, 3, 0, 0, 0, 0, 4, 0, 4, 0, 0, 3, 0, 0, 0, 4, 0, 0, 0, 0, 4, 3, 0, 0, 0, 0, 0, 4,
                0, 4, 0, 3, 4, 0, 0, 0, 4, 0, 0, 0, 4,
            ],
            4,
            4,
        ),
        (
            SolidKind::Tessellated,
            &[
                5, 4, 0, 0, 0, 0, 4, 0, 4, 4, 0, 4, 0, 0, 3, 0, 4, 0, 0, 0, 0, 2, 2, 4, 3, 4, 4, 0,
                0, 4, 0, 2, 2, 4, 3, 4, 0, 0, 4, 4, 0, 2, 2, 4, 3, 0, 0, 0, 4, 0, 0, 2, 2, 4,
            ],
            5,
            5,
        ),
    ];
    for (kind, values, vertices, faces) in made {
        let made = solid_of(alloc, kind, values)??.copy(alloc)?;
        assert!(rt; made.kind() == kind);
        assert!(rt; made.hull().vertices().len() == vertices);
        assert!(rt; made.hull().faces().len() == faces);
    }
    Ok(())
}

// By hand.
#[test]
fn values_have_a_fault(rt: HostRuntime) -> Result<(), Fail> {
    let alloc = rt.alloc();
    let refused = [
        (
            SolidKind::Cuboid,
            [1i64, 0, 1].as_slice(),
            SolidFault::At(1, FaultName::Half),
        ),
        (
            SolidKind::Cuboid,
            &[1, M + 1, 0],
            SolidFault::At(1, FaultName::TooFar),
        ),
        (
            SolidKind::Cuboid,
            &[1, 2],
            SolidFault::At(2, FaultName::Words),
        ),
        (
            SolidKind::Cuboid,
            &[1, 2, 3, 4],
            SolidFault::At(3, FaultName::Words),
        ),
        (
            SolidKind::Trd,
            &[0, 0, 1, 1, 5],
            SolidFault::At(1, FaultName::Half),
        ),
        (
            SolidKind::Trd,
            &[0, 1, 1, 1, 0],
            SolidFault::At(4, FaultName::Half),
        ),
        (
            SolidKind::Tet,
            &[0, 0, 0, 1, 0, 0, 0, 1, 0, 1, 1, 0],
            SolidFault::Whole(FaultName::Flat),
        ),
    ];
    for (kind, values, fault) in refused {
        let answer = solid_of(alloc, kind, values)?;
        assert!(rt; matches!(&answer, Err(first) if *first == fault));
    }
    assert_eq!(rt;
        word_fault(SolidKind::Trd, &[1, 1, -1]),
        Some((2, FaultName::Half))
    );
    assert_eq!(rt; word_fault(SolidKind::Trd, &[1, 1]), None);
    Ok(())
}

// By hand.
#[test]
fn an_extrusion_has_a_fault(rt: HostRuntime) -> Result<(), Fail> {
    let alloc = rt.alloc();
    let refused = [
        ([2i64].as_slice(), SolidFault::At(0, FaultName::Count)),
        (&[17], SolidFault::At(0, FaultName::Vertices)),
        (
            &[3, 0, 0, 4, 0, 0, 4, 3],
            SolidFault::At(7, FaultName::Sections),
        ),
        (
            &[3, 0, 0, 4, 0, 0, 4, 2, 5, 0, 0, 1, 1, 5],
            SolidFault::At(12, FaultName::Sections),
        ),
        (
            &[3, 0, 0, 4, 0, 0, 4, 2, 5, 0, 0, -1, 1],
            SolidFault::At(11, FaultName::Scale),
        ),
        (
            &[3, 0, 0, 4, 0, 0, 4, 2, -5, M, 0, 1, 1],
            SolidFault::At(11, FaultName::TooFar),
        ),
        (
            &[3, 0, 0, 3, 0, 0, 3, 2, -5, 0, 0, 1, 1, 5, 0, 0, 1, 2],
            SolidFault::At(15, FaultName::Scale),
        ),
        (
            &[
                4, -10, -10, 10, -10, 10, 10, -10, 10, 2, -5, 0, 0, 1, 1, 5, 0, 0, 1, 3,
            ],
            SolidFault::At(17, FaultName::Scale),
        ),
        (
            &[3, 0, 0, 1, 1, 2, 2, 2, -5, 0, 0, 1, 1, 5, 0, 0, 1, 1],
            SolidFault::Whole(FaultName::Flat),
        ),
        // A pentagram.
        (
            &[
                5, 0, 10, 6, -8, -10, 3, 10, 3, -6, -8, 2, -5, 0, 0, 1, 1, 5, 0, 0, 1, 1,
            ],
            SolidFault::Whole(FaultName::NotConvex),
        ),
    ];
    for (values, fault) in refused {
        let answer = solid_of(alloc, SolidKind::Extruded, values)?;
        assert!(rt; matches!(&answer, Err(first) if *first == fault));
    }
    Ok(())
}

// By hand, from the tetrahedron of (0, 0, 0), (4, 0, 0), (0, 4, 0) and (0, 0, 4).
#[test]
fn a_tessellation_has_a_fault(rt: HostRuntime) -> Result<(), Fail> {
    let alloc = rt.alloc();
    let refused = [
        ([0i64].as_slice(), SolidFault::At(0, FaultName::Count)),
        (&[1, 5], SolidFault::At(1, FaultName::Count)),
        (
            &[1, 3, 0, 0, 0, 0, 4, 0, 4, 0, 0],
            SolidFault::Whole(FaultName::Flat),
        ),
        (
            &[1, 4, 0, 0, 0, 0, 4, 0, 4, 0, 0, 0, 0, 4],
            SolidFault::Whole(FaultName::NotPlanar),
        ),
        // The point (1, 1, 1) is within.
        (
            &[
                6, 3, 0, 0, 0, 0, 4, 0, 4, 0, 0, 3, 0, 0, 0, 4, 0, 0, 0, 0, 4, 3, 0, 0, 0, 0, 0, 4,
                0, 4, 0, 3, 4, 0, 0, 0, 4, 0, 1, 1, 1, 3, 0, 4, 0, 0, 0, 4, 1, 1, 1, 3, 0, 0, 4, 4,
                0, 0, 1, 1, 1,
            ],
            SolidFault::Whole(FaultName::NotConvex),
        ),
        (
            &[
                3, 3, 0, 0, 0, 0, 4, 0, 4, 0, 0, 3, 0, 0, 0, 4, 0, 0, 0, 0, 4, 3, 0, 0, 0, 0, 0, 4,
                0, 4, 0,
            ],
            SolidFault::Whole(FaultName::MissingFace),
        ),
        // A facet twice.
        (
            &[
                5, 3, 0, 0, 0, 0, 4, 0, 4, 0, 0, 3, 0, 0, 0, 4, 0, 0, 0, 0, 4, 3, 0, 0, 0, 0, 0, 4,
                0, 4, 0, 3, 4, 0, 0, 0, 4, 0, 0, 0, 4, 3, 4, 0, 0, 0, 4, 0, 0, 0, 4,
            ],
            SolidFault::Whole(FaultName::OpenEdge),
        ),
        // The point (2, 2, 0) is amid an edge.
        (
            &[
                4, 3, 0, 0, 0, 0, 4, 0, 4, 0, 0, 3, 0, 0, 0, 4, 0, 0, 0, 0, 4, 3, 0, 0, 0, 0, 0, 4,
                0, 4, 0, 3, 4, 0, 0, 2, 2, 0, 0, 0, 4,
            ],
            SolidFault::Whole(FaultName::OpenEdge),
        ),
    ];
    for (values, fault) in refused {
        let answer = solid_of(alloc, SolidKind::Tessellated, values)?;
        assert!(rt; matches!(&answer, Err(first) if *first == fault));
    }
    Ok(())
}
