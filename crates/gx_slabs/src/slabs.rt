ghost use Rattle.std.specs.Prelude.{◌≡◌, ◌<◌, ◌≤◌, ◌^◌, ◌<ℤ◌, ◌+ℤ◌, ◌*ℤ◌, pos, unsigned_abs};
ghost use Rattle.gx_num.specs.Vector.{IsWithin};
ghost use Rattle.gx_voxel.specs.Cut.{coordinate};
ghost use Rattle.gx_boxes.specs.Boxes.{reach};
ghost use Rattle.gx_along.specs.Line.{IsStretch};
ghost use Rattle.gx_slabs.specs.Row.{IsRow, AreOfferedAlong};
ghost use Rattle.gx_slabs.specs.Slabs.{AreCopiesOffered};

use crate::row::Row;
use gx_along::{Line, Stretch};
use gx_num::{Ray, V3};
use gx_offers::Offers;

/// The copies, side by side on an axis from the coordinate `low` on, in whose slab the ray has a point of the stretch; by halving
/// to the first of them, and on along the ray.
pub fn offer_copies(
    axis: u8,
    low: i64,
    width: i64,
    count: u32,
    ray: &Ray,
    stretch: Stretch,
    offers: &mut Offers,
)
    requires axis { axis < 3 }
    requires wide { pos 0 <ℤ width }
    requires few { count ≤ 4096 }
    requires from { unsigned_abs low ≤ reach }
    requires to { unsigned_abs (low +ℤ pos count *ℤ width) ≤ reach }
    requires origin { IsWithin (2 ^ 31) ray.now.o }
    requires stretch { IsStretch stretch }
    requires room { count ≤ offers.old.room }
    ensures { AreCopiesOffered axis low width count ray.now stretch offers.old offers.new }
{
    let line = Line {
        o: on_axis(axis, ray.o),
        d: on_axis(axis, ray.d),
    };
    offer_along(
        Row {
            line,
            low,
            width,
            count,
        },
        stretch,
        offers,
    )
}

// From the first copy that isn't left when the stretch begins, on to the last that is entered before it ends.
fn offer_along(row: Row, stretch: Stretch, offers: &mut Offers)
    requires row { IsRow row }
    requires stretch { IsStretch stretch }
    requires room { row.count ≤ offers.old.room }
    ensures { AreOfferedAlong row stretch offers.old offers.new }
{
    let start = row.first_left(stretch.from);
    for j in start..row.count {
        if !row.is_entered(stretch.to, j) {
            return;
        }
        offers.offer(row.copy(j));
    }
}

fn on_axis(axis: u8, v: V3) -> i64
    ensures { result ≡ coordinate axis v }
{
    match axis {
        0 => v.x,
        1 => v.y,
        _ => v.z,
    }
}
