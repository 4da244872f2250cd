//! The least stamps that are at least one of each of two lists, where stamps have four coordinates.
//!
//! Of the first three places of two stamps there are two at which one of the stamps is at most the other. The least upper
//! bound of the two has the other one's coordinates there, so it lies in the plane through that one along the other two
//! places. In a plane the outside of a list goes up from a flight of corners, so that a look-up tells whether something
//! is outside.
ghost use Rattle.std.specs.Prelude.{◌≡◌, ℕ, ◌≤◌, ◌++◌, List, slice_index, map, IfOk, OnOk};
ghost use Rattle.std.specs.List.Sorted.{IsPermutation, IsNonDecreasingBy, IsStrictlySortedBy};
ghost use Rattle.fw_time.specs.Stamp.{stamp_cmp};
ghost use Rattle.fw_frontier.specs.Planes.{point_of, corners_of, reaches, both_reach, is_least_along, IsSection, IsAround, lubs_with, all_lubs, plane_lubs, planes_lubs, HaveSame};

use fw_time::Stamp;
use std::alloc::{AllocError, Global};

// The two places along a plane, `x` and `y`, and the two across it, at which all of it has the same coordinates.
struct Plane {
    x: usize,
    y: usize,
    z: usize,
    w: usize,
}

// The planes along the last place and one of the first three.
const PLANES: [Plane; 3] = [
    Plane {
        x: 2,
        y: 3,
        z: 0,
        w: 1,
    },
    Plane {
        x: 1,
        y: 3,
        z: 0,
        w: 2,
    },
    Plane {
        x: 0,
        y: 3,
        z: 1,
        w: 2,
    },
];

// Greater than each coordinate.
const PAST: u64 = 1 << 32;

// A stamp's coordinates at the places of a plane.
#[derive(Clone, Copy)]
struct Point {
    x: u32,
    y: u32,
    z: u32,
    w: u32,
}

// The coordinate at a place, and zero where there is none.
fn coordinate(s: &Stamp, place: usize) -> u32
    ensures { result ≡ slice_index s.now place }
{
    if place < s.len() { s.at(place) } else { 0 }
}

// The point that a stamp is for a plane.
fn point_of(s: &Stamp, plane: &Plane) -> Point
    ensures { result ≡ point_of plane.now s.now }
{
    Point {
        x: coordinate(s, plane.x),
        y: coordinate(s, plane.y),
        z: coordinate(s, plane.z),
        w: coordinate(s, plane.w),
    }
}

// The points that stamps are for a plane, in the order of its first place.
fn points_of(alloc: Global, stamps: &[Stamp], plane: &Plane) -> Result<Vec<Point>, AllocError>
    ensures same { IfOk result
        (λ points. IsPermutation (map (point_of plane.now) stamps.now) points.items) }
    ensures ascending { IfOk result (λ points. IsNonDecreasingBy (λ p. p.x) points.items) }
{
    let mut points = Vec::with_capacity(alloc, stamps.len())?;
    for s in stamps {
        points.push(point_of(s, plane))?;
    }
    points.sort_unstable_by_key(|p| p.x);
    Ok(points)
}

// Where in a plane the outside begins: from there upward at both places.
#[derive(Clone, Copy)]
struct Corner {
    x: u32,
    y: u32,
}

// The corners in a plane, of the points that come before these ends across it: each corner is at least as far along the
// first place as the one before it, and lower at the second.
fn corners_of(
    alloc: Global,
    points: &[Point],
    z_end: u64,
    w_end: u64,
) -> Result<Vec<Corner>, AllocError>
    ensures { IfOk result (λ corners. corners.items ≡ corners_of points.now z_end w_end PAST) }
{
    let mut corners = Vec::new(alloc);
    let mut low = PAST;
    for point in points {
        if u64::from(point.z) < z_end && u64::from(point.w) < w_end && u64::from(point.y) < low {
            corners.push(Corner {
                x: point.x,
                y: point.y,
            })?;
            low = u64::from(point.y);
        }
    }
    Ok(corners)
}

// Whether one of the corners comes before the ends at both places.
fn has_corner_before(corners: &[Corner], x_end: u64, y_end: u64) -> bool
    ensures { (points : List Point) (z_end : ℕ) (w_end : ℕ)
        → IsNonDecreasingBy (λ p. p.x) points → corners.now ≡ corners_of points z_end w_end PAST
        → y_end ≤ PAST → result ≡ reaches points x_end y_end z_end w_end }
{
    let before = corners.partition_point(|c| u64::from(c.x) < x_end);
    before > 0 && u64::from(corners[before - 1].y) < y_end
}

// The points of both lists for a plane, in the order of its first place.
#[derive(Drop)]
struct Sides {
    mine: Vec<Point>,
    others: Vec<Point>,
    ghost mine_ascend: { IsNonDecreasingBy (λ p. p.x) mine.items },
    ghost others_ascend: { IsNonDecreasingBy (λ p. p.x) others.items },
}

// The corners of both lists in a plane.
#[derive(Drop)]
struct Section {
    mine: Vec<Corner>,
    others: Vec<Corner>,
}

impl Section {
    // Of the points that come before these ends across the plane.
    fn new(alloc: Global, sides: &Sides, z_end: u64, w_end: u64) -> Result<Section, AllocError>
        ensures { IfOk result (IsSection sides.now.mine.items sides.now.others.items z_end w_end) }
    {
        Ok(Section {
            mine: corners_of(alloc, &sides.mine, z_end, w_end)?,
            others: corners_of(alloc, &sides.others, z_end, w_end)?,
        })
    }

    // Whether a point of each list comes before the ends.
    fn has_both_before(&self, x_end: u64, y_end: u64) -> bool
        ensures { (sides : Sides) (z_end : ℕ) (w_end : ℕ)
            → IsSection sides.mine.items sides.others.items z_end w_end self.now → y_end ≤ PAST
            → result ≡ both_reach sides.mine.items sides.others.items x_end y_end z_end w_end }
    {
        has_corner_before(&self.mine, x_end, y_end) && has_corner_before(&self.others, x_end, y_end)
    }
}

// The plane with these coordinates across it, and where it has one less at one of the two.
#[derive(Drop)]
struct Around {
    z: u32,
    w: u32,
    level: Section,
    before_z: Section,
    before_w: Section,
}

impl Around {
    fn new(alloc: Global, sides: &Sides, z: u32, w: u32) -> Result<Around, AllocError>
        ensures { IfOk result (IsAround sides.now.mine.items sides.now.others.items z w) }
    {
        let (z_end, w_end) = (u64::from(z), u64::from(w));
        Ok(Around {
            z,
            w,
            level: Section::new(alloc, sides, z_end + 1, w_end + 1)?,
            before_z: Section::new(alloc, sides, z_end, w_end + 1)?,
            before_w: Section::new(alloc, sides, z_end + 1, w_end)?,
        })
    }

    // Whether a bound lies in the plane, and with one less at any place is no bound.
    #[tactic(auto, unfolding(crate::specs::Planes::is_least_along, crate::specs::Planes::is_least))]
    fn has_least(&self, bound: &Point) -> bool
        ensures { (sides : Sides) (z : ℕ) (w : ℕ)
            → IsAround sides.mine.items sides.others.items z w self.now
            → result ≡ is_least_along sides.mine.items sides.others.items z w bound.now }
    {
        let (x, y) = (u64::from(bound.x), u64::from(bound.y));
        bound.z == self.z
            && bound.w == self.w
            && !self.level.has_both_before(x, y + 1)
            && !self.level.has_both_before(x + 1, y)
            && !self.before_z.has_both_before(x + 1, y + 1)
            && !self.before_w.has_both_before(x + 1, y + 1)
    }
}

// Pushes the least upper bound of `s` and each of the stamps, where it lies in the plane through `s` and no lesser stamp
// is at least one of each list. Others are not among the least outside stamps of the union, and to leave them out here
// spares comparing all bounds with each other.
fn push_bounds(
    found: &mut Vec<Stamp>,
    s: &Stamp,
    stamps: &[Stamp],
    plane: &Plane,
    sides: &Sides,
) -> Result<(), AllocError>
    ensures { OnOk result (found.new.items ≡ found.old.items
        ++ lubs_with plane.now sides.now.mine.items sides.now.others.items s.now stamps.now) }
{
    let here = point_of(s, plane);
    let around = Around::new(*found.allocator(), sides, here.z, here.w)?;
    for p in stamps {
        let bound = s.lub(p);
        if around.has_least(&point_of(&bound, plane)) {
            found.push(bound)?;
        }
    }
    Ok(())
}

// Does so for each of the first stamps with the second ones.
fn push_all_bounds(
    found: &mut Vec<Stamp>,
    firsts: &[Stamp],
    seconds: &[Stamp],
    plane: &Plane,
    sides: &Sides,
) -> Result<(), AllocError>
    ensures { OnOk result (found.new.items ≡ found.old.items
        ++ all_lubs plane.now sides.now.mine.items sides.now.others.items firsts.now seconds.now) }
{
    for s in firsts {
        push_bounds(found, s, seconds, plane, sides)?;
    }
    Ok(())
}

// Adds the least bounds that lie in planes through a stamp of either list.
fn push_plane(
    found: &mut Vec<Stamp>,
    mine: &[Stamp],
    others: &[Stamp],
    plane: &Plane,
) -> Result<(), AllocError>
    ensures { OnOk result
        (found.new.items ≡ found.old.items ++ plane_lubs plane.now mine.now others.now) }
{
    let alloc = *found.allocator();
    let sides = Sides {
        mine: points_of(alloc, mine, plane)?,
        others: points_of(alloc, others, plane)?,
    };
    push_all_bounds(found, mine, others, plane, &sides)?;
    push_all_bounds(found, others, mine, plane, &sides)
}

// The least stamps that are at least one of each list, in ascending order, where stamps have four coordinates.
pub fn least_bounds(
    alloc: Global,
    mine: &[Stamp],
    others: &[Stamp],
) -> Result<Vec<Stamp>, AllocError>
    ensures ascending { IfOk result (λ bounds. IsStrictlySortedBy stamp_cmp bounds.items) }
    ensures same { IfOk result
        (λ bounds. HaveSame (planes_lubs PLANES mine.now others.now) bounds.items) }
{
    let mut found = Vec::new(alloc);
    for plane in &PLANES {
        push_plane(&mut found, mine, others, plane)?;
    }
    found.sort_unstable();
    found.dedup();
    Ok(found)
}
