// The ring: the point that owns a place.
ghost use Rattle.std.specs.Prelude.{◌≡◌, ◌↔◌, [], IsNone, IfSome, IsSomeAnd, nat_le, if◌then◌else◌, option_and_then, position};
ghost use Rattle.std.specs.List.{slice_get};
ghost use Rattle.place_table.specs.Ring.{is_before, is_point, lesser, owner_point, IsOwner};

use crate::point::Point;
use std::cmp::Ordering;

// Tests whether a point is before another: by place, then in byte order of node.
fn is_before(p: &Point, q: &Point) -> bool
    ensures { result ≡ is_before p.now q.now }
{
    match p.place.cmp(&q.place) {
        Ordering::Less => true,
        Ordering::Equal => p.node.as_slice().cmp(&q.node.as_slice()) == Ordering::Less,
        Ordering::Greater => false,
    }
}

// The lesser of a point and the least of those after it in a list.
fn lesser(p: &Point, best: Option<Point>) -> Option<Point>
    ensures { result ≡ lesser p.now best }
{
    match best {
        None => Some(*p),
        Some(q) => { if is_before(&q, p) { Some(q) } else { Some(*p) } }
    }
}

// The same, but the point counts only if it is at or after the place.
fn lesser_from(p: &Point, place: u64, best: Option<Point>) -> Option<Point>
    ensures { result ≡ (if nat_le place p.now.place then lesser p.now best else best) }
{
    if place <= p.place {
        lesser(p, best)
    } else {
        best
    }
}

// The point that owns the place.
fn owner_point(points: &[Point], place: u64) -> Option<Point>
    ensures { result ≡ owner_point points.now place }
{
    let mut from = None;
    let mut all = None;
    let mut i = points.len();
    while i > 0 {
        i -= 1;
        from = lesser_from(&points[i], place, from);
        all = lesser(&points[i], all);
    }
    from.or(all)
}

// Tests whether two points are equal.
fn is_point(p: &Point, q: &Point) -> bool
    ensures { result ≡ is_point p.now q.now }
{
    p.place == q.place && p.node.as_slice() == q.node.as_slice()
}

// The first index of the point in the list.
fn point_at(points: &[Point], point: &Point) -> Option<usize>
    ensures { result ≡ position (is_point point.now) points.now }
{
    points.iter().position(|p| is_point(point, p))
}

/// The first index in the list of the point that owns the place `key`: of the least by place, then in byte order of
/// node, among the points at or after `key`, or else of the least of all. None if there is no point. The list may
/// be in any order, and may have a point more than once.
pub fn ring_pick(points: &[Point], key: u64) -> Option<usize>
    ensures pick { result ≡ option_and_then (λ p. position (is_point p) points.now) (owner_point points.now key) }
    ensures owner { IfSome result (λ i. IsSomeAnd (slice_get points.now i) (IsOwner points.now key)) }
    ensures empty { IsNone result ↔ (points.now ≡ []) }
{
    match owner_point(points, key) {
        None => None,
        Some(point) => point_at(points, &point),
    }
}
