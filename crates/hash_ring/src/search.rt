//! Searching the points for a hash, and walking on from there.
ghost use Rattle.std.specs.Prelude.{◌≡◌, ℕ, ◌+◌, ◌-◌, ◌<◌, ◌≤◌, [], ◌++◌, length, take, drop, not, ltb, slice_get, IfSome, IfNone, IfOk, IsOkUnless, OnOk, OnErr, vec_capacity};
ghost use Rattle.std.specs.List.{position};
ghost use Rattle.change_core.specs.Ascending.{ascending, In, IsAscending};
ghost use Rattle.hash_ring.specs.Points.{point_cmp, AreSmall};
ghost use Rattle.hash_ring.specs.Steps.{IsBelow, IsFrom, IsNext, IsSorted, AreMet, firsts, turn};
ghost use Rattle.hash_ring.specs.declared.points.Point.{Point};

use crate::errors::RingError;
use crate::late::merge_all;
use crate::points::Point;
use crate::sorted::place;
use crate::starts::SearchIndex;
use change_core::Address;
use std::alloc::{AllocError, Global};

/// The number of points that a search looks at one by one before its binary search of all of them.
const REACH: usize = 48;

/// The greatest number of owners that are looked through one by one.
const FEW: usize = 32;

/// The place of the first point at or after a hash.
fn first_at(points: &[Point], starts: &SearchIndex, hash: u64) -> usize
    requires { IsAscending point_cmp points.now }
    ensures bound { result ≤ length points.now }
    ensures low { IsBelow hash (take result points.now) }
    ensures high { IsFrom hash (drop result points.now) }
{
    match near(points, starts.before(hash), hash) {
        Some(place) => place,
        None => points.partition_point(|point| point.hash < hash),
    }
}

/// The place of the first point at or after a hash, if it is one of the next after a place. A walk whose first point is
/// not below the hash knows nothing of the points before it, so it has found none, unless it started at 0.
fn near(points: &[Point], place: usize, hash: u64) -> Option<usize>
    requires { IsAscending point_cmp points.now }
    ensures bound { IfSome result (λ found. found ≤ length points.now) }
    ensures low { IfSome result (λ found. IsBelow hash (take found points.now)) }
    ensures high { IfSome result (λ found. IsFrom hash (drop found points.now)) }
{
    let end = place.saturating_add(REACH).min(points.len());
    let next = points.get(place..end)?;
    let steps = steps_up(next, hash)?;
    if steps == 0 && place > 0 {
        return None;
    }
    Some(place + steps)
}

/// Returns how many points come before the first at or after a hash, if there is one.
fn steps_up(points: &[Point], hash: u64) -> Option<usize>
    ensures { result ≡ position (λ (p : Point). not (ltb p.hash hash)) points.now }
{
    points.iter().position(|point| point.hash >= hash)
}

/// The server of the nearest point above a hash, wrapping around at 2^64: of those that ascend, or a late one.
pub(crate) fn next_server(
    points: &[Point],
    starts: &SearchIndex,
    late: &[Point],
    hash: u64,
) -> Option<Address>
    requires ascends { IsAscending point_cmp points.now }
    requires small { AreSmall points.now }
    ensures next { IfSome result (IsNext hash (points.now ++ late.now)) }
    ensures empty { IfNone result (points.now ++ late.now ≡ []) }
{
    let start = first_at(points, starts, hash);
    let first = first_around(points, start).or(late.first().copied())?;
    let mut nearest = clockwise_from(&first, hash);
    for point in late {
        nearest = nearest.min(clockwise_from(point, hash));
    }
    Some(nearest.server)
}

/// The point at a place, wrapping around at the end of the list.
fn first_around(points: &[Point], start: usize) -> Option<Point>
    requires { start ≤ length points.now }
    ensures { result ≡ slice_get (drop start points.now ++ take start points.now) 0 }
{
    points.get(start).or(points.first()).copied()
}

/// A point by how far it lies above a hash, wrapping around at 2^64.
fn clockwise_from(point: &Point, hash: u64) -> Point
    ensures { result ≡ turn hash point.now }
{
    Point {
        hash: point.hash.wrapping_sub(hash),
        server: point.server,
    }
}

/// The servers of points that ascend and of late ones, from a hash on, as `owners_from` gives them of all in one list.
pub(crate) fn owners_from_both(
    alloc: Global,
    points: &[Point],
    starts: &SearchIndex,
    late: &[Point],
    hash: u64,
    count: usize,
) -> Result<Vec<Address>, RingError>
    requires ascends { IsAscending point_cmp points.now }
    requires some { 0 < count }
    ensures met { IfOk result (λ named. AreMet hash (ascending point_cmp (points.now ++ late.now)) count named.items) }
    ensures refusal { IsOkUnless result RingError.Memory }
{
    if late.is_empty() {
        return owners_from(alloc, points, starts, hash, count);
    }
    let mut all = Vec::new(alloc);
    merge_all(&mut all, points, late)?;
    owners_from(alloc, &all, &SearchIndex::new(alloc), hash, count)
}

/// The servers of points that ascend, from a hash on, wrapping around, each where it comes first, up to a count.
fn owners_from(
    alloc: Global,
    points: &[Point],
    starts: &SearchIndex,
    hash: u64,
    count: usize,
) -> Result<Vec<Address>, RingError>
    requires ascends { IsAscending point_cmp points.now }
    ensures met { IfOk result (λ named. AreMet hash points.now count named.items) }
    ensures out_of_memory { OnErr result (0 < count) }
    ensures refusal { IsOkUnless result RingError.Memory }
{
    let start = first_at(points, starts, hash);
    let mut named = Vec::with_capacity(alloc, count)?;
    name_around(points, start, count, &mut named)?;
    Ok(named)
}

/// Names the points' servers from a place on, wrapping around, each where it comes first, up to a count. Many are
/// looked up in a separate sorted list, so that none of them is compared with all that are named.
fn name_around(
    points: &[Point],
    start: usize,
    count: usize,
    named: &mut Vec<Address>,
) -> Result<(), AllocError>
    requires start { start ≤ length points.now }
    requires empty { named.old.items ≡ [] }
    requires room { count ≤ vec_capacity named.old }
    ensures named { OnOk result (named.new.items ≡ take count (firsts [] (drop start points.now ++ take start points.now))) }
    ensures out_of_memory { OnErr result (0 < count) }
{
    let (before, after) = points.split_at(start);
    if count <= FEW {
        name_servers(after, count, named);
        name_servers(before, count, named);
        return Ok(());
    }
    let mut sorted = Vec::with_capacity(*named.allocator(), count)?;
    distinct_from_sorted(after, count, named, &mut sorted);
    distinct_from_sorted(before, count, named, &mut sorted);
    Ok(())
}

/// Adds the points' servers that are not named yet, up to a count. With room this takes no memory.
fn name_servers(points: &[Point], count: usize, named: &mut Vec<Address>)
    requires few { length named.old.items ≤ count }
    requires room { count ≤ vec_capacity named.old }
    ensures named { named.new.items ≡ take count (named.old.items ++ firsts named.old.items points.now) }
    ensures len { length named.new.items ≤ count }
    ensures capacity { vec_capacity named.new ≡ vec_capacity named.old }
{
    for point in points {
        if named.len() >= count {
            break;
        }
        if !named.contains(&point.server) {
            named.push_reserved(point.server);
        }
    }
}

/// The same for many servers: those named are in `sorted` too, for binary search. With room this takes no memory.
fn distinct_from_sorted(
    points: &[Point],
    count: usize,
    named: &mut Vec<Address>,
    sorted: &mut Vec<Address>,
)
    requires few { length named.old.items ≤ count }
    requires room { count ≤ vec_capacity named.old }
    requires sorted_room { count ≤ vec_capacity sorted.old }
    requires sorted { IsSorted named.old.items sorted.old.items }
    ensures named { named.new.items ≡ take count (named.old.items ++ firsts named.old.items points.now) }
    ensures len { length named.new.items ≤ count }
    ensures capacity { vec_capacity named.new ≡ vec_capacity named.old }
    ensures sorted_capacity { vec_capacity sorted.new ≡ vec_capacity sorted.old }
    ensures sorted { IsSorted named.new.items sorted.new.items }
{
    for point in points {
        if named.len() >= count {
            break;
        }
        let server = point.server;
        let Ok(added) = place(sorted, server) else {
            unreachable!()
        };
        if added {
            named.push_reserved(server);
        }
    }
}
