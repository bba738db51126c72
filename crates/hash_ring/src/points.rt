//! Points of servers, ascending, and the distance of a server from a key.
ghost use Rattle.std.specs.Prelude.{◌≡◌, ℕ, ◌+◌, ◌*◌, ◌/◌, ◌≤◌, ◌<◌, ◌++◌, [], length, not, IsOk, OnOk, vec_len, vec_capacity};
ghost use Rattle.std.specs.List.{filter, position, position_or_len};
ghost use Rattle.change_core.specs.Address.{address_text};
ghost use Rattle.change_core.specs.Ascending.{ascending, In, IsAscending};
ghost use Rattle.change_core.specs.Numeral.{number_text};
ghost use Rattle.hash_ring.specs.Points.{IsReplicas, AreSmall, distance, point_cmp, points_of};
ghost use Rattle.hash_ring.specs.Servers.{is_same};
ghost use Rattle.hash_ring.specs.declared.points.Point.{Point};
ghost use Rattle.arrayvec.specs.ArrayString.{array_string_len};

use crate::hash::PointHash;
use crate::sorted::merge;
use crate::starts::{CountDelta, SearchIndex};
use arrayvec::ArrayString;
use change_core::{Address, AddressText, Weight};
use itoa::Buffer;
use std::alloc::AllocError;

/// The maximum of `replicas`, the number of points for each unit of a server's weight.
pub const MAX_REPLICAS: u32 = 1000;

/// At most 21 bytes of an address and four digits.
const TEXT_BYTES: usize = 25;

/// A place on the ring that belongs to a server.
#[derive(Clone, Copy, Debug, PartialEq, Eq, PartialOrd, Ord)]
pub struct Point {
    pub hash: u64,
    pub server: Address,
}

/// Returns the number of points of a server of a weight.
pub(crate) fn point_count(replicas: u32, weight: Weight) -> u32
    requires { IsReplicas replicas }
    ensures value { result ≡ replicas * weight }
    ensures range { (1 ≤ result) × (result ≤ 8000) }
{
    replicas * u32::from(weight.number())
}

/// The text of an address, with room for a number after it.
fn text_of(address: Address) -> ArrayString<TEXT_BYTES>
    ensures text { result.bytes ≡ address_text address }
    ensures len { array_string_len result ≤ 21 }
{
    let mut text = ArrayString::new();
    text.push_str(AddressText::of(address).as_str());
    text
}

/// The hash of a text followed by a number. The text stays.
fn point_hash<H: PointHash>(hash: H, text: &mut ArrayString<TEXT_BYTES>, index: u32) -> u64
    requires few { index < 8000 }
    requires short { array_string_len text.old ≤ 21 }
    ensures hash { result ≡ H.hash_of hash (text.old.bytes ++ number_text index) }
    ensures same { text.new.bytes ≡ text.old.bytes }
{
    let len = text.len();
    text.push_str(Buffer::new().format(index));
    let point = hash.hash(text.as_str().as_bytes());
    text.truncate(len);
    point
}

/// The distance of a server from a key: how far the nearest of the server's points lies above the key's hash, wrapping around at
/// 2^64. The server has `replicas` points for each unit of its weight; `replicas` must be from 1 to 1,000. The owner of a key is the
/// server at the least distance, and of two at one distance the one with the lesser address.
pub fn distance<H: PointHash>(
    hash: H,
    replicas: u32,
    server: Address,
    weight: Weight,
    key: &[u8],
) -> u64
    requires { IsReplicas replicas }
    ensures { result ≡ distance (H.hash_of hash) (replicas * weight) server key.now }
{
    let from = hash.hash(key);
    let mut text = text_of(server);
    let mut least = u64::MAX;
    for index in 0..point_count(replicas, weight) {
        least = least.min(point_hash(hash, &mut text, index).wrapping_sub(from));
    }
    least
}

/// Adds a server's first points. The text of its address is written once.
pub(crate) fn push_points<H: PointHash>(
    points: &mut Vec<Point>,
    hash: H,
    server: Address,
    count: u32,
)
    requires few { count ≤ 8000 }
    requires room { vec_len points.old + count ≤ vec_capacity points.old }
    ensures pushed { points.new.items ≡ points.old.items ++ points_of (H.hash_of hash) count server }
    ensures small { AreSmall points.old.items → AreSmall points.new.items }
    ensures len { vec_len points.new ≡ vec_len points.old + count }
    ensures capacity { vec_capacity points.old ≤ vec_capacity points.new }
{
    let mut text = text_of(server);
    for index in 0..count {
        let point = Point {
            hash: point_hash(hash, &mut text, index),
            server,
        };
        points.push_reserved(point);
    }
}

/// Reserves room for more points, and before it for the counts of as many as the list then has room for: so counts whose allocation
/// failed are reserved by the next call.
pub(crate) fn reserve_points(
    points: &mut Vec<Point>,
    starts: &mut SearchIndex,
    count: usize,
) -> Result<(), AllocError>
    ensures same { points.new.items ≡ points.old.items }
    ensures room { IsOk result → vec_len points.new + count ≤ vec_capacity points.new }
    ensures enough { vec_len points.old + count ≤ vec_capacity points.old → IsOk result }
    // A failed allocation of the counts is not ignored.
    ensures counted { OnOk result (vec_capacity points.old < vec_len points.old + count
        → (vec_len points.old + count) / 16 ≤ vec_len starts.new.counts) }
    ensures capacity { vec_capacity points.old ≤ vec_capacity points.new }
{
    let held = points.capacity();
    if held - points.len() >= count {
        return Ok(());
    }
    // A list at least doubles where it grows.
    let wanted = points.len().saturating_add(count);
    starts.widen(points, held.saturating_mul(2).max(wanted))?;
    points.reserve(count)
}

/// Merges points into those of other servers. With room this takes no memory.
pub(crate) fn merge_points(points: &mut Vec<Point>, starts: &mut SearchIndex, fresh: &[Point])
    requires ascends { IsAscending point_cmp points.old.items }
    requires fresh_ascends { IsAscending point_cmp fresh.now }
    requires apart { (p : Point) → In p points.old.items → In p fresh.now → ⊥ }
    requires room { vec_len points.old + length fresh.now ≤ vec_capacity points.old }
    ensures merged { points.new.items ≡ ascending point_cmp (points.old.items ++ fresh.now) }
    ensures capacity { vec_capacity points.old ≤ vec_capacity points.new }
{
    let count = points.len();
    let Ok(()) = points.extend_from_slice(fresh) else {
        unreachable!()
    };
    merge(points, count, fresh);
    starts.add(fresh);
}

/// Removes a server's points; the others move together, run by run. This takes no memory.
pub(crate) fn take_points(points: &mut Vec<Point>, starts: &mut SearchIndex, server: Address)
    ensures points { points.new.items ≡ filter (λ (p : Point). not (is_same p.server server)) points.old.items }
    ensures capacity { vec_capacity points.new ≡ vec_capacity points.old }
{
    let mut passed = CountDelta::nothing();
    let mut kept = 0;
    let mut at = 0;
    while at < points.len() {
        let end = at + run_of_others(&points[at..], server);
        points.copy_within(at..end, kept);
        kept += end - at;
        if let Some(point) = points.get(end) {
            passed = starts.take(passed, point.hash);
        }
        at = end + 1;
    }
    points.truncate(kept);
    starts.finish(passed);
}

/// Returns how many points of other servers come first.
fn run_of_others(points: &[Point], server: Address) -> usize
    ensures bound { result ≤ length points.now }
    ensures run { result ≡ position_or_len (λ (p : Point). is_same p.server server) points.now }
{
    match first_of(points, server) {
        Some(place) => place,
        None => points.len(),
    }
}

/// The place of the first of a server's points. The IPv4 numbers tell most servers apart, and are compared fastest.
fn first_of(points: &[Point], server: Address) -> Option<usize>
    ensures { result ≡ position (λ (p : Point). is_same p.server server) points.now }
{
    points.iter().position(|point| is_point_of(point, server))
}

/// Returns whether a point is a server's.
fn is_point_of(point: &Point, server: Address) -> bool
    ensures { result ≡ is_same point.now.server server }
{
    point.server.ip() == server.ip() && point.server == server
}
