//! Late points: those of servers that were added after the others were merged. They are kept in the order in which they
//! came, so that many servers cost one sort and one merge.
ghost use Rattle.std.specs.Prelude.{◌≡◌, ◌+◌, ◌≤◌, [], ◌++◌, length, OnOk, vec_len, vec_capacity};
ghost use Rattle.change_core.specs.Ascending.{ascending, In, IsAscending};
ghost use Rattle.hash_ring.specs.Points.{point_cmp};

use crate::points::{Point, merge_points};
use crate::starts::SearchIndex;
use std::alloc::AllocError;

/// Merges the late points into the others, so that none is late. With room this takes no memory.
pub(crate) fn merge_late(points: &mut Vec<Point>, starts: &mut SearchIndex, late: &mut Vec<Point>)
    requires ascends { IsAscending point_cmp points.old.items }
    requires apart { (p : Point) → In p points.old.items → In p late.old.items → ⊥ }
    requires room { length points.old.items + length (ascending point_cmp late.old.items) ≤ vec_capacity points.old }
    ensures merged { points.new.items ≡ ascending point_cmp (points.old.items ++ late.old.items) }
    ensures none { late.new.items ≡ [] }
    ensures capacity { vec_capacity points.old ≤ vec_capacity points.new }
    ensures late_capacity { vec_capacity late.old ≤ vec_capacity late.new }
{
    if late.is_empty() {
        return;
    }
    late.sort_unstable();
    late.dedup();
    merge_points(points, starts, late);
    late.clear();
}

/// Fills a list that is empty with all points, merged.
pub(crate) fn merge_all(
    list: &mut Vec<Point>,
    points: &[Point],
    late: &[Point],
) -> Result<(), AllocError>
    requires none { list.old.items ≡ [] }
    requires ascends { IsAscending point_cmp points.now }
    ensures merged { OnOk result (list.new.items ≡ ascending point_cmp (points.now ++ late.now)) }
{
    list.extend_from_slice(points)?;
    if late.is_empty() {
        return Ok(());
    }
    list.extend_from_slice(late)?;
    list.sort_unstable();
    list.dedup();
    Ok(())
}
