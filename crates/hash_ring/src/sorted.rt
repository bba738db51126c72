//! Lists that ascend, each member once.
ghost use Rattle.std.specs.Prelude.{◌≡◌, ℕ, ◌+◌, ◌<◌, ◌≤◌, ◌↔◌, ◌++◌, take, drop, length, IsTrue, IfOk, OnOk, OnErr, IsOk, vec_len, vec_capacity};
ghost use Rattle.std.specs.Bool.{MatchBool};
ghost use Rattle.change_core.specs.Ascending.{put, ascending, In, IsAscending, IsExact};
ghost use Rattle.std.specs.declared.cmp.Ordering.TheVariants.{Less};

use std::alloc::AllocError;

/// Puts an item at its place, unless it is there. With room this takes no memory.
pub(crate) fn place<T: Ord + Copy>(items: &mut Vec<T>, item: T) -> Result<bool, AllocError>
    requires exact { IsExact T.cmp }
    requires ascends { IsAscending T.cmp items.old.items }
    ensures placed { OnOk result (items.new.items ≡ put T.cmp item items.old.items) }
    ensures added { IfOk result (λ added. MatchBool added (¬ In item items.old.items) (In item items.old.items)) }
    ensures err { OnErr result (items.new.items ≡ items.old.items) }
    ensures room { vec_len items.old < vec_capacity items.old → IsOk result }
    ensures there { OnErr result (¬ In item items.old.items) }
    ensures capacity { IsOk result → vec_capacity items.old ≤ vec_capacity items.new }
    ensures same_capacity { vec_len items.old < vec_capacity items.old → vec_capacity items.new ≡ vec_capacity items.old }
    ensures len { vec_len items.new ≤ vec_len items.old + 1 }
{
    match items.binary_search(&item) {
        Ok(_) => Ok(false),
        Err(at) => {
            items.insert(at, item)?;
            Ok(true)
        }
    }
}

/// Merges items that ascend into the first `count`, which ascend and have none of them, from the end: the
/// items between two of them move together.
pub(crate) fn merge<T: Ord + Copy>(items: &mut [T], count: usize, fresh: &[T])
    requires exact { IsExact T.cmp }
    requires kept_ascend { IsAscending T.cmp (take count items.old) }
    requires fresh_ascend { IsAscending T.cmp fresh.now }
    requires apart { (x : T) → In x (take count items.old) → In x fresh.now → ⊥ }
    requires room { count + length fresh.now ≡ length items.old }
    ensures { items.new ≡ ascending T.cmp (take count items.old ++ fresh.now) }
{
    let mut kept = count;
    let mut left = fresh.len();
    while left > 0 {
        let item = fresh[left - 1];
        let place = place_among(&items[..kept], &item);
        items.copy_within(place..kept, place + left);
        left -= 1;
        items[place + left] = item;
        kept = place;
    }
}

/// The place of an item that is not there among items that ascend.
fn place_among<T: Ord>(items: &[T], item: &T) -> usize
    requires exact { IsExact T.cmp }
    requires ascends { IsAscending T.cmp items.now }
    requires absent { ¬ In item.now items.now }
    ensures bound { result ≤ length items.now }
    ensures below { (x : T) → In x (take result items.now) → T.cmp x item.now ≡ Less }
    ensures above { (x : T) → In x (drop result items.now) → T.cmp item.now x ≡ Less }
{
    match items.binary_search(item) {
        Ok(place) => place,
        Err(place) => place,
    }
}
