//! A list for each number.
ghost use Rattle.std.specs.Prelude.{◌≡◌, ℕ, ◌==◌, ◌++◌, ◌∷◌, [], cond, OnOk, OnErr, List as Elements};
ghost use Rattle.std.specs.Ordering.{nat_cmp};
ghost use Rattle.std.specs.BTreeMap.{get};
ghost use Rattle.alias_base.specs.Find.{list_at};

use crate::list::List;
use std::alloc::{AllocError, Global};
use std::collections::BTreeMap;

/// The list of the number, which is empty where nothing was appended.
pub fn list_at<T>(lists: &BTreeMap<u32, List<T>>, number: u32) -> &[T]
    ensures { result.now ≡ list_at (get nat_cmp lists.now number) }
{
    match lists.get(&number) {
        Some(list) => list.as_slice(),
        None => &[],
    }
}

/// Appends an item to the list of the number. After an `Err` no list has changed.
pub fn append_at<T: Drop>(
    alloc: Global,
    lists: &mut BTreeMap<u32, List<T>>,
    number: u32,
    item: T,
) -> Result<(), AllocError>
    ensures ok { OnOk result ((q : ℕ) → list_at (get nat_cmp lists.new q) ≡ cond (number == q) (list_at (get nat_cmp lists.old q) ++ item ∷ []) (list_at (get nat_cmp lists.old q))) }
    ensures err { OnErr result ((q : ℕ) → list_at (get nat_cmp lists.new q) ≡ list_at (get nat_cmp lists.old q)) }
{
    if let Some(list) = lists.get_mut(&number) {
        list.push(item)?;
        return Ok(());
    }
    let mut list = List::new(alloc);
    list.push(item)?;
    lists.insert(number, list)?;
    Ok(())
}

/// Takes the last item off the list of the number, where it has one: what `append_at` appended there last.
pub fn take_back<T: Drop>(lists: &mut BTreeMap<u32, List<T>>, number: u32)
    ensures { (q : ℕ) (xs : Elements T) (x : T) → list_at (get nat_cmp lists.old q) ≡ cond (number == q) (xs ++ x ∷ []) xs → list_at (get nat_cmp lists.new q) ≡ xs }
{
    if let Some(list) = lists.get_mut(&number) {
        let _last = list.pop();
    }
}
