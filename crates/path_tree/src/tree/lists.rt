ghost use Rattle.std.specs.Prelude.{◌≡◌, ◌+◌, ◌-◌, ◌≤◌, ◌<◌, ◌^◌, ℕ, true, not, IfOk, OnOk, OnErr, Ok, Err, MatchResult, max, min, option_copied, length};
ghost use Rattle.std.specs.List.{insert, list_any};
ghost use Rattle.base.specs.Answers.{Gives};
ghost use Rattle.path_tree.specs.Find.{item_at, item_count};
ghost use Rattle.path_tree.specs.Kept.{FitsMade, IsAdmitted, IsInside, IsLessened, IsRemeasured};
ghost use Rattle.path_tree.specs.Lists.{is_null, list_of, pushed, pushed_front};
ghost use Rattle.path_tree.specs.Plain.{AreItems, list, no_items, tree_height, tree_size};
ghost use Rattle.path_tree.specs.Put.{put_item};
ghost use Rattle.path_tree.specs.Refusals.{refusal};
ghost use Rattle.path_tree.specs.View.{IsList, items_of, list_seen};

use super::{Items, Measure, Node, Tree};
use crate::refused::Refused;
use base::limits::{MAX_TREE_HEIGHT, MAX_TREE_SIZE};
use std::alloc::{AllocError, Global};
use std::cmp::max;
use std::rc::Rc;

#[tactic(auto, using(crate::proofs::Entries::entry_lemmas))]
pub(super) fn count(items: &[Tree]) -> usize
    ensures { result ≡ item_count (items_of items.now) }
{
    items.len()
}

#[tactic(auto, using(crate::proofs::Entries::entry_lemmas))]
pub(super) fn item_at(items: &[Tree], index: usize) -> Option<&Tree>
    ensures { option_copied result ≡ item_at index (items_of items.now) }
{
    if index < items.len() {
        Some(&items[index])
    } else {
        None
    }
}

// The list once more, with the same items and room for one more.
pub(super) fn copy(alloc: Global, list: &Items) -> Result<Items, AllocError>
    ensures { IfOk result (λ d. (d.items.items ≡ list.now.items.items) × (d.size ≡ list.now.size)
        × (d.height ≡ list.now.height)) }
{
    let mut items = Vec::with_capacity(alloc, list.items.len().saturating_add(1))?;
    for item in &list.items {
        items.push(item.copy()?)?;
    }
    Ok(Items {
        items,
        size: list.size,
        height: list.height,
    })
}

// Fills up with undef to the index, and adds the value there.
pub(super) fn extend(items: &mut Vec<Tree>, index: usize, value: Tree) -> Result<(), AllocError>
    requires past { length items.old.items ≤ index }
    requires small { index < 2 ^ 32 }
    ensures ok { OnOk result
        (items_of items.new.items ≡ put_item index value (items_of items.old.items)) }
    ensures before { OnErr result (items.new.items ≡ items.old.items) }
{
    let room = index - items.len() + 1;
    items.reserve(room)?;
    let missing = index - items.len();
    for _ in 0..missing {
        items.push(Tree::undef()).unwrap();
    }
    items.push(value).unwrap();
    Ok(())
}

// A list with one item at this index, filled with undef.
#[tactic(auto, using(crate::proofs::Whole::whole_lemmas))]
pub(super) fn one_item(alloc: Global, index: usize, value: Tree) -> Result<Tree, AllocError>
    requires index { index < 2 ^ 32 }
    requires fits { FitsMade (list (put_item index value no_items)) }
    requires inside { IsInside value }
    ensures ok { IfOk result (λ t. t ≡ list (put_item index value no_items)) }
    ensures inside { IfOk result IsInside }
{
    let size = 1 + index as u64 + value.size();
    let height = 1 + value.height();
    let mut items = Vec::new(alloc);
    extend(&mut items, index, value)?;
    let list = Items {
        items,
        size,
        height,
    };
    Ok(Tree {
        node: Node::List(Rc::new(alloc, list)?),
    })
}

// Whether none of the items is null.
pub(super) fn are_values(items: &[Tree]) -> bool
    ensures value { result ≡ not (list_any is_null items.now) }
    ensures whole { result ≡ true → AreItems (items_of items.now) }
{
    for item in items {
        if item.is_null() {
            return false;
        }
    }
    true
}

// The list of these, where none is null and the limits are kept.
#[tactic(auto, using(crate::proofs::Listing::listed))]
pub(super) fn list_of(alloc: Global, items: Vec<Tree>) -> Result<Tree, Refused>
    ensures { Gives (λ t. t) refusal result (list_of items.items) }
{
    if !are_values(&items) {
        return Err(Refused::BadArgument);
    }
    let size = size_of(&items);
    let height = height_of(&items);
    if size > MAX_TREE_SIZE || height > MAX_TREE_HEIGHT {
        return Err(Refused::TooLarge);
    }
    let list = Items {
        items,
        size,
        height,
    };
    Ok(Tree {
        node: Node::List(Rc::new(alloc, list)?),
    })
}

// The measure of a list with a value more, where the value is not null and the limits are kept.
fn admit(list: &Items, value: &Tree) -> Result<Measure, Refused>
    requires { IsList list.now }
    ensures { MatchResult result (IsAdmitted list.now value.now)
        (λ e. (index : ℕ) → list_of (insert list.now.items.items index value.now) ≡ Err e) }
{
    if value.is_null() {
        return Err(Refused::BadArgument);
    }
    let after = Measure {
        size: list.size + value.size(),
        height: list.height.max(value.height() + 1),
    };
    if after.size > MAX_TREE_SIZE || after.height > MAX_TREE_HEIGHT {
        return Err(Refused::TooLarge);
    }
    Ok(after)
}

// Adds an item at an index, where none is null and the limits are kept.
pub(super) fn insert(
    alloc: Global,
    list: &mut Rc<Items>,
    index: usize,
    value: Tree,
) -> Result<(), Refused>
    requires kept { IsList list.old.value }
    requires within { index ≤ length list.old.value.items.items }
    ensures gives { Gives (λ _. list_seen list.new.value) refusal result
        (list_of (insert list.old.value.items.items index value)) }
    ensures before { OnErr result (list_seen list.new.value ≡ list_seen list.old.value) }
    ensures kept { IsList list.new.value }
{
    let after = admit(list, &value)?;
    if let Some(own) = Rc::get_mut(list) {
        insert_admitted(own, index, value, after)?;
        return Ok(());
    }
    let mut copy = copy(alloc, list)?;
    insert_admitted(&mut copy, index, value, after)?;
    *list = Rc::new(alloc, copy)?;
    Ok(())
}

// Adds an item behind the last.
pub(super) fn push(alloc: Global, list: &mut Rc<Items>, value: Tree) -> Result<(), Refused>
    requires kept { IsList list.old.value }
    ensures gives { Gives (λ _. list_seen list.new.value) refusal result
        (pushed value (list_seen list.old.value)) }
    ensures before { OnErr result (list_seen list.new.value ≡ list_seen list.old.value) }
    ensures kept { IsList list.new.value }
{
    let end = list.items.len();
    insert(alloc, list, end, value)
}

// In front of the first.
pub(super) fn push_front(alloc: Global, list: &mut Rc<Items>, value: Tree) -> Result<(), Refused>
    requires kept { IsList list.old.value }
    ensures gives { Gives (λ _. list_seen list.new.value) refusal result
        (pushed_front value (list_seen list.old.value)) }
    ensures before { OnErr result (list_seen list.new.value ≡ list_seen list.old.value) }
    ensures kept { IsList list.new.value }
{
    insert(alloc, list, 0, value)
}

fn insert_admitted(
    list: &mut Items,
    index: usize,
    value: Tree,
    after: Measure,
) -> Result<(), AllocError>
    requires kept { IsList list.old }
    requires within { index ≤ length list.old.items.items }
    requires admitted { IsAdmitted list.old value after }
    ensures ok { OnOk result
        (list_of (insert list.old.items.items index value) ≡ Ok (list_seen list.new)) }
    ensures before { OnErr result (list_seen list.new ≡ list_seen list.old) }
    ensures kept { IsList list.new }
{
    list.items.insert(index, value)?;
    list.size = after.size;
    list.height = after.height;
    Ok(())
}

// Keeps the size and the height where an item of one measure has become one of another.
pub(super) fn measure_change(list: &mut Items, before: Measure, after: Measure)
    requires measured { IsRemeasured
        (list_seen list.old) list.old.size list.old.height before after }
    requires fits { FitsMade (list_seen list.old) }
    ensures items { list.new.items.items ≡ list.old.items.items }
    ensures size { list.new.size ≡ tree_size (list_seen list.new) }
    ensures height { list.new.height ≡ tree_height (list_seen list.new) }
{
    list.size = list.size - before.size + after.size;
    if after.height + 1 >= list.height {
        list.height = after.height + 1;
    } else if before.height + 1 == list.height {
        list.height = height_of(&list.items);
    }
}

// Keeps the size and the height where an item of this measure is gone.
pub(super) fn measure_loss(list: &mut Items, gone: Measure)
    requires measured { IsLessened (list_seen list.old) list.old.size list.old.height gone }
    requires fits { FitsMade (list_seen list.old) }
    ensures items { list.new.items.items ≡ list.old.items.items }
    ensures size { list.new.size ≡ tree_size (list_seen list.new) }
    ensures height { list.new.height ≡ tree_height (list_seen list.new) }
{
    list.size -= gone.size;
    if gone.height + 1 == list.height {
        list.height = height_of(&list.items);
    }
}

// Or 2^64 - 1, where it is larger.
fn size_of(items: &[Tree]) -> u64
    ensures { result ≡ min (tree_size (list (items_of items.now))) (2 ^ 64 - 1) }
{
    let mut size = 1u64;
    for item in items {
        size = size.saturating_add(item.size());
    }
    size
}

fn height_of(items: &[Tree]) -> u64
    ensures { result ≡ tree_height (list (items_of items.now)) }
{
    let mut height = 1;
    for item in items {
        height = max(height, 1 + item.height());
    }
    height
}
