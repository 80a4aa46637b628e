// How many bytes items take in a page at most, told by a glance.
ghost use Rattle.std.specs.Prelude.{◌≡◌, ◌*◌, ◌≤◌, length, sum_by};
ghost use Rattle.std.specs.List.{AllByRecursion};
ghost use Rattle.sq_item.specs.SoundItems.{IsSoundItem};
ghost use Rattle.sq_queue.specs.Faces.{value_room, room_of, rooms_of};

use sq_item::Item;
use sq_value::Value;
use std::collections::VecDeque;

#[inline(always)]
fn room_for_value(value: &Value) -> u32
    ensures room { result ≡ value_room value.now }
    ensures most { result ≤ 257 }
{
    match value {
        Value::Text(text) => text.as_bytes().len() as u32 + 2,
        Value::Null => 9,
        Value::Int(_) => 9,
        Value::Bool(_) => 9,
    }
}

#[inline(always)]
fn room_for_values(values: &[Value]) -> u32
    requires { length values.now ≤ 16 }
    ensures room { result ≡ sum_by value_room values.now }
    ensures most { result ≤ 16 * 257 }
{
    let mut room = 0;
    for value in values {
        room += room_for_value(value);
    }
    room
}

/// At least as many bytes as an item takes in a page. What it takes exactly costs more to tell.
#[inline(always)]
pub fn room_for(item: &Item) -> u32
    requires { IsSoundItem item.now }
    ensures room { result ≡ room_of item.now }
    ensures most { result ≤ 4130 }
{
    room_for_values(item.body.as_slice()) + 18
}

/// The same of all items in front of an arc.
pub(crate) fn room_for_all(front: &VecDeque<Item>) -> u32
    requires sound { AllByRecursion IsSoundItem front.now.items }
    requires few { length front.now.items ≤ 256 }
    ensures { result ≡ rooms_of front.now.items }
{
    let mut room = 0;
    for at in 0..front.len() {
        room += room_for(&front[at]);
    }
    room
}
