// Whether the 40 bytes of a slot hold a valid element of a label.
#![tactic(auto)]

ghost use Rattle.std.specs.Prelude.{◌≡◌, ◌&&◌, ◌<◌, ◌≤◌};
ghost use Rattle.model.specs.Path.{ends_in, valid_path};
ghost use Rattle.model.specs.Value.{storable};
ghost use Rattle.model.specs.Slot.{step_at, value_length, read_path, read_content};
ghost use Rattle.path.specs.Steps.{may_follow, all_follow};
ghost use Rattle.slot_valid.specs.Valid.{valid_slot, may_stand, steps_zero, rest_zero};

use slot::{Slot, SlotPath};

// Whether step i of a slot's path is valid and may follow one with the label before.
fn step_follows(before: u8, slot: Slot, i: usize) -> bool
    requires { i < 6 }
    ensures { result ≡ may_follow before (step_at slot.entry.bytes.now i) }
{
    path::may_follow(
        before,
        slot.bytes[1 + 2 * i],
        slot.bytes[1 + 2 * i + 1],
        slot.bytes[13 + i],
    )
}

// Whether place i of a slot holds what a path of d steps has there: a step that may follow one with the label before, or none.
fn step_good(before: u8, slot: Slot, i: usize, d: usize) -> bool
    requires { i < 6 }
    ensures { result ≡ may_stand d before i (step_at slot.entry.bytes.now i) }
{
    if i < d {
        return step_follows(before, slot, i);
    }
    slot.step_name(i) + u32::from(slot.step_label(i)) == 0
}

// Whether the steps of a slot's path are valid, their labels ascend, and the places behind them are 0. One loop over the six places.
// A walk over the path's steps alone, and others over the places behind them, were tried and slower: 5.1 wrong guesses a slot, and not 3.9.
fn steps_good(path: SlotPath) -> bool
    ensures { result ≡ (all_follow 0 (read_path path.entry.slot.bytes.now) && steps_zero path.entry.slot.bytes.now) }
{
    let slot = path.slot;
    let d = slot.depth();
    let mut before: u8 = 0;
    for i in 0..6 {
        if !step_good(before, slot, i, d) {
            return false;
        }
        before = slot.step_label(i);
    }
    true
}

// Whether a slot's path is valid and ends in label n, and the places behind its steps are 0.
fn path_valid(slot: Slot, n: u8) -> bool
    ensures { result ≡ ((valid_path (read_path slot.entry.bytes.now) && ends_in n (read_path slot.entry.bytes.now)) && steps_zero slot.entry.bytes.now) }
{
    let d = slot.depth();
    if d < 1 {
        return false;
    }
    if 6 < d {
        return false;
    }
    if !steps_good(SlotPath { slot }) {
        return false;
    }
    slot.step_label(d - 1) == n
}

// Whether a slot's kind and value agree.
fn content_valid(slot: Slot) -> bool
    ensures { result ≡ storable (read_content slot.entry.bytes.now) }
{
    let len = slot.value_length();
    if 16 < len {
        return false;
    }
    let end = 21 + len;
    kind::is_allowed(u32::from(slot.kind()), &slot.bytes[21..end])
}

// Whether the bytes of a slot behind its value are 0.
fn rest_zero(slot: Slot) -> bool
    requires { value_length slot.bytes.now ≤ 16 }
    ensures { result ≡ rest_zero slot.entry.bytes.now }
{
    let n = slot.value_length();
    octets::tail_zero(&slot.bytes[21..40], n)
}

// Whether a slot holds a valid element of label n, its unused bytes zero.
pub fn is_valid(slot: Slot, n: u8) -> bool
    ensures { result ≡ valid_slot n slot.entry.bytes.now }
{
    if !path_valid(slot, n) {
        return false;
    }
    if !content_valid(slot) {
        return false;
    }
    rest_zero(slot)
}
