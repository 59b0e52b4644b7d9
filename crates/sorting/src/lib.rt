// A partition's elements put into path order, in place: each is moved behind those after it that come before it.
#![tactic(auto)]

ghost use Rattle.std.specs.Prelude.{◌≡◌, ◌++◌, ◌+◌, ◌≤◌, ◌<◌, min, length, take, drop};
ghost use Rattle.model.specs.Sets.{sort};
ghost use Rattle.model.specs.Element.{rank};
ghost use Rattle.model.specs.Slot.{slot_size, read_path};
ghost use Rattle.model.specs.Partition.{count, slot_at, layout, read_partition};
ghost use Rattle.path.specs.Common.{is_before};
ghost use Rattle.sorting.specs.Sorting.{Laid, SortedBehind, Former, place_behind, moved};

use partition::Partition;
use slot::SlotPath;

// Whether slot i comes before slot j in path order.
fn comes_before(part: &[u8], i: usize, j: usize) -> bool
    requires { Laid part.now × (i < count part.now) × (j < count part.now) }
    ensures { result ≡ is_before (read_path (slot_at part.now i)) (read_path (slot_at part.now j)) }
{
    let part = Partition { bytes: part };
    let a = SlotPath { slot: part.slot(i) };
    let b = SlotPath { slot: part.slot(j) };
    slot::compare(a, b).before
}

// From a slot on back to where slot i comes among those behind it, if that is not behind the slot.
fn back_from(part: &[u8], i: usize, from: usize) -> usize
    requires { SortedBehind part.now i × (i < from) × (from ≤ count part.now) }
    ensures { result ≡ min from (place_behind part.now i) }
{
    for j in (i + 1..from).rev() {
        if comes_before(part, j, i) {
            return j + 1;
        }
    }
    i + 1
}

// From a slot on, before which all behind slot i come before it, to the first that does not.
fn forth_from(part: &[u8], i: usize, from: usize) -> usize
    requires { SortedBehind part.now i × (i < from) × (from ≤ place_behind part.now i) }
    ensures { result ≡ place_behind part.now i }
{
    let c = Partition { bytes: part }.count();
    for j in from..c {
        if !comes_before(part, j, i) {
            return j;
        }
    }
    c
}

// Where slot i comes among those behind it, which are sorted. It is looked for from a slot on, back or forth.
fn place_of(part: &[u8], i: usize, near: usize) -> usize
    requires { SortedBehind part.now i × (i < near) × (near < count part.now) }
    ensures { result ≡ place_behind part.now i }
{
    let j = back_from(part, i, near + 1);
    if j <= near {
        return j;
    }
    forth_from(part, i, j)
}

// Moves the first slot behind the others. Not by std's rotate_left, which takes 4 KB of the stack for it.
fn turn(s: &mut [u8])
    requires { slot_size ≤ length s.old }
    ensures { s.new ≡ drop slot_size s.old ++ take slot_size s.old }
{
    let mut scratch = [0u8; 40];
    scratch.copy_from_slice(&s[0..40]);
    octets::move_down(s, 40);
    let end = s.len();
    let start = end - 40;
    s[start..end].copy_from_slice(&scratch);
}

// Moves slot i behind those up to slot to.
fn move_behind(part: &mut [u8], i: usize, to: usize)
    requires { Laid part.old × (i < to) × (to ≤ count part.old) }
    ensures { part.new ≡ layout (moved i to (read_partition part.old)) }
{
    let start = 4 + 40 * i;
    let end = 4 + 40 * to;
    turn(&mut part[start..end]);
}

// Puts slot i to its place among those behind it, which are sorted, looking from a slot on: the slot it comes to, which helps to find the next;
// no contract needs more of it than that it is one of them.
fn settle(part: &mut [u8], i: usize, near: usize) -> usize
    requires { SortedBehind part.old i × (i < near) × (near < count part.old) }
    ensures lower_bound { (i ≤ result) × (result < count part.old) }
    ensures part_after { part.new ≡ layout (take i (read_partition part.old) ++ sort rank (drop i (read_partition part.old))) }
{
    let to = place_of(part, i, near);
    if to <= i + 1 {
        return i;
    }
    move_behind(part, i, to);
    to - 1
}

// Sorts a partition that is well formed in the order of before 7/14, from its last slot on.
pub fn sort(part: &mut [u8])
    requires { Former part.old }
    ensures { part.new ≡ layout (sort rank (read_partition part.old)) }
{
    let c = Partition { bytes: part }.count();
    if c == 0 {
        return;
    }
    let mut near = c - 1;
    for i in (0..c - 1).rev() {
        near = settle(part, i, near);
    }
}
