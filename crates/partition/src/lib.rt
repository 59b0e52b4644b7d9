// Partitions: the 1,284 bytes of one label.
#![tactic(auto)]

ghost use Rattle.std.specs.Prelude.{◌≡◌, [], ◌++◌, ℕ, ◌+◌, ◌<◌, ◌≤◌, length, take, drop, is_ok};
ghost use Rattle.model.specs.Lists.{any, all_zero, between};
ghost use Rattle.model.specs.Path.{same_path, is_prefix, parent, ends_in, steps_of, former_key};
ghost use Rattle.model.specs.Slot.{depth, read_path};
ghost use Rattle.model.specs.Partition.{partition_size, count, slot_start, layout, slot_at, slots, read_partition, well_formed_by, well_formed};
ghost use Rattle.model.specs.Element.{remove};
ghost use Rattle.model.specs.Call.{extending, added};
ghost use Rattle.path.specs.Common.{common};
ghost use Rattle.partition.specs.Linked.{may_follow, good_slot, good_slots, path_before};
ghost use Rattle.partition.specs.Place.{Formed, InOrder, place_of, place_in, Found, Room, replaced_at};

use path::{FormerOrder, PathOrder, StepOrder};
use slot::{Slot, SlotPath};

// A partition: the 1,284 bytes of one label.
#[derive(Clone, Copy)]
pub struct Partition<'a> {
    pub bytes: &'a [u8],
    pub ghost whole: { length bytes.now ≡ partition_size },
}

// A partition whose used slots can be read and stand in path order, as those of every well-formed one: a path can be looked for in it.
#[derive(Clone, Copy)]
pub struct Ordered<'a> {
    pub bytes: &'a [u8],
    pub ghost in_order: { InOrder bytes.now },
}

// Whether the parent of a path ends in label n.
fn parent_ends_in(path: SlotPath, n: u8) -> bool
    ensures { result ≡ ends_in n (parent (read_path path.entry.slot.bytes.now)) }
{
    let d = path.slot.depth();
    if d < 2 {
        return false;
    }
    path.slot.step_label(d - 2) == n
}

// Whether path b may follow path a in partition n, in the order O.
fn may_follow<O: StepOrder>(a: SlotPath, b: SlotPath, n: u8) -> bool
    ensures { result ≡ may_follow O.key n (read_path a.entry.slot.bytes.now) (read_path b.entry.slot.bytes.now) }
{
    let m = slot::compare_by::<O>(a, b);
    if !m.before {
        return false;
    }
    if !parent_ends_in(b, n) {
        return true;
    }
    b.slot.depth() <= m.shared + 1
}

impl<'a> Partition<'a> {
    // The number of used slots.
    pub fn count(self) -> usize
        ensures { (result ≡ count self.entry.bytes.now) × (result < 256) }
    {
        usize::from(self.bytes[0])
    }

    // Slot i.
    pub fn slot(self, i: usize) -> Slot<'a>
        requires { i < 32 }
        ensures { result.bytes.now ≡ slot_at self.entry.bytes.now i }
    {
        let at = 4 + 40 * i;
        let end = at + 40;
        Slot {
            bytes: &self.bytes[at..end],
        }
    }

    // Whether the slots behind the first c are zero.
    fn spare_zero(self, c: usize) -> bool
        requires { c ≤ 32 }
        ensures { result ≡ all_zero (between (slot_start c) partition_size self.entry.bytes.now) }
    {
        let at = 4 + 40 * c;
        octets::slots_zero(&self.bytes[at..1284])
    }

    // Whether slot i is valid and follows the slot before it, in the order O.
    fn slot_good<O: StepOrder>(self, i: usize, n: u8) -> bool
        requires i_bound { i < 32 }
        requires by_index { (k : ℕ) → k + 1 ≡ i → depth (slot_at self.bytes.now k) ≤ 6 }
        ensures { result ≡ good_slot O.key n (path_before self.entry.bytes.now i) (slot_at self.entry.bytes.now i) }
    {
        let s = self.slot(i);
        if !slot_valid::is_valid(s, n) {
            return false;
        }
        if i == 0 {
            return !parent_ends_in(SlotPath { slot: s }, n);
        }
        let before = self.slot(i - 1);
        may_follow::<O>(SlotPath { slot: before }, SlotPath { slot: s }, n)
    }

    // Whether the first c slots are valid, each following the one before, in the order O.
    fn slots_good<O: StepOrder>(self, c: usize, n: u8) -> bool
        requires { (c ≡ count self.bytes.now) × (c ≤ 32) }
        ensures { result ≡ good_slots O.key n [] (slots self.entry.bytes.now) }
    {
        for i in 0..c {
            if !self.slot_good::<O>(i, n) {
                return false;
            }
        }
        true
    }

    // Whether it is well formed for label n.
    pub fn is_well_formed(self, n: u8) -> bool
        requires { n < 32 }
        ensures { result ≡ well_formed n self.entry.bytes.now }
    {
        is_formed_by::<PathOrder>(self.bytes, n)
    }

    // Whether it is well formed for label n but for its order, which is that of before 7/14.
    pub fn is_well_formed_former(self, n: u8) -> bool
        requires { n < 32 }
        ensures { result ≡ well_formed_by former_key n self.entry.bytes.now }
    {
        is_formed_by::<FormerOrder>(self.bytes, n)
    }
}

// Whether bytes are a partition that is well formed for label n, in the order O.
// It takes the bytes and no Partition: the proof needs that each is a byte, which the check knows of a slice that is an argument.
fn is_formed_by<O: StepOrder>(bytes: &[u8], n: u8) -> bool
    requires { (length bytes.now ≡ partition_size) × (n < 32) }
    ensures { result ≡ well_formed_by O.key n bytes.now }
{
    let part = Partition { bytes };
    let c = part.count();
    if 32 < c {
        return false;
    }
    if !octets::is_zero(&bytes[1..4]) {
        return false;
    }
    if !part.spare_zero(c) {
        return false;
    }
    part.slots_good::<O>(c, n)
}

// Whether a slot's path, of which so many first steps are the lent path's, is the lent path.
fn is_same(a: SlotPath, path: &[u8], shared: usize) -> bool
    requires { shared ≡ common (read_path a.slot.bytes.now) (steps_of path.now) }
    ensures { result ≡ same_path (steps_of path.now) (read_path a.entry.slot.bytes.now) }
{
    let n = path.len() / 3;
    if shared != n {
        return false;
    }
    a.slot.depth() == n
}

impl<'a> Ordered<'a> {
    // The number of used slots.
    pub fn count(self) -> usize
        ensures { (result ≡ count self.entry.bytes.now) × (result ≤ 32) }
    {
        Partition { bytes: self.bytes }.count()
    }

    // The path in slot i.
    pub fn path(self, i: usize) -> SlotPath<'a>
        requires { i < count self.bytes.now }
        ensures { result.slot.bytes.now ≡ slot_at self.entry.bytes.now i }
    {
        let slot = Partition { bytes: self.bytes }.slot(i);
        SlotPath { slot }
    }

    // A slot before which every element comes before a lent path: the one behind the given slot, if that comes before the path, else the first.
    fn start_behind(self, near: usize, path: &[u8]) -> usize
        ensures { result ≤ place_of (steps_of path.now) (read_partition self.entry.bytes.now) }
    {
        if self.count() <= near {
            return 0;
        }
        let m = slot::compare_path(self.path(near), path);
        if !m.before {
            return 0;
        }
        near + 1
    }

    // The place of a lent path: Ok where it stands, Err where it would stand. It is looked for behind the given slot first, so that paths
    // in their order are found at once.
    pub fn find_near(self, near: usize, path: &[u8]) -> Result<usize, usize>
        ensures { Found self.entry.bytes.now (steps_of path.now) (place_in result) (is_ok result) }
    {
        let c = self.count();
        for i in self.start_behind(near, path)..c {
            let s = self.path(i);
            let m = slot::compare_path(s, path);
            if !m.before {
                return if is_same(s, path, m.shared) {
                    Ok(i)
                } else {
                    Err(i)
                };
            }
        }
        Err(c)
    }

    // The place of a lent path, looked for from the first slot on: there is no slot 32.
    pub fn find(self, path: &[u8]) -> Result<usize, usize>
        ensures { Found self.entry.bytes.now (steps_of path.now) (place_in result) (is_ok result) }
    {
        self.find_near(32, path)
    }

    // Where a lent path stands or would stand.
    pub fn place(self, path: &[u8]) -> usize
        ensures { result ≡ place_of (steps_of path.now) (read_partition self.entry.bytes.now) }
    {
        match self.find(path) {
            Ok(at) | Err(at) => at,
        }
    }

    // How many elements, from slot at on, have the path or extend it.
    pub fn run_length(self, at: usize, path: &[u8]) -> usize
        requires { at ≡ place_of (steps_of path.now) (read_partition self.bytes.now) }
        ensures { result ≡ extending (steps_of path.now) (read_partition self.entry.bytes.now) }
    {
        let c = self.count();
        let n = path.len() / 3;
        for i in at..c {
            let m = slot::compare_path(self.path(i), path);
            if m.shared < n {
                return i - at;
            }
        }
        c - at
    }

    // Whether an element has the path or extends it; every one extends the root.
    pub fn has_below(self, path: &[u8]) -> bool
        ensures { result ≡ any (λ e. is_prefix (steps_of path.now) e.path) (read_partition self.entry.bytes.now) }
    {
        let c = self.count();
        if c == 0 {
            return false;
        }
        if path.len() < 3 {
            return true;
        }
        let at = self.place(path);
        if c <= at {
            return false;
        }
        let m = slot::compare_path(self.path(at), path);
        path.len() / 3 <= m.shared
    }
}

// The functions from here on write. They take the bytes, and Formed as a clause: a type over a `&mut` would owe its fact again at each write,
// which is no plainer.

// Takes k slots out, from slot at on: those behind move up to them, and zeros come in at the end.
fn take_out(part: &mut [u8], at: usize, k: usize)
    requires { Formed part.old × (at + k ≤ count part.old) }
    ensures { part.new ≡ layout (take at (read_partition part.old) ++ drop (at + k) (read_partition part.old)) }
{
    let c = part[0];
    let start = 4 + 40 * at;
    octets::shift_down(&mut part[start..1284], 40 * k);
    part[0] = c - (k % 256) as u8;
}

// Removes the path and all that extends it, which stand from slot at on: how many went.
pub fn remove(part: &mut [u8], at: usize, path: &[u8]) -> usize
    requires { Formed part.old × (at ≡ place_of (steps_of path.now) (read_partition part.old)) }
    ensures value { result ≡ extending (steps_of path.now) (read_partition part.old) }
    ensures part_after { part.new ≡ layout (remove (steps_of path.now) (read_partition part.old)) }
{
    let k = Ordered { bytes: part }.run_length(at, path);
    take_out(part, at, k);
    k
}

// Puts an element in at its place, where no element has its path: those from there on move down by one slot.
// The kind stays a number: docs/ASSURANCE.md names this function, and it takes any byte.
pub fn insert(part: &mut [u8], at: usize, path: &[u8], kind: u8, value: &[u8])
    requires room { Room part.old at (steps_of path.now) }
    requires path_len_bound { (length path.now ≤ 20) × (length value.now ≤ 16) }
    ensures { part.new ≡ layout (added (steps_of path.now) (record { kind = kind; value = value.now }) (read_partition part.old)) }
{
    let c = part[0];
    let start = 4 + 40 * at;
    let end = start + 40;
    let last = 44 + 40 * usize::from(c);
    octets::shift_up(&mut part[start..last], 40);
    slot_write::write(&mut part[start..end], path, kind, value);
    part[0] = c + 1;
}

// Gives the element in slot at another kind and value: its path and the other slots stay.
// The kind stays a number: docs/ASSURANCE.md names this function, and it takes any byte.
pub fn replace(part: &mut [u8], at: usize, kind: u8, value: &[u8])
    requires { Formed part.old × (at < count part.old) × (length value.now ≤ 16) }
    ensures { part.new ≡ layout (replaced_at at (record { kind = kind; value = value.now }) (read_partition part.old)) }
{
    let from = 4 + 40 * at;
    let to = from + 40;
    slot_write::replace_content(&mut part[from..to], kind, value);
}
