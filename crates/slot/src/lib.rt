// Slots, the 40 bytes of one element: their fields read, and their paths compared.
#![tactic(auto)]

ghost use Rattle.std.specs.Prelude.{◌≡◌, ◌<◌, ◌≤◌, length};
ghost use Rattle.model.specs.Lists.{range};
ghost use Rattle.model.specs.Sets.{precedes};
ghost use Rattle.model.specs.Path.{same_step, steps_of};
ghost use Rattle.model.specs.Slot.{slot_size, depth, step_at, value_length, read_path, read_content};
ghost use Rattle.path.specs.Common.{ComparedBy, Compared};

use path::{HasSteps, LentPath, PathOrder, StepOrder};

// How two paths compare: how many first steps they share, and whether the first comes before the second.
// Both always mean something, so this is no flag with a value, and an Option or a Result would lose one of them.
#[derive(Drop)]
pub struct Meeting {
    pub shared: usize,
    pub before: bool,
}

// A slot: the 40 bytes of one element.
#[derive(Clone, Copy)]
pub struct Slot<'a> {
    pub bytes: &'a [u8],
    pub ghost whole: { length bytes.now ≡ slot_size },
}

impl<'a> Slot<'a> {
    // The number of steps of the path.
    pub fn depth(self) -> usize
        ensures { (result ≡ depth self.entry.bytes.now) × (result < 256) }
    {
        usize::from(self.bytes[0])
    }

    // The length of the value.
    pub fn value_length(self) -> usize
        ensures { (result ≡ value_length self.entry.bytes.now) × (result < 256) }
    {
        usize::from(self.bytes[20])
    }

    // The name of step i of the path.
    pub fn step_name(self, i: usize) -> u32
        requires { i < 6 }
        ensures { (result ≡ (step_at self.entry.bytes.now i).name) × (result < 65536) }
    {
        u32::from(self.bytes[1 + 2 * i]) + 256 * u32::from(self.bytes[1 + 2 * i + 1])
    }

    // The label of step i of the path.
    pub fn step_label(self, i: usize) -> u8
        requires { i < 6 }
        ensures { result ≡ (step_at self.entry.bytes.now i).label }
    {
        self.bytes[13 + i]
    }

    // The kind of the value.
    pub fn kind(self) -> u8
        ensures { result ≡ (read_content self.entry.bytes.now).kind }
    {
        self.bytes[19]
    }

    // The value: that part of the slot.
    pub fn value(self) -> &'a [u8]
        requires { value_length self.bytes.now ≤ 16 }
        ensures { result.now ≡ (read_content self.entry.bytes.now).value }
    {
        let end = 21 + self.value_length();
        &self.bytes[21..end]
    }
}

// The path of a slot, which has at most six steps, so that they can be read.
#[derive(Clone, Copy)]
pub struct SlotPath<'a> {
    pub slot: Slot<'a>,
    pub ghost few: { depth slot.bytes.now ≤ 6 },
}

impl HasSteps for SlotPath<'_> {
    ghost number = { λ a. depth a.slot.bytes.now };

    ghost step = { λ a. step_at a.slot.bytes.now };

    fn count(self) -> usize {
        self.slot.depth()
    }

    fn name(self, i: usize) -> u32 {
        self.slot.step_name(i)
    }

    fn label(self, i: usize) -> u8 {
        self.slot.step_label(i)
    }
}

// Whether two paths have one step i.
fn same_step<A: HasSteps, B: HasSteps>(a: A, b: B, i: usize) -> bool
    requires { (i < A.number a) × (i < B.number b) }
    ensures { result ≡ same_step (A.step a i) (B.step b i) }
{
    if a.name(i) != b.name(i) {
        return false;
    }
    a.label(i) == b.label(i)
}

// Whether step i of a path comes before step i of another.
fn step_before<O: StepOrder, A: HasSteps, B: HasSteps>(a: A, b: B, i: usize) -> bool
    requires { (i < A.number a) × (i < B.number b) }
    ensures { result ≡ precedes (O.key (A.step a i)) (O.key (B.step b i)) }
{
    O::step_key(a.name(i), a.label(i)) < O::step_key(b.name(i), b.label(i))
}

// Two paths compared in one pass.
pub fn meet<O: StepOrder, A: HasSteps, B: HasSteps>(a: A, b: B) -> Meeting
    ensures { ComparedBy O.key (range (A.step a) 0 (A.number a)) (range (B.step b) 0 (B.number b)) result.shared result.before }
{
    let x = a.count();
    let y = b.count();
    let n = x.min(y);
    for i in 0..n {
        if !same_step(a, b, i) {
            return Meeting {
                shared: i,
                before: step_before::<O, A, B>(a, b, i),
            };
        }
    }
    Meeting {
        shared: n,
        before: x < y,
    }
}

// The paths of two slots compared, in any order.
pub fn compare_by<O: StepOrder>(a: SlotPath, b: SlotPath) -> Meeting
    ensures { ComparedBy O.key (read_path a.entry.slot.bytes.now) (read_path b.entry.slot.bytes.now) result.shared result.before }
{
    meet::<O, SlotPath, SlotPath>(a, b)
}

// The paths of two slots compared in path order.
pub fn compare(a: SlotPath, b: SlotPath) -> Meeting
    ensures { Compared (read_path a.entry.slot.bytes.now) (read_path b.entry.slot.bytes.now) result.shared result.before }
{
    compare_by::<PathOrder>(a, b)
}

// The path of a slot compared with a lent path, in path order.
pub fn compare_path(a: SlotPath, path: &[u8]) -> Meeting
    ensures { Compared (read_path a.entry.slot.bytes.now) (steps_of path.now) result.shared result.before }
{
    meet::<PathOrder, SlotPath, LentPath>(a, LentPath { bytes: path })
}
