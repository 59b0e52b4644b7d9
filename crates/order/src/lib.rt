// The elements that a subject sees at or below a path, in path order: references to their slots, merged pairwise from the
// ascending runs of the partitions that he dominates.
#![tactic(auto)]

mod occupied;

ghost use Rattle.std.specs.Prelude.{◌≡◌, ◌++◌, map, ◌+◌, ◌*◌, ◌<◌, ◌≤◌, length, get_or, take, drop, T};
ghost use Rattle.model.specs.Lists.{range};
ghost use Rattle.model.specs.Sets.{sort};
ghost use Rattle.model.specs.Path.{steps_of, parent};
ghost use Rattle.model.specs.Element.{rank};
ghost use Rattle.model.specs.Partition.{read_partition};
ghost use Rattle.model.specs.Model.{open_model};
ghost use Rattle.model.specs.View.{seen_below};
ghost use Rattle.model.specs.Call.{extending};
ghost use Rattle.partition.specs.Place.{Formed, place_of};
ghost use Rattle.order.specs.Refs.{slot_of, element_of, refers, Refers, seen_at, rising, ordered_of, Runs, Takes};

use partition::Ordered;
use slot::SlotPath;
use std::ops::Range;
use store::Reader;

// What a reader sees at or below a path, in path order: a reference to each element's slot.
#[derive(Clone, Copy)]
pub struct Seen<'s, 'a> {
    pub reader: Reader<'s>,
    pub path: &'a [u8],
    pub refs: &'a [u16],
    pub ghost few: { length refs.now ≤ 1024 },
    pub ghost refers: { Refers reader.subject reader.store.now refs.now (seen_below reader.subject (open_model reader.store.now) (steps_of path.now)) },
}

impl<'s, 'a> Seen<'s, 'a> {
    // The slot of its element i.
    pub fn slot(&self, i: usize) -> SlotPath<'s>
        requires { i < length self.now.refs.now }
        ensures { result.slot.bytes.now ≡ slot_of self.now.reader.store.now (get_or self.now.refs.now i 0) }
    {
        slot_of(&self.reader, self.refs[i])
    }

    // How many steps the parent of its path has.
    pub fn steps_above(&self) -> usize
        ensures { result ≡ length (parent (steps_of self.now.path.now)) }
    {
        (self.path.len() / 3).saturating_sub(1)
    }
}

// The slot that a reference names: 32 × label + slot. A reference stays packed in 16 bits, since the memory for 1,024 is fixed.
pub fn slot_of<'a>(reader: &Reader<'a>, r: u16) -> SlotPath<'a>
    requires { T (refers reader.now.subject reader.now.store.now r) }
    ensures { result.slot.bytes.now ≡ slot_of reader.now.store.now r }
{
    let part = reader.partition_of((r / 32) as u8);
    part.path(usize::from(r % 32))
}

// Whether the first run's element i is the next to be taken: the second run is at its end, or has a later one at j.
fn takes_first(reader: &Reader<'_>, xs: &[u16], i: usize, ys: &[u16], j: usize) -> bool
    requires runs { Runs reader.now.subject reader.now.store.now xs.now ys.now }
    requires i_in_bounds { (i ≤ length xs.now) × (j ≤ length ys.now) × (i + j < length xs.now + length ys.now) }
    ensures { Takes reader.now.store.now xs.now i ys.now j result }
{
    if xs.len() <= i {
        return false;
    }
    if ys.len() <= j {
        return true;
    }
    slot::compare(slot_of(reader, xs[i]), slot_of(reader, ys[j])).before
}

// Merges two ascending runs into one.
fn merge(reader: &Reader<'_>, xs: &[u16], ys: &[u16], refs: &mut [u16])
    requires runs { Runs reader.now.subject reader.now.store.now xs.now ys.now }
    requires ys_in_bounds { length xs.now + length ys.now ≤ length refs.old }
    ensures { Refers reader.now.subject reader.now.store.now (take (length xs.now + length ys.now) refs.new) (sort rank (map (element_of reader.now.store.now) xs.now ++ map (element_of reader.now.store.now) ys.now)) }
{
    let n = xs.len() + ys.len();
    let mut i: usize = 0;
    let mut j: usize = 0;
    // A `while`: of its two places each turn moves one, so a `for` over their sum would keep both beside it and be no plainer.
    while i + j < n {
        if takes_first(reader, xs, i, ys, j) {
            refs[i + j] = xs[i];
            i += 1;
            continue;
        }
        refs[i + j] = ys[j];
        j += 1;
    }
}

// Writes the numbers from first on, k of them.
fn count_from(refs: &mut [u16], first: u16, k: usize)
    requires { (k ≤ length refs.old) × (first + k ≤ 1024) }
    ensures { refs.new ≡ range (λ n. n) first k ++ drop k refs.old }
{
    for i in 0..k {
        refs[i] = first + i as u16;
    }
}

// Where the elements that have the path or extend it stand in a partition; the root's are all of them.
fn run_of(part: Ordered, path: &[u8]) -> Range<usize>
    requires { Formed part.bytes.now }
    ensures start { result.start ≡ place_of (steps_of path.now) (read_partition part.entry.bytes.now) }
    ensures end { result.end ≡ result.start + extending (steps_of path.now) (read_partition part.entry.bytes.now) }
{
    if path.len() < 3 {
        return 0..part.count();
    }
    let at = part.place(path);
    at..at + part.run_length(at, path)
}

// The references of one label's elements that have the path or extend it, if the subject dominates the label: how many.
fn collect(reader: &Reader<'_>, path: &[u8], label: u8, refs: &mut [u16]) -> usize
    requires { 32 ≤ length refs.old }
    ensures refers { Refers reader.now.subject reader.now.store.now (take result refs.new) (seen_at reader.now.subject reader.now.store.now (steps_of path.now) label) }
    ensures upper_bound { result ≤ 32 }
{
    if !label::dominates(reader.subject, label) {
        return 0;
    }
    let run = run_of(reader.partition_of(label), path);
    let k = run.end - run.start;
    count_from(refs, 32 * u16::from(label) + run.start as u16, k);
    k
}

// The references of the elements of some labels that the subject sees and that have the path or extend it, in path order:
// how many. A count and no slice: the halves stand one behind the other in what the second call is lent only in part.
fn order_labels(
    reader: &Reader<'_>,
    path: &[u8],
    labels: &[u8],
    refs: &mut [u16],
    spare: &mut [u16],
) -> usize
    requires labels { T (rising labels.now) × (length labels.now ≤ 32) }
    requires labels_in_bounds { (32 * length labels.now ≤ length refs.old) × (32 * length labels.now ≤ length spare.old) }
    ensures refers { Refers reader.now.subject reader.now.store.now (take result refs.new) (ordered_of reader.now.subject reader.now.store.now (steps_of path.now) labels.now) }
    ensures upper_bound { result ≤ 32 * length labels.now }
{
    let width = labels.len();
    if width == 0 {
        return 0;
    }
    if width == 1 {
        return collect(reader, path, labels[0], refs);
    }
    let half = width / 2;
    let a = order_labels(reader, path, &labels[0..half], spare, refs);
    let b = order_labels(
        reader,
        path,
        &labels[half..width],
        &mut spare[a..],
        &mut refs[a..],
    );
    let n = a + b;
    let runs = &spare[..];
    merge(reader, &runs[0..a], &runs[a..n], refs);
    n
}

// References to what a reader sees at or below a path, in path order, written into the first of two lent slices: how many. Slices,
// since an array's type would ask more of callers than 1,024 places.
pub fn put_refs(reader: &Reader<'_>, path: &[u8], refs: &mut [u16], spare: &mut [u16]) -> usize
    requires { (1024 ≤ length refs.old) × (1024 ≤ length spare.old) }
    ensures refers { Refers reader.now.subject reader.now.store.now (take result refs.new) (seen_below reader.now.subject (open_model reader.now.store.now) (steps_of path.now)) }
    ensures upper_bound { result ≤ 1024 }
{
    let mut room = [0u8; 32];
    let labels = occupied::occupied(reader, path, &mut room);
    order_labels(reader, path, labels, refs, spare)
}

// What a reader sees at or below a path, its references written into the first of two lent slices, which it keeps.
pub fn order<'s, 'a>(
    reader: &Reader<'s>,
    path: &'a [u8],
    refs: &'a mut [u16],
    spare: &mut [u16],
) -> Seen<'s, 'a>
    requires { (1024 ≤ length refs.old) × (1024 ≤ length spare.old) }
    ensures reader { (result.reader.subject ≡ reader.now.subject) × (result.reader.store.now ≡ reader.now.store.now) }
    ensures path { result.path.now ≡ path.now }
{
    let n = put_refs(reader, path, refs, spare);
    Seen {
        reader: *reader,
        path,
        refs: &refs[..n],
    }
}
