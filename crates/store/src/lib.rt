// The store's partitions. A partition is read only through a function that asks for a subject who dominates its label.
#![tactic(auto)]

mod writing;

ghost use Rattle.std.specs.Prelude.{◌≡◌, not, ◌&&◌, ◌≤◌, ◌<◌, length, T, IfSome, is_none};
ghost use Rattle.model.specs.Label.{is_label, dominates};
ghost use Rattle.model.specs.Path.{steps_of};
ghost use Rattle.model.specs.Partition.{partition_size};
ghost use Rattle.model.specs.Store.{store_size, partition};
ghost use Rattle.model.specs.Model.{is_held, open_model};
ghost use Rattle.model.specs.View.{in_view};
ghost use Rattle.model.specs.Rows.{some_raw};
ghost use Rattle.store.specs.Opened.{Opened, below_at, Within};

use partition::{Ordered, Partition};
pub use writing::{insert, remove, replace};

// A subject who reads a store of the right size, in which each partition that he dominates is well formed.
#[derive(Clone, Copy)]
pub struct Reader<'a> {
    pub store: &'a [u8],
    pub subject: u8,
    pub ghost opened: { Opened store.now subject },
}

impl<'a> Reader<'a> {
    // The subject as a reader, if no partition that he dominates is malformed.
    pub fn open(store: &'a [u8], subject: u8) -> Option<Reader<'a>>
        requires { (length store.now ≡ store_size) × T (is_label subject) }
        ensures refused { is_none result ≡ some_raw subject (open_model store.now) }
        ensures same { IfSome result (λ r. (r.store.now ≡ store.now) × (r.subject ≡ subject)) }
    {
        if some_raw(store, subject) {
            return None;
        }
        Some(Reader { store, subject })
    }

    // The partition of a label that he dominates.
    pub fn partition_of(&self, label: u8) -> Ordered<'a>
        requires { T (dominates self.now.subject label) }
        ensures { (result.bytes.now ≡ partition label self.now.store.now) × (length result.bytes.now ≡ partition_size) }
    {
        Ordered {
            bytes: partition_of(self.store, self.subject, label),
        }
    }

    // Whether the partition of a label holds an element that has the path or extends it, if he dominates the label.
    pub fn holds_below(&self, label: u8, path: &[u8]) -> bool
        ensures { result ≡ below_at self.now.subject self.now.store.now (steps_of path.now) label }
    {
        label::dominates(self.subject, label) && self.partition_of(label).has_below(path)
    }

    // Whether a lent path is in his view, where of the labels from end on none holds it. The path's own element stands in the
    // partition of its last label, which is asked first.
    pub fn in_view_before(&self, path: &[u8], end: u8) -> bool
        requires { Within self.now.store.now self.now.subject (steps_of path.now) end }
        ensures { result ≡ in_view self.now.subject (open_model self.now.store.now) (steps_of path.now) }
    {
        if path.len() < 3 {
            return true;
        }
        let last = path[path.len() - 1];
        if self.holds_below(last, path) {
            return true;
        }
        (0..end).any(|n| self.holds_below(n, path))
    }

    // Whether a lent path is in his view.
    pub fn in_view(&self, path: &[u8]) -> bool
        ensures { result ≡ in_view self.now.subject (open_model self.now.store.now) (steps_of path.now) }
    {
        self.in_view_before(path, labels_end(self.subject))
    }
}

// The partition of a label that the subject dominates: that part of the lent store. It takes no reader, since there is none before
// the partitions are tested.
pub fn partition_of(store: &[u8], subject: u8, label: u8) -> &[u8]
    requires { (length store.now ≡ store_size) × T (dominates subject label) }
    ensures { (result.now ≡ partition label store.now) × (length result.now ≡ partition_size) }
{
    let at = 1284 * usize::from(label);
    let end = at + 1284;
    &store[at..end]
}

// Whether the subject dominates a label whose partition is not well formed.
fn is_raw(store: &[u8], subject: u8, label: u8) -> bool
    requires { length store.now ≡ store_size }
    ensures { result ≡ (dominates subject label && not (is_held ((open_model store.now).cell label))) }
{
    label::dominates(subject, label)
        && !Partition {
            bytes: partition_of(store, subject, label),
        }
        .is_well_formed(label)
}

// Where the labels that a subject may dominate end: none is greater than he, and he dominates none if he is no label.
fn labels_end(subject: u8) -> u8
    ensures { (result ≤ 32) × (subject < 32 → subject < result) }
{
    if 32 <= subject {
        return 0;
    }
    subject + 1
}

// Whether a partition that the subject dominates is not well formed: then a call is refused with 3.
pub fn some_raw(store: &[u8], subject: u8) -> bool
    requires { length store.now ≡ store_size }
    ensures { result ≡ some_raw subject (open_model store.now) }
{
    (0..labels_end(subject)).any(|n| is_raw(store, subject, n))
}
