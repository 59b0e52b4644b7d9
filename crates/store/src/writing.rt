// Writing into a store: the subject's own partition is lent, and no other part of the store.
ghost use Rattle.std.specs.Prelude.{◌≡◌, ◌<◌, ◌≤◌, length};
ghost use Rattle.model.specs.Path.{steps_of};
ghost use Rattle.model.specs.Element.{remove};
ghost use Rattle.model.specs.Partition.{layout};
ghost use Rattle.model.specs.Store.{replace};
ghost use Rattle.model.specs.Model.{open_model, own_set};
ghost use Rattle.model.specs.Groups.{made};
ghost use Rattle.model.specs.Call.{extending};
ghost use Rattle.partition.specs.Place.{place_of, replaced_at};
ghost use Rattle.store.specs.Opened.{Own, Vacant};

// Removes the path, which stands from slot at on, and all that extends it from the subject's partition: how many elements went.
pub fn remove(store: &mut [u8], subject: u8, at: usize, path: &[u8]) -> usize
    requires { Own store.old subject × (at ≡ place_of (steps_of path.now) (own_set subject (open_model store.old))) }
    ensures value { result ≡ extending (steps_of path.now) (own_set subject (open_model store.old)) }
    ensures store_after { store.new ≡ replace subject (layout (remove (steps_of path.now) (own_set subject (open_model store.old)))) store.old }
{
    let start = 1284 * usize::from(subject);
    let end = start + 1284;
    partition::remove(&mut store[start..end], at, path)
}

// Puts an element and the groups that are missing above it into the subject's partition, from slot at on.
// The kind stays a number: docs/ASSURANCE.md names this function, and it takes any byte.
pub fn insert(
    store: &mut [u8],
    subject: u8,
    at: usize,
    path: &[u8],
    seen: usize,
    kind: u8,
    value: &[u8],
)
    requires vacant { Vacant store.old subject (steps_of path.now) at seen (record { kind = kind; value = value.now }) }
    requires path_len_bound { (length path.now ≤ 20) × (length value.now ≤ 16) }
    ensures { store.new ≡ replace subject (layout (made seen (steps_of path.now) (record { kind = kind; value = value.now }) (own_set subject (open_model store.old)))) store.old }
{
    let start = 1284 * usize::from(subject);
    let end = start + 1284;
    groups::put_all(&mut store[start..end], at, path, seen, kind, value);
}

// Gives the element in slot at of the subject's partition another kind and value.
// The kind stays a number: docs/ASSURANCE.md names this function, and it takes any byte.
pub fn replace(store: &mut [u8], subject: u8, at: usize, kind: u8, value: &[u8])
    requires { Own store.old subject × (at < length (own_set subject (open_model store.old))) × (length value.now ≤ 16) }
    ensures { store.new ≡ replace subject (layout (replaced_at at (record { kind = kind; value = value.now }) (own_set subject (open_model store.old)))) store.old }
{
    let start = 1284 * usize::from(subject);
    let end = start + 1284;
    partition::replace(&mut store[start..end], at, kind, value);
}
