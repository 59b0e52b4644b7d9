// How far elements reach along a lent path: its first steps that some of them share, and those that stand before the steps of a label.
#![tactic(auto)]

ghost use Rattle.std.specs.Prelude.{◌≡◌};
ghost use Rattle.model.specs.Path.{steps_of};
ghost use Rattle.model.specs.Partition.{read_partition};
ghost use Rattle.model.specs.Groups.{seen_steps};
ghost use Rattle.partition.specs.Place.{place_of};
ghost use Rattle.reach.specs.Before.{steps_before};
ghost use Rattle.reach.specs.Shared.{shared_at, shared_before};

use partition::Ordered;

// How many first steps of a lent path the element in slot i shares with it: 0 if no element is there.
fn shared_at(part: Ordered, i: usize, path: &[u8]) -> usize
    ensures { result ≡ shared_at i (steps_of path.now) (read_partition part.entry.bytes.now) }
{
    if part.count() <= i {
        return 0;
    }
    let m = slot::compare_path(part.path(i), path);
    m.shared
}

// How many the element before slot i shares with it: 0 before the first.
fn shared_before(part: Ordered, i: usize, path: &[u8]) -> usize
    ensures { result ≡ shared_before i (steps_of path.now) (read_partition part.entry.bytes.now) }
{
    if i == 0 {
        return 0;
    }
    shared_at(part, i - 1, path)
}

// How many first steps of a lent path, whose place is given, an element of the partition shares with it. Those beside the place share the most.
pub fn steps_held(part: Ordered, at: usize, path: &[u8]) -> usize
    requires { at ≡ place_of (steps_of path.now) (read_partition part.bytes.now) }
    ensures { result ≡ seen_steps (read_partition part.entry.bytes.now) (steps_of path.now) }
{
    shared_before(part, at, path).max(shared_at(part, at, path))
}

// How many steps of a lent path stand before the first that bears a label: all of them if none does.
pub fn steps_before(path: &[u8], label: u8) -> usize
    ensures { result ≡ steps_before label (steps_of path.now) }
{
    let n = path.len() / 3;
    for i in 0..n {
        if path[3 * i + 2] == label {
            return i;
        }
    }
    n
}
