// The groups that are missing above an element, and the element, put into a partition.
#![tactic(auto)]

ghost use Rattle.std.specs.Prelude.{◌≡◌, ◌≤◌, length};
ghost use Rattle.model.specs.Path.{steps_of};
ghost use Rattle.model.specs.Partition.{layout, read_partition};
ghost use Rattle.model.specs.Groups.{made};
ghost use Rattle.groups.specs.Vacant.{Vacant};

// Puts the groups that are missing behind the first steps of a path, and the element, into a partition from slot at on, a parent before
// its child.
// The kind stays a number: docs/ASSURANCE.md names this function, and it takes any byte.
pub fn put_all(part: &mut [u8], at: usize, path: &[u8], seen: usize, kind: u8, value: &[u8])
    requires vacant { Vacant part.old (steps_of path.now) at seen (record { kind = kind; value = value.now }) }
    requires path_len_bound { (length path.now ≤ 20) × (length value.now ≤ 16) }
    ensures { part.new ≡ layout (made seen (steps_of path.now) (record { kind = kind; value = value.now }) (read_partition part.old)) }
{
    let last = path.len() / 3 - 1;
    for k in seen..last {
        partition::insert(part, at + (k - seen), &path[..3 * k + 3], 0, &[]);
    }
    partition::insert(part, at + (last - seen), path, kind, value);
}
