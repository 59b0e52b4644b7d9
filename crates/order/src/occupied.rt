// The labels whose partitions a view reads: those that the subject dominates and that have elements at or below the path.
ghost use Rattle.std.specs.Prelude.{◌≡◌, ◌≤◌, length, take};
ghost use Rattle.model.specs.Lists.{keep};
ghost use Rattle.model.specs.Label.{labels};
ghost use Rattle.model.specs.Path.{steps_of};
ghost use Rattle.store.specs.Opened.{below_at};

use store::Reader;

// The occupied labels, ascending, in the array lent for them. None of them is greater than the subject.
pub fn occupied<'f>(reader: &Reader<'_>, path: &[u8], found: &'f mut [u8; 32]) -> &'f [u8]
    ensures found { result.now ≡ keep (below_at reader.now.subject reader.now.store.now (steps_of path.now)) labels }
    ensures upper_bound { length result.now ≤ 32 }
{
    let mut k: usize = 0;
    for n in 0..reader.subject + 1 {
        if reader.holds_below(n, path) {
            found[k] = n;
            k += 1;
        }
    }
    &found[..k]
}
