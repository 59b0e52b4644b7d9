// The elements of a group, 512 at a time.
ghost use Rattle.std.specs.Prelude.{◌≤◌, length};
ghost use Rattle.siblings.specs.Blocks.{BlockAt, OthersDiffer};

use crate::{keys, skips};

// The keys of the elements at at, 512 or all that there are; each is compared with those before it. If no two are equal: how many they are, and
// where the elements behind theirs begin.
pub fn block_at(text: &[u8], at: usize, keys: &mut [u32; 512]) -> Option<(usize, usize)>
    requires { at ≤ length text.now }
    ensures { BlockAt text.now at keys.new result }
{
    let mut i = at;
    for n in 0..512 {
        let Some(key) = keys::key_at(text, i) else {
            return Some((n, i));
        };
        if keys::is_kept(&keys[..n], key) {
            return None;
        }
        keys[n] = key;
        i = skips::skip(text, i);
    }
    Some((512, i))
}

// Whether none of the elements at at has one of the keys.
pub fn others_differ(text: &[u8], at: usize, keys: &[u32; 512]) -> bool
    requires { at ≤ length text.now }
    ensures { OthersDiffer text.now at keys.now result }
{
    let mut i = at;
    while let Some(key) = keys::key_at(text, i) {
        if keys::is_kept(keys, key) {
            return false;
        }
        i = skips::skip(text, i);
    }
    true
}
