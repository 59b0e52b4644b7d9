// Elements that stand beside each other in a text: whether no two are equal in name and label.
#![tactic(auto)]

mod blocks;
mod keys;
mod skips;

ghost use Rattle.std.specs.Prelude.{◌≤◌, length, T};
ghost use Rattle.model.specs.Path.{valid_step};
ghost use Rattle.siblings.specs.Differing.{DifferAt, Added};

// Whether the elements that stand at a place, up to the end of the one that they are inside, differ in name or label. The keys of 512 are
// kept at a time, and those of all behind them are compared with them.
pub fn differ_at(text: &[u8], at: usize) -> bool
    requires { at ≤ length text.now }
    ensures { DifferAt text.now at result }
{
    let mut keys = [0u32; 512];
    let mut i = at;
    while let Some((n, next)) = blocks::block_at(text, i, &mut keys) {
        if n < 512 {
            return true;
        }
        if !blocks::others_differ(text, next, &keys) {
            return false;
        }
        i = next;
    }
    false
}

// The number n stands beside the array, since it counts on behind the 32 keys that are kept.
// Takes one more step to the n of a place's first elements, whose keys are kept: whether it differs from them. Behind 32 the text is asked.
pub fn add(text: &[u8], at: usize, keys: &mut [u32; 32], n: usize, name: u64, label: u64) -> bool
    requires { (at ≤ length text.now) × T (valid_step (record { name = name; label = label })) }
    ensures { Added text.now at keys.old n (record { name = name; label = label }) keys.new result }
{
    if 32 < n {
        return true;
    }
    if n == 32 {
        return differ_at(text, at);
    }
    let key = keys::key_of(name, label);
    if keys::is_kept(&keys[..n], key) {
        return false;
    }
    keys[n] = key;
    true
}
