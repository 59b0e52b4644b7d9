// The keys of elements: a name and a label as one number.
ghost use Rattle.std.specs.Prelude.{◌≡◌, ◌+◌, ◌*◌, ◌≤◌, length, eqb};
ghost use Rattle.model.specs.Lists.{any};
ghost use Rattle.siblings.specs.Keys.{KeyAt};

// The key of a name and a label.
pub fn key_of(name: u64, label: u64) -> u32
    requires { (name ≤ 65535) × (label ≤ 31) }
    ensures { result ≡ 32 * name + label }
{
    (32 * name + label) as u32
}

// Whether a key is among others. There is no early exit, so that the compiler makes vectors of it.
pub fn is_kept(keys: &[u32], key: u32) -> bool
    ensures { result ≡ any (eqb key) keys.now }
{
    keys.iter().fold(false, |kept, x| kept | (key == *x))
}

// The key of the element that begins at at: its name stands behind <e, and its label behind that and eight bytes more.
pub fn key_at(text: &[u8], at: usize) -> Option<u32>
    requires { at ≤ length text.now }
    ensures { KeyAt text.now at result }
{
    if text.len() - at < 2 {
        return None;
    }
    let (name, gap) = scan::number_at(text, at + 2, 65535)?;
    if text.len() - gap < 8 {
        return None;
    }
    let (label, _) = scan::number_at(text, gap + 8, 31)?;
    Some(key_of(name, label))
}
