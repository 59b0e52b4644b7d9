// Files by their names: the names that are made of a store's, what a word tells before it is taken for a name, and (`about`) what is kept
// of what the system knows of a file.
#![tactic(auto)]

pub mod about;

ghost use Rattle.std.specs.Prelude.{◌≡◌, ◌↔◌, ◌+◌, ◌≤◌, length, take, Some, IsTrue, IfSome, IfNone, slice_get};
ghost use Rattle.file_names.specs.Names.{new_name, last_slash, for_c, is_dashed, AsksHelp, Ended};

// Whether a word asks for help: it is -h or --help.
pub fn asks_help(word: &[u8]) -> bool
    ensures { IsTrue result ↔ AsksHelp word.now }
{
    word == b"-h".as_slice() || word == b"--help".as_slice()
}

// Whether a word begins with a dash, as options do.
pub fn is_dashed(word: &[u8]) -> bool
    ensures { result ≡ is_dashed word.now }
{
    word.first() == Some(&b'-')
}

// Puts the name of a new file beside the store's, with six letters X that are replaced when it is made. Yields its length.
pub fn put_new(name: &[u8], space: &mut [u8]) -> usize
    requires { (length name.now ≤ 4088) × (length space.old ≡ 4096) }
    ensures { (result ≡ length name.now + 7) × (take result space.new ≡ new_name name.now) }
{
    let n = name.len();
    space[..n].copy_from_slice(name);
    let end = n + 7;
    space[n..end].copy_from_slice(b".XXXXXX");
    end
}

// Where the last slash of a name stands, if it has one.
pub fn last_slash(name: &[u8]) -> Option<usize>
    ensures slash { IfSome result (λ i. (i ≡ last_slash name.now) × (slice_get name.now i ≡ Some 47)) }
    ensures none { IfNone result (last_slash name.now ≡ length name.now) }
{
    name.iter().rposition(|byte| *byte == b'/')
}

// The name as C takes it, with zeros behind it.
pub fn ended(name: &[u8]) -> [u8; 4096]
    requires { length name.now ≤ 4088 }
    ensures { (result ≡ for_c name.now) × Ended result }
{
    let mut path = [0u8; 4096];
    path[..name.len()].copy_from_slice(name);
    path
}
