// What is kept of what the system knows of a file: which one it is, of what kind, whose, how long, and when it was last changed.
ghost use Rattle.std.specs.Prelude.{◌≡◌, ◌%◌, ◌↔◌, IsTrue, IsNone, IfSome, Some};

// A time as the system tells it: seconds since the beginning of 1970, and nanoseconds within the second.
#[derive(Clone, Copy, PartialEq, Eq)]
pub struct Time {
    pub seconds: i64,
    pub nanoseconds: i64,
}

// What is kept of what the system says: the owner, the group, the mode, which is the kind and twelve bits of rights, the device and the
// number of the file there, its length, and when its bytes and what is known of it were last changed.
#[derive(Clone, Copy, PartialEq, Eq)]
pub struct Known {
    pub owner: u32,
    pub group: u32,
    pub mode: u32,
    pub device: u64,
    pub inode: u64,
    pub size: i64,
    pub written: Time,
    pub changed: Time,
}

// Whose a file is to be, and its twelve bits of rights. Where there is no owner or no group, it is to stay as it comes.
#[derive(Clone, Copy, PartialEq, Eq)]
pub struct Rights {
    pub owner: Option<u32>,
    pub group: Option<u32>,
    pub mode: u32,
}

// The rights of the file that is put in the place of one of which this is known. Where there is none it is a new store's: its owner's
// alone.
pub fn rights_beside(read: Option<Known>) -> Rights
    ensures new { IsNone read → (IsNone result.owner × IsNone result.group × (result.mode ≡ 384)) }
    ensures old { IfSome read (λ known. (result.owner ≡ Some known.owner) × (result.group ≡ Some known.group) × (result.mode ≡ known.mode % 4096)) }
{
    match read {
        None => Rights {
            owner: None,
            group: None,
            mode: 0o600,
        },
        Some(known) => Rights {
            owner: Some(known.owner),
            group: Some(known.group),
            mode: known.mode & 0o7777,
        },
    }
}

// Whether two are the same in every field, or no file both times. It is a function so that a clause refuses an equality that leaves a
// field out.
pub fn same(a: Option<Known>, b: Option<Known>) -> bool
    ensures { IsTrue result ↔ (a ≡ b) }
{
    a == b
}
