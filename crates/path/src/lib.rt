// Paths that a caller lends, three bytes a step, the name lowest byte first, then the label; and the keys by which steps are ordered.
#![tactic(auto)]

ghost use Rattle.std.specs.Prelude.{◌≡◌, List, ℕ, ◌+◌, ◌*◌, ◌/◌, ◌≤◌, ◌<◌, length, T};
ghost use Rattle.model.specs.Path.{Step, ends_in, steps_of, key, former_key};
ghost use Rattle.model.specs.Rows.{good_path};
ghost use Rattle.model.proofs.Paths.{Keyed, key-keyed, former-keyed};
ghost use Rattle.path.specs.Steps.{step_with, step_of, lent_step, may_follow, all_follow, KeyOf, put_step};

// An order of steps, by keys.
pub trait StepOrder {
    ghost key: { Step → List ℕ };

    // The key of a step, as one number.
    fn step_key(name: u32, label: u8) -> u32
        requires { name < 65536 }
        ensures { KeyOf key (step_with name label) result };

    // What the proofs need of every key: different steps have different keys, and all keys have one length.
    ghost keyed: { Keyed key };
}

// Path order: the name, then the level from high to low, then the label. No other code knows the order.
pub struct PathOrder;

impl StepOrder for PathOrder {
    ghost key = { key };

    ghost keyed = { key-keyed };

    fn step_key(name: u32, label: u8) -> u32 {
        let l = u32::from(label);
        let down = 3u32.saturating_sub(l / 8);
        l + 256 * down + 65536 * name
    }
}

// The order of before 7/14: the name, then the label.
pub struct FormerOrder;

impl StepOrder for FormerOrder {
    ghost key = { former_key };

    ghost keyed = { former-keyed };

    fn step_key(name: u32, label: u8) -> u32 {
        u32::from(label) + 256 * name
    }
}

// What has steps that can be read one by one: a lent path, or the path in a slot.
pub trait HasSteps: Copy {
    ghost number: { Self → ℕ };

    ghost step: { Self → ℕ → Step };

    // The number of steps.
    fn count(self) -> usize
        ensures { result ≡ number self };

    // The name of step i.
    fn name(self, i: usize) -> u32
        requires { i < number self }
        ensures { (result ≡ (step self i).name) × (result < 65536) };

    // The label of step i.
    fn label(self, i: usize) -> u8
        requires { i < number self }
        ensures { result ≡ (step self i).label };
}

// A path that a caller lends.
#[derive(Clone, Copy)]
pub struct LentPath<'a> {
    pub bytes: &'a [u8],
}

impl HasSteps for LentPath<'_> {
    ghost number = { λ p. length p.bytes.now / 3 };

    ghost step = { λ p. lent_step p.bytes.now };

    fn count(self) -> usize {
        self.bytes.len() / 3
    }

    fn name(self, i: usize) -> u32 {
        u32::from(self.bytes[3 * i]) + 256 * u32::from(self.bytes[3 * i + 1])
    }

    fn label(self, i: usize) -> u8 {
        self.bytes[3 * i + 2]
    }
}

// Whether a step is valid and may follow one with the label before.
pub fn may_follow(before: u8, lo: u8, hi: u8, label: u8) -> bool
    ensures { result ≡ may_follow before (step_of lo hi label) }
{
    if lo == 0 {
        if hi == 0 {
            return false;
        }
        return label::dominates(label, before);
    }
    label::dominates(label, before)
}

// Whether the steps of a lent path are valid and their labels ascend.
fn steps_follow(path: &[u8]) -> bool
    ensures { result ≡ all_follow 0 (steps_of path.now) }
{
    let mut before: u8 = 0;
    for i in 0..path.len() / 3 {
        if !may_follow(before, path[3 * i], path[3 * i + 1], path[3 * i + 2]) {
            return false;
        }
        before = path[3 * i + 2];
    }
    true
}

// Whether lent bytes are a path of one to six valid steps: if not, the call is refused with 4.
pub fn is_path(path: &[u8]) -> bool
    ensures { result ≡ good_path path.now }
{
    let n = path.len();
    if n % 3 != 0 {
        return false;
    }
    if n < 3 {
        return false;
    }
    if 18 < n {
        return false;
    }
    steps_follow(path)
}

// Whether the last label of a path is n.
pub fn ends_in(path: &[u8], n: u8) -> bool
    requires { T (good_path path.now) }
    ensures { result ≡ ends_in n (steps_of path.now) }
{
    path[path.len() - 1] == n
}

// Writes step n into a buffer: the name, lowest byte first, and the label.
pub fn put_step(buffer: &mut [u8], n: usize, name: u64, label: u64)
    requires n_in_bounds { 3 * n + 3 ≤ length buffer.old }
    requires name_bound { (name ≤ 65535) × (label ≤ 255) }
    ensures { buffer.new ≡ put_step buffer.old n name label }
{
    buffer[3 * n] = (name % 256) as u8;
    buffer[3 * n + 1] = (name / 256) as u8;
    buffer[3 * n + 2] = label as u8;
}
