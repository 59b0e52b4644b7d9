// Bytes joined, and small loops on byte slices.
#![tactic(auto)]

mod eights;

ghost use Rattle.std.specs.Prelude.{◌≡◌, [], ◌∷◌, ◌++◌, ◌-◌, ◌≤◌, ◌<◌, length, take, drop, replicate};
ghost use Rattle.model.specs.Lists.{all_zero};
ghost use Rattle.octets.specs.Joined.{number_of, word_bytes};

pub use eights::slots_zero;

// The word of four bytes, the first the lowest.
pub fn word(a: u8, b: u8, c: u8, d: u8) -> u32
    ensures { result ≡ number_of (a ∷ b ∷ c ∷ d ∷ []) }
{
    u32::from_le_bytes([a, b, c, d])
}

// Writes the four bytes of a word, the lowest first.
pub fn put_word(m: u32, bytes: &mut [u8])
    requires { 4 ≤ length bytes.old }
    ensures { bytes.new ≡ word_bytes m ++ drop 4 bytes.old }
{
    bytes[..4].copy_from_slice(&m.to_le_bytes());
}

// Whether the bytes from a place on are 0. Every byte is visited, with no early exit, so that a loop of known length is unrolled.
pub fn tail_zero(s: &[u8], from: usize) -> bool
    ensures { result ≡ all_zero (drop from s.now) }
{
    let mut acc: u8 = 0;
    for (i, x) in s.iter().enumerate() {
        if from <= i {
            acc |= *x;
        }
    }
    acc == 0
}

// Whether every byte is 0.
pub fn is_zero(s: &[u8]) -> bool
    ensures { result ≡ all_zero s.now }
{
    tail_zero(s, 0)
}

// Moves the bytes up by k places: the first k stay, the last k are lost.
pub fn shift_up(s: &mut [u8], k: usize)
    requires { k ≤ length s.old }
    ensures { s.new ≡ take k s.old ++ take (length s.old - k) s.old }
{
    let kept = s.len() - k;
    s.copy_within(..kept, k);
}

// Moves the bytes down by k places: the first k are lost, and k zeros come in at the end.
pub fn shift_down(s: &mut [u8], k: usize)
    requires { k ≤ length s.old }
    ensures { s.new ≡ drop k s.old ++ replicate k 0 }
{
    move_down(s, k);
    let kept = s.len() - k;
    s[kept..].fill(0);
}

// Moves the bytes down by k places: the last k stay.
pub fn move_down(s: &mut [u8], k: usize)
    requires { k ≤ length s.old }
    ensures { s.new ≡ drop k s.old ++ drop (length s.old - k) s.old }
{
    s.copy_within(k.., 0);
}
