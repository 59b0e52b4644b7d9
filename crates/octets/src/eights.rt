// The zero test of whole slots, eight bytes a step.
ghost use Rattle.std.specs.Prelude.{◌≡◌, ◌%◌, length};
ghost use Rattle.model.specs.Lists.{all_zero};
ghost use Rattle.model.specs.Slot.{slot_size};
ghost use Rattle.octets.specs.Joined.{number_of};

// Eight bytes joined to one number: the first is the lowest.
fn joined(s: &[u8]) -> u64
    requires { length s.now ≡ 8 }
    ensures { result ≡ number_of s.now }
{
    u64::from_le_bytes([s[0], s[1], s[2], s[3], s[4], s[5], s[6], s[7]])
}

// Whether every byte of whole slots is 0: a step joins eight bytes and tests the number. One that is not 0 is or-ed in and does not end
// the loop: without an early exit the compiler makes vectors of it.
pub fn slots_zero(s: &[u8]) -> bool
    requires { length s.now % slot_size ≡ 0 }
    ensures { result ≡ all_zero s.now }
{
    let mut used: u64 = 0;
    for eight in s.chunks_exact(8) {
        used |= joined(eight);
    }
    used == 0
}
