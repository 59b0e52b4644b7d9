// Numbers in decimal, as they stand in a text.
ghost use Rattle.std.specs.Prelude.{◌≡◌, ◌-◌, ◌≤◌, ◌<◌, length};
ghost use Rattle.model.specs.Lists.{between};
ghost use Rattle.model.specs.Text.{is_digit, no_leading_zero};
ghost use Rattle.scan.specs.Numbers.{Run, NumberAt};

// Whether a byte is a digit.
#[tactic(auto, unfolding(model::specs::Text::is_digit))]
fn is_digit(x: u8) -> bool
    ensures { result ≡ is_digit x }
{
    x.is_ascii_digit()
}

// The number that a digit stands for.
fn digit(x: u8) -> u64
    requires { 48 ≤ x }
    ensures { (result ≡ x - 48) × (result < 256) }
{
    u64::from(x - b'0')
}

// The digits from at on, up to one that makes the number greater than most: what they stand for, and where they end.
fn digits_at(text: &[u8], at: usize, most: u64) -> (u64, usize)
    requires at_in_bounds { at ≤ length text.now }
    requires most_bound { most < 4294967296 }
    ensures { Run most text.now at result.0 result.1 }
{
    let mut value: u64 = 0;
    for i in at..text.len() {
        if most < value || !is_digit(text[i]) {
            return (value, i);
        }
        value = value * 10 + digit(text[i]);
    }
    (value, text.len())
}

// Whether there are digits from at to end, and no zero before others.
fn is_led(text: &[u8], at: usize, end: usize) -> bool
    requires { (at ≤ end) × (end ≤ length text.now) }
    ensures { result ≡ no_leading_zero (between at end text.now) }
{
    if end == at {
        return false;
    }
    if end == at + 1 {
        return true;
    }
    text[at] != b'0'
}

// The number that begins at at, and where it ends: at most most, without a leading zero, and no digit behind it.
pub fn number_at(text: &[u8], at: usize, most: u64) -> Option<(u64, usize)>
    requires at_in_bounds { at ≤ length text.now }
    requires most_bound { most < 4294967296 }
    ensures { NumberAt most text.now at result }
{
    let (value, end) = digits_at(text, at, most);
    if most < value {
        return None;
    }
    if !is_led(text, at, end) {
        return None;
    }
    Some((value, end))
}
