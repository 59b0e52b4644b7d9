// Labels: which dominates which.
#![tactic(auto)]

ghost use Rattle.std.specs.Prelude.{◌≡◌};
ghost use Rattle.model.specs.Label.{dominates};

// Whether a and b are labels and a dominates b. Both are bytes and no type of labels: a byte of a path is any number until this test, so
// such a type would be made by the same comparison and asked for nowhere else, and is no plainer.
pub fn dominates(a: u8, b: u8) -> bool
    ensures { result ≡ dominates a b }
{
    (a < 32) & (b < 32) & (b / 8 <= a / 8) & ((a % 8) & (b % 8) == b % 8)
}
