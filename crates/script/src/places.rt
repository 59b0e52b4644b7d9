// Where a field of a line ends.
ghost use Rattle.std.specs.Prelude.{◌≡◌, drop};
ghost use Rattle.script.specs.Text.{closes};

// Whether a field ends at at: by a tab or with the line.
pub fn is_closed(line: &[u8], at: usize) -> bool
    ensures { result ≡ closes (drop at line.now) }
{
    line.len() <= at || line[at] == b'\t'
}
