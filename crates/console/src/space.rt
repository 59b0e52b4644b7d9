// The room that a script is taken in with.
ghost use Rattle.std.specs.Prelude.{◌≤◌};

use batch::Line;

// What is kept of the line begun, a path, and the output, of which the first bytes are not yet written.
#[derive(Drop)]
pub struct Room {
    pub line: Line,
    pub path: [u8; 192],
    pub out: [u8; 65536],
    pub at: usize,
    ghost fits: { at ≤ 65536 },
}
