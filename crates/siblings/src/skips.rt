// Passing over an element, with all that is inside it.
ghost use Rattle.std.specs.Prelude.{◌≡◌, ◌≤◌, ◌<◌, length};
ghost use Rattle.siblings.specs.Skips.{Depth, ends, Skipped};

// How many elements are open behind the byte at at, where depth are before it: the < of an end tag closes one, any other < opens one.
fn depth_behind(text: &[u8], at: usize, depth: usize) -> usize
    requires { (at < length text.now) × (depth ≤ at) }
    ensures { Depth text.now at depth result }
{
    if text[at] != b'<' {
        return depth;
    }
    if !scan::holds(text, at + 1, b'/') {
        return depth + 1;
    }
    depth.saturating_sub(1)
}

// Whether a byte ends the element: the > of a tag behind which none is open.
#[tactic(auto, unfolding(crate::specs::Skips::ends))]
fn is_end(x: u8, depth: usize) -> bool
    ensures { result ≡ ends depth x }
{
    x == b'>' && depth == 0
}

// Where the element that begins at at ends.
pub fn skip(text: &[u8], at: usize) -> usize
    requires { at < length text.now }
    ensures { Skipped text.now at result }
{
    let mut depth: usize = 0;
    for i in at..text.len() {
        if is_end(text[i], depth) {
            return i + 1;
        }
        depth = depth_behind(text, i, depth);
    }
    text.len()
}
