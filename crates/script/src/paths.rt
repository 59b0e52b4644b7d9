// Paths as they stand in a line: steps parted by /, each a name and a label parted by a colon; a lone / is the empty path.
ghost use Rattle.std.specs.Prelude.{◌≤◌, length};
ghost use Rattle.script.specs.Paths.{StepAt, StepsAt, PathAt};

use crate::places;

// The step that begins at at: its name and label, and where it ends.
fn step_at(line: &[u8], at: usize) -> Option<(u64, u64, usize)>
    requires { at ≤ length line.now }
    ensures { StepAt line.now at result }
{
    let (name, colon) = scan::number_at(line, at, 65535)?;
    if !scan::holds(line, colon, b':') {
        return None;
    }
    let (label, next) = scan::number_at(line, colon + 1, 255)?;
    Some((name, label, next))
}

// The steps that begin at at, one or more, up to a tab or the line's end: how many, and where they end. It loops by a place of its own,
// as only the end of a step tells where the next begins: an iterator would need a type for it, and is no plainer.
fn steps_at(line: &[u8], at: usize, path: &mut [u8]) -> Option<(usize, usize)>
    requires at_in_bounds { (at ≤ length line.now) × (length line.now ≤ 256) }
    requires in_bounds { 192 ≤ length path.old }
    ensures { StepsAt line.now at path.new result }
{
    let mut i = at;
    let mut n: usize = 0;
    loop {
        let (name, label, next) = step_at(line, i)?;
        path::put_step(path, n, name, label);
        n += 1;
        if places::is_closed(line, next) {
            return Some((n, next));
        }
        if !scan::holds(line, next, b'/') {
            return None;
        }
        i = next + 1;
    }
}

// The path that begins at at, up to a tab or the line's end: how many steps it has, and where it ends.
pub fn path_at(line: &[u8], at: usize, path: &mut [u8]) -> Option<(usize, usize)>
    requires at_in_bounds { (at ≤ length line.now) × (length line.now ≤ 256) }
    requires in_bounds { 192 ≤ length path.old }
    ensures { PathAt line.now at path.new result }
{
    if !scan::holds(line, at, b'/') {
        return steps_at(line, at, path);
    }
    if !places::is_closed(line, at + 1) {
        return None;
    }
    Some((0, at + 1))
}
