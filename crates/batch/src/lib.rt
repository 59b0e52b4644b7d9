// An input taken in by pieces, its lines carried out on a store.
#![tactic(auto)]

ghost use Rattle.std.specs.Prelude.{◌≡◌, [], ◌∷◌, ◌++◌, ◌≤◌, length, take, replicate};
ghost use Rattle.carry.specs.Lines.{Carried};
ghost use Rattle.batch.specs.Pieces.{last, kept_size, Kept, TakenIn};

use memchr::memchr;

// What is kept of the line begun: the first bytes of the room that there is for it.
#[derive(Drop)]
pub struct Line {
    pub bytes: [u8; 257],
    pub kept: usize,
    ghost fits: { kept ≤ 257 },
}

// What taking in a piece did: the bytes of input that were used, the bytes of output written, and those kept of the line begun.
#[derive(Drop)]
pub struct Taken {
    pub used: usize,
    pub wrote: usize,
    pub kept: usize,
}

impl Line {
    // No line is begun.
    pub fn new() -> Line
        ensures { (result.kept ≡ 0) × (result.bytes ≡ replicate 257 0) }
    {
        Line {
            bytes: [0u8; 257],
            kept: 0,
        }
    }

    // The bytes kept.
    pub fn text(&self) -> &[u8]
        ensures { result.now ≡ take self.now.kept self.now.bytes }
    {
        &self.bytes[..self.kept]
    }

    // Takes in the input up to its first line end, as the function of that name does.
    pub fn take_in(
        &mut self,
        store: &mut [u8],
        input: &[u8],
        path: &mut [u8],
        out: &mut [u8],
    ) -> Taken
        requires { (192 ≤ length path.old) × (16448 ≤ length out.old) }
        ensures { TakenIn (take self.old.kept self.old.bytes) store.old out.old input.now result.used result.wrote self.new.kept self.new.bytes store.new out.new }
    {
        let taken = take_in(store, &mut self.bytes, self.kept, input, path, out);
        self.kept = taken.kept;
        taken
    }
}

// Puts bytes behind the n that are kept of a line, as far as there is room: how many are kept then.
fn keep(line: &mut [u8], n: usize, more: &[u8]) -> usize
    requires { (n ≤ kept_size) × (length line.old ≡ kept_size) }
    ensures { Kept line.old n more.now line.new result }
{
    let m = more.len().min(line.len() - n);
    let end = n + m;
    line[n..end].copy_from_slice(&more[..m]);
    end
}

// Carries out the line that begins with the n bytes kept and ends with those given. Where none are kept nothing is copied.
fn end_line(
    store: &mut [u8],
    line: &mut [u8],
    n: usize,
    more: &[u8],
    path: &mut [u8],
    out: &mut [u8],
) -> usize
    requires n_le_kept_size { (n ≤ kept_size) × (length line.old ≡ kept_size) }
    requires in_bounds { (192 ≤ length path.old) × (16448 ≤ length out.old) }
    ensures { Carried ((take n line.old ++ more.now) ∷ []) store.old out.old result store.new out.new }
{
    if n == 0 {
        return carry::carry_out(store, more, path, out);
    }
    let m = keep(line, n, more);
    carry::carry_out(store, &line[..m], path, out)
}

// Takes in the input up to its first line end: where there is one, the line is carried out; else what there is, is kept.
// The path, and the line behind what is kept, are room to work in.
pub fn take_in(
    store: &mut [u8],
    line: &mut [u8],
    n: usize,
    input: &[u8],
    path: &mut [u8],
    out: &mut [u8],
) -> Taken
    requires n_le_kept_size { (n ≤ kept_size) × (length line.old ≡ kept_size) }
    requires in_bounds { (192 ≤ length path.old) × (16448 ≤ length out.old) }
    ensures { TakenIn (take n line.old) store.old out.old input.now result.used result.wrote result.kept line.new store.new out.new }
{
    let Some(end) = memchr(b'\n', input) else {
        return Taken {
            used: input.len(),
            wrote: 0,
            kept: keep(line, n, input),
        };
    };
    let wrote = end_line(store, line, n, &input[..end], path, out);
    Taken {
        used: end + 1,
        wrote,
        kept: 0,
    }
}

// At the end of the input: a last line without a line end is carried out. How many bytes of output were written. The line is bytes and
// not a `Line`, and the path and the output are slices with a bound: the public contract asks no more of who calls it.
pub fn finish(store: &mut [u8], line: &[u8], path: &mut [u8], out: &mut [u8]) -> usize
    requires { (192 ≤ length path.old) × (16448 ≤ length out.old) }
    ensures { Carried (last line.now) store.old out.old result store.new out.new }
{
    if line.is_empty() {
        return 0;
    }
    carry::carry_out(store, line, path, out)
}
