// The fields of a record's head: byte 0 what is to be done, 1 the length of the first text, 2 and 3 that of the second, then from byte
// 4 on three words: the store's length; a subject or a place; a kind, a number of sizes or the output's length. Of each number the
// lowest byte is the first.
ghost use Rattle.std.specs.Prelude.{◌≡◌, ◌+◌, ◌*◌, ◌≤◌, get_or};

// A record: its head and its two texts.
#[derive(Clone, Copy)]
pub struct Record<'a> {
    pub head: &'a [u8; 16],
    pub first: &'a [u8],
    pub second: &'a [u8],
}

// The length of the first text.
pub fn first_length(head: &[u8; 16]) -> usize
    ensures { (result ≡ get_or head.now 1 0) × (result ≤ 255) }
{
    usize::from(head[1])
}

// The length of the second text.
pub fn second_length(head: &[u8; 16]) -> usize
    ensures { (result ≡ get_or head.now 2 0 + 256 * get_or head.now 3 0) × (result ≤ 65535) }
{
    usize::from(head[2]) + 256 * usize::from(head[3])
}

impl Record<'_> {
    // The subject of a call.
    pub fn subject(self) -> u32
        ensures { result ≡ get_or self.entry.head.now 8 0 + 256 * get_or self.entry.head.now 9 0 + 65536 * get_or self.entry.head.now 10 0 + 16777216 * get_or self.entry.head.now 11 0 }
    {
        let head = self.head;
        u32::from_le_bytes([head[8], head[9], head[10], head[11]])
    }

    // The last word: a kind or a number of sizes.
    pub fn third(self) -> u32
        ensures { result ≡ get_or self.entry.head.now 12 0 + 256 * get_or self.entry.head.now 13 0 + 65536 * get_or self.entry.head.now 14 0 + 16777216 * get_or self.entry.head.now 15 0 }
    {
        let head = self.head;
        u32::from_le_bytes([head[12], head[13], head[14], head[15]])
    }

    // The place from which on bytes come onto the store, at most a bound.
    pub fn offset(self, most: usize) -> usize
        ensures { result ≤ most }
    {
        most.min(self.subject() as usize)
    }

    // The length of the output, at most a bound.
    pub fn output_length(self, most: usize) -> usize
        ensures { result ≤ most }
    {
        most.min(self.third() as usize)
    }

    // The length of the store, at most a bound.
    pub fn store_length(self, most: usize) -> usize
        ensures { result ≤ most }
    {
        let head = self.head;
        most.min(u32::from_le_bytes([head[4], head[5], head[6], head[7]]) as usize)
    }
}
