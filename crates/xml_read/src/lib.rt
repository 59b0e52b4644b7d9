// A tree read from a text. An element and the elements inside it are read by functions that call each other, at most six elements deep.
// Kept are a value while it is read, the keys of the first 32 elements inside each that is open, and of the first 32 elements of all what
// is needed to put them in.
#![tactic(auto)]

ghost use Rattle.std.specs.Prelude.{◌≡◌, ◌&&◌, [], ◌∷◌, ◌+◌, ◌≤◌, length};
ghost use Rattle.xml_read.specs.Records.{Marked};
ghost use Rattle.xml_read.specs.Trees.{own_shown, HeadAt, TreeAt, PartAt, SentBy};

use kind::Kind;

// What is kept of an element: how many steps are above it, its name, what it shows, and where its value begins.
#[derive(Clone, Copy)]
pub struct Mark {
    pub steps: usize,
    pub name: u64,
    pub shown: Option<Kind>,
    pub place: usize,
}

// An element's step, what it shows, and where its value begins and ends.
#[derive(Drop)]
struct Head {
    name: u64,
    label: u64,
    shown: Option<Kind>,
    value: usize,
    next: usize,
}

// A tree: its step, where it ends, how many elements it has, and whether each is live and bears the subject's label.
#[derive(Drop)]
pub struct Tree {
    pub name: u64,
    pub label: u64,
    pub next: usize,
    pub count: usize,
    pub own: bool,
}

// The trees inside an element: where they end, how many elements they have, and whether each is live and bears the subject's label.
#[derive(Drop)]
struct Part {
    next: usize,
    count: usize,
    own: bool,
}

// The tag and the value of an element at a place.
fn head_at(text: &[u8], at: usize) -> Option<Head>
    requires { at ≤ length text.now }
    ensures { HeadAt text.now at result }
{
    let tag = scan_tag::tag_at(text, at)?;
    let mut value = [0u8; 16];
    let (_, next) = scan_value::value_at(text, tag.next, tag.shown, &mut value)?;
    Some(Head {
        name: tag.name,
        label: tag.label,
        shown: tag.shown,
        value: tag.next,
        next,
    })
}

// Whether an element that shows a kind is live and bears the subject's label, and so do those inside it.
fn is_own(shown: Option<Kind>, label: u64, subject: u64, inside: bool) -> bool
    ensures { result ≡ own_shown shown label subject inside }
{
    shown.is_some() && label == subject && inside
}

// Keeps an element's mark, if fewer than 32 elements are before it.
fn note(marks: &mut [Mark; 32], k: usize, mark: Mark)
    ensures { Marked marks.old k marks.new (mark ∷ []) }
{
    if k < 32 {
        marks[k] = mark;
    }
}

// The tree at a place, below so many steps and behind k elements. The number k stands beside the array, since it counts on behind the 32 marks
// that are kept.
#[cycle(inside_at_tree_at)]
fn tree_at(
    text: &[u8],
    at: usize,
    depth: usize,
    subject: u64,
    marks: &mut [Mark; 32],
    k: usize,
) -> Option<Tree>
    requires { (at ≤ length text.now) × (k ≤ at) }
    ensures { TreeAt text.now at depth subject (Marked marks.old k marks.new) result }
{
    if 6 <= depth {
        return None;
    }
    let head = head_at(text, at)?;
    let mark = Mark {
        steps: depth,
        name: head.name,
        shown: head.shown,
        place: head.value,
    };
    note(marks, k, mark);
    let inside = inside_at(text, head.next, depth + 1, subject, marks, k + 1)?;
    let next = scan_tag::end_at(text, inside.next, head.name)?;
    Some(Tree {
        name: head.name,
        label: head.label,
        next,
        count: inside.count + 1,
        own: is_own(head.shown, head.label, subject, inside.own),
    })
}

// What was read, and a tree behind it.
fn with_tree(p: Part, t: Tree) -> Part
    requires { p.count + t.count ≤ 18446744073709551615 }
    ensures { (result.next ≡ t.next) × (result.count ≡ p.count + t.count) × (result.own ≡ (p.own && t.own)) }
{
    Part {
        next: t.next,
        count: p.count + t.count,
        own: p.own && t.own,
    }
}

// The trees from a place on, behind k elements, up to an end tag.
#[cycle(inside_at_tree_at)]
fn inside_at(
    text: &[u8],
    at: usize,
    depth: usize,
    subject: u64,
    marks: &mut [Mark; 32],
    k: usize,
) -> Option<Part>
    requires { (at ≤ length text.now) × (k ≤ at) }
    ensures { PartAt text.now at depth subject (Marked marks.old k marks.new) result }
{
    let mut keys = [0u32; 32];
    let mut n: usize = 0;
    let mut p = Part {
        next: at,
        count: 0,
        own: true,
    };
    // A `while`: where the next tree begins is known only when one has been read.
    while !scan::starts(text, p.next, b"</") {
        let t = tree_at(text, p.next, depth, subject, marks, k + p.count)?;
        if !siblings::add(text, at, &mut keys, n, t.name, t.label) {
            return None;
        }
        p = with_tree(p, t);
        n += 1;
    }
    Some(p)
}

// The tree that a whole text sends, to be put below so many steps; its first 32 elements are kept.
pub fn read(text: &[u8], above: usize, subject: u8, marks: &mut [Mark]) -> Option<Tree>
    requires { length marks.old ≡ 32 }
    ensures { SentBy above subject text.now marks.new result }
{
    let Some(kept) = marks.as_mut_array() else {
        unreachable!()
    };
    let t = tree_at(text, 0, above, u64::from(subject), kept, 0)?;
    if t.next < text.len() {
        return None;
    }
    Some(t)
}
