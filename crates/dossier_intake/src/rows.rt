// Rows 7 to 9 of a tree that comes, and the path of its own element.
ghost use Rattle.std.specs.Prelude.{◌≡◌, ◌%◌, ◌≤◌, length};
ghost use Rattle.promise.specs.Refusals.{number_of};
ghost use Rattle.dossier_intake.specs.Taking.{TopPath, TreeRow};

use promise::Refusal;
use store::Reader;

// Writes the path of a tree's own element into a buffer: the parent's, and the element's step behind it.
pub fn put_top(path: &[u8], name: u64, label: u8, buffer: &mut [u8; 18])
    requires { (length path.now % 3 ≡ 0) × (length path.now ≤ 15) × (name ≤ 65535) }
    ensures { TopPath path.now (record { name = name; label = label }) buffer.new }
{
    buffer[..path.len()].copy_from_slice(path);
    path::put_step(buffer, path.len() / 3, name, u64::from(label));
}

// Rows 7 to 9: the parent is in view, the tree's own element is not there, and slots are free for all elements.
pub fn check_tree(
    reader: &Reader<'_>,
    parent: &[u8],
    path: &[u8],
    count: usize,
) -> Result<(), Refusal>
    ensures { TreeRow reader.now.subject reader.now.store.now parent.now path.now count (number_of result) }
{
    if !reader.in_view(parent) {
        return Err(Refusal::Absent);
    }
    let part = reader.partition_of(reader.subject);
    if let Ok(_) = part.find(path) {
        return Err(Refusal::Live);
    }
    let used = part.count();
    if 32 - used < count {
        return Err(Refusal::Full);
    }
    Ok(())
}
