// The migration of a store of before 7/14 to path order, on lent bytes of any length.
#![tactic(auto)]

ghost use Rattle.std.specs.Prelude.{◌≡◌, not, cond, ◌<◌, length};
ghost use Rattle.model.specs.Partition.{partition_size};
ghost use Rattle.model.specs.Store.{store_size};
ghost use Rattle.model.specs.Migration.{former_well_formed, migrated, migrated_store, migration};
ghost use Rattle.promise.specs.Migrated.{Migrated};
ghost use Rattle.promise.specs.Refusals.{number_of, count_of};

use promise::Refusal;

// Migrates the partition of label n: one that is well formed in the order of before is sorted. The result is its bit, 1 where it is not.
fn migrate_partition(part: &mut [u8], n: u8) -> u32
    requires { (length part.old ≡ partition_size) × (n < 32) }
    ensures value { result ≡ cond (not (former_well_formed n part.old)) 1 0 }
    ensures part_after { part.new ≡ migrated n part.old }
{
    if !(partition::Partition { bytes: part }).is_well_formed_former(n) {
        return 1;
    }
    sorting::sort(part);
    0
}

// Migrates the partitions from the last on: the mask, to which each adds its bit below those of the partitions behind it.
fn migrate_all(store: &mut [u8]) -> u32
    requires { length store.old ≡ store_size }
    ensures value { result ≡ (migration store.old).mask }
    ensures store_after { store.new ≡ migrated_store store.old }
{
    let mut mask: u32 = 0;
    for n in (0..32u8).rev() {
        let start = 1284 * usize::from(n);
        let end = start + 1284;
        mask = 2 * mask + migrate_partition(&mut store[start..end], n);
    }
    mask
}

// Gives each partition that is well formed in the order of before the same elements in path order; each other keeps its bytes. What is told
// is the mask of the others.
pub fn migrate(store: &mut [u8]) -> Result<u32, Refusal>
    ensures { Migrated store.old (record { number = number_of result; mask = count_of result }) store.new }
{
    if store.len() != 41088 {
        return Err(Refusal::StoreLength);
    }
    Ok(migrate_all(store))
}
