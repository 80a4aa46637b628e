// The pages of queues in their pool.
ghost use Rattle.std.specs.Prelude.{◌≡◌, ℕ, ◌+◌, ◌<◌, ◌≤◌, ◌++◌, ◌∷◌, [], false, true, List, Some, is_some, length, IfOk, OnOk, IfErr, IsTrue, IsSome};
ghost use Rattle.sq_item.specs.declared.Item.{Item};
ghost use Rattle.sq_item.specs.SoundItems.{IsSoundItem};
ghost use Rattle.sq_outside.specs.Disks.{Honest};
ghost use Rattle.sq_outside.specs.Faults.{Rose};
ghost use Rattle.sq_page.specs.Pages.{item_bytes, IsPageOf, EndsAt, ItemBeginsAt, end_of};
ghost use Rattle.sq_pool.specs.Pools.{Agree, bytes_in, is_held, with_bytes};
ghost use Rattle.sq_pool.specs.Trust.{IsLater, Tells, known};
ghost use Rattle.sq_paged.specs.KeptPages.{Appended, Taken, Started, IsFirstOf};
ghost use Rattle.sq_bring.specs.Bringing.{page_seen, IsFit, LeavesOthers, IsCause, IsTold, NoMisfit};

use sq_bring::{Kept, QueueErr, bring_page, failed};
use sq_item::Item;
use sq_outside::PageDisk;
use sq_page::{item_at, item_room, put_item, time_at};
use sq_pool::Pool;
use std::alloc::Global;

/// Writes an item behind those of a page in a frame, and gives their new end.
pub fn append_item(pool: &mut Pool, page: u64, end: u32, item: &Item) -> u32
    requires there { IsSome (bytes_in page pool.old.resident) }
    requires page { (bytes : List ℕ) → bytes_in page pool.old.resident ≡ Some bytes → EndsAt bytes end }
    requires sound { IsSoundItem item.now }
    requires room { end + length (item_bytes item.now) ≤ 8192 }
    ensures end { result ≡ end + length (item_bytes item.now) }
    ensures pool { (bytes : List ℕ) × (pool.new ≡ record pool.old { resident = with_bytes page bytes pool.old.resident })
        × ((before : List ℕ) (items : List Item) → bytes_in page pool.old.resident ≡ Some before → IsPageOf before items → end ≡ end_of items
        → IsPageOf bytes (items ++ item.now ∷ [])) }
{
    put_item(pool.page_mut(page), end, item)
}

/// Puts an item behind the last of a page. Gives what is kept of the page then.
pub fn append_to_page<D: PageDisk>(
    alloc: Global,
    pool: &mut Pool,
    disk: &mut D,
    kept: &Kept,
    item: &Item,
) -> Result<Kept, QueueErr>
    requires held { IsTrue (is_held pool.old kept.now.page) }
    requires agree { Agree pool.old (known (D.log disk.old)) }
    requires fits { IsFit (page_seen pool.old (known (D.log disk.old)) kept.now.page) kept.now }
    requires sound { IsSoundItem item.now }
    requires room { kept.now.end + length (item_bytes item.now) ≤ 8192 }
    ensures ok { IfOk result (λ after. Appended pool.old (known (D.log disk.old)) pool.new (known (D.log disk.new)) kept.now after item.now) }

    // Each refusal.
    ensures disk { IfErr result (λ e. e ≡ QueueErr.Disk → Rose (D.faults disk.old) (D.faults disk.new)) }
    ensures cause { IfErr result (λ e. IsCause pool.old pool.new (D.log disk.old) (D.log disk.new) kept.now e) }
    ensures honest { IfErr result (λ e. Honest (D.log disk.old) → IsTold e) }
    ensures misfit { IfErr result (λ e. Tells (known (D.log disk.new)) → NoMisfit e) }
    ensures later { IsLater (D.log disk.old) (D.log disk.new) }
    ensures faults { D.faults disk.old ≤ D.faults disk.new }
{
    match bring_page(alloc, pool, disk, kept) {
        Ok(()) => {}
        Err(e) => return Err(e),
    }
    let end = append_item(pool, kept.page, kept.end, item);
    Ok(Kept {
        count: kept.count + 1,
        end,
        ..*kept
    })
}

// The time of the item that begins at a place, where another is left behind the one that is taken.
fn next_time(bytes: &[u8], start: u32, count: u16) -> u64
    requires { 2 ≤ count → ItemBeginsAt bytes.now start }
    ensures { 2 ≤ count → (front : List Item) (item : Item) (back : List Item) → IsPageOf bytes.now (front ++ item ∷ back) → start ≡ end_of front
        → result ≡ item.time }
{
    if count < 2 { 0 } else { time_at(bytes, start) }
}

/// Takes the first item of a page that is left there. Gives what is kept of the page then.
pub fn take_from_page<D: PageDisk>(
    alloc: Global,
    pool: &mut Pool,
    disk: &mut D,
    kept: &Kept,
) -> Result<(Item, Kept), QueueErr>
    requires held { IsTrue (is_held pool.old kept.now.page) }
    requires agree { Agree pool.old (known (D.log disk.old)) }
    requires fits { IsFit (page_seen pool.old (known (D.log disk.old)) kept.now.page) kept.now }
    requires some { 1 ≤ kept.now.count }
    ensures ok { IfOk result (λ taken. Taken pool.old (known (D.log disk.old)) pool.new (known (D.log disk.new)) kept.now taken.1 taken.0) }
    ensures sound { IfOk result (λ taken. IsSoundItem taken.0) }
    ensures first { IfOk result (λ taken. IsFirstOf pool.old (D.log disk.old) (D.log disk.new) kept.now taken.0) }

    // Each refusal.
    ensures disk { IfErr result (λ e. e ≡ QueueErr.Disk → Rose (D.faults disk.old) (D.faults disk.new)) }
    ensures cause { IfErr result (λ e. IsCause pool.old pool.new (D.log disk.old) (D.log disk.new) kept.now e) }
    ensures honest { IfErr result (λ e. Honest (D.log disk.old) → IsTold e) }
    ensures misfit { IfErr result (λ e. Tells (known (D.log disk.new)) → NoMisfit e) }
    ensures later { IsLater (D.log disk.old) (D.log disk.new) }
    ensures faults { D.faults disk.old ≤ D.faults disk.new }
{
    match bring_page(alloc, pool, disk, kept) {
        Ok(()) => {}
        Err(e) => return Err(e),
    }
    let bytes = pool.page(kept.page);
    let (item, start) = match item_at(alloc, bytes, kept.start) {
        Ok(found) => found,
        Err(_) => return Err(QueueErr::Memory),
    };
    let time = next_time(bytes, start, kept.count);
    let after = Kept {
        start,
        count: kept.count - 1,
        time,
        ..*kept
    };
    Ok((item, after))
}

/// Puts an item into a new page. Gives what is kept of the page.
pub fn start_page<D: PageDisk>(pool: &mut Pool, disk: &mut D, item: &Item) -> Result<Kept, QueueErr>
    requires agree { Agree pool.old (known (D.log disk.old)) }
    requires sound { IsSoundItem item.now }
    ensures ok { IfOk result (λ kept. Started pool.old (known (D.log disk.old)) pool.new (known (D.log disk.new)) kept item.now) }

    // Each refusal.
    ensures disk { IfErr result (λ e. e ≡ QueueErr.Disk → Rose (D.faults disk.old) (D.faults disk.new)) }
    ensures told { IfErr result IsTold }
    ensures later { IsLater (D.log disk.old) (D.log disk.new) }
    ensures faults { D.faults disk.old ≤ D.faults disk.new }
{
    let _room = item_room(item);
    let page = match pool.make(disk) {
        Ok(page) => page,
        Err(e) => return Err(failed(e)),
    };
    let end = append_item(pool, page, 2, item);
    Ok(Kept {
        page,
        start: 2,
        count: 1,
        end,
        time: item.time,
    })
}

/// Lets a page go.
pub fn let_page_go<D: PageDisk>(pool: &mut Pool, disk: &mut D, page: u64) -> Result<(), QueueErr>
    requires held { IsTrue (is_held pool.old page) }
    requires agree { Agree pool.old (known (D.log disk.old)) }
    ensures ok { OnOk result (LeavesOthers pool.old (known (D.log disk.old)) pool.new (known (D.log disk.new)) page) }
    ensures gone { OnOk result (is_held pool.new page ≡ false) }
    ensures log { OnOk result (is_some (bytes_in page pool.old.resident) ≡ true → D.log disk.new ≡ D.log disk.old) }

    // Each refusal.
    ensures disk { IfErr result (λ e. (e ≡ QueueErr.Disk) × Rose (D.faults disk.old) (D.faults disk.new)) }
    ensures later { IsLater (D.log disk.old) (D.log disk.new) }
    ensures faults { D.faults disk.old ≤ D.faults disk.new }
{
    match pool.drop_page(disk, page) {
        Ok(()) => Ok(()),
        Err(e) => Err(failed(e)),
    }
}
