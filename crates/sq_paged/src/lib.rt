//! Queues of items that are all in pages, one queue for each arc.
//!
//! The contract is the trait `ArcQueues`, in two parts. Over every disk the queues know each arc's face: how many items stand
//! there, the time of the first, and whether the arc has ended. Where the pages of the disk are known, queues and disk together
//! stand for one list of items for each arc: `push` and `send` append to one list, `pop` takes its first, and all others stay.
//! They are known where the disk is honest, and where no page came back changed with the digest of what was put. At most `frames`
//! pages are in memory, a page of which no item is left leaves the pool, and a page that comes back from the disk is tested before an item
//! of it is handed on. Below stand items, pages that are brought back, linked lists, the pool and the disk.
#![tactic(auto)]

ghost use Rattle.std.specs.Prelude.{◌≡◌, ◌≢◌, ℕ, ◌+◌, ◌-◌, ◌<◌, ◌≤◌, ◌++◌, ◌∷◌, [], true, false, Option, Some, None, length, is_some, option_map, IfOk, OnOk, OnErr, IfErr, IfSome, replicate};
ghost use Rattle.sq_words.specs.Lists.{nth};
ghost use Rattle.sq_item.specs.SoundItems.{IsSoundItem};
ghost use Rattle.sq_outside.specs.Disks.{Honest, Pages};
ghost use Rattle.sq_outside.specs.Faults.{Rose};
ghost use Rattle.sq_paged.specs.Fronts.{head_by};
ghost use Rattle.sq_pool.specs.Trust.{IsLater, Tells, known};
ghost use Rattle.sq_paged.specs.KeptPages.{IsFirstOf};
ghost use Rattle.sq_bring.specs.Bringing.{IsTold, IsCause, NoMisfit};
ghost use Rattle.sq_paged.specs.Faces.{paged_face, paged_size, paged_frames, paged_frames as frames_of, paged_resident_of, paged_items_on, PagedTogether, no_items, last_if, IsKeptPage, kept_at, IsPagedRefusal, SameTables, IsFirstPaged};
ghost use Rattle.sq_paged.specs.Steps.{AppendsAt, TakesAt, StartsAt, DropsAt, AddsItem, Removes};
ghost use Rattle.sq_page.specs.Pages.{item_bytes};
ghost use Rattle.sq_pool.specs.Pools.{Agree, bytes_in, is_held};
ghost use Rattle.sq_link.specs.ChainLists.{IsLoose, head_or};

mod contract;
mod store;

pub use contract::ArcQueues;
use sq_bring::Kept;
pub use sq_bring::QueueErr;
use sq_item::Item;
use sq_link::Chains;
use sq_outside::PageDisk;
use sq_page::item_room;
use sq_pool::Pool;
use std::alloc::{AllocError, Global};
use store::{append_to_page, let_page_go, start_page, take_from_page};

/// What stands first on an arc.
#[derive(Clone, Copy, PartialEq, Eq, Drop)]
pub enum Head {
    /// An item of this time. More may follow.
    Time(u64),
    /// Nothing yet.
    Empty,
    /// Nothing, and nothing more will come.
    Ended,
}

// What is kept of an arc: how many items stand there, the time of the first, the node of its last page.
#[derive(Clone, Copy, Drop)]
struct Lane {
    count: u64,
    first: Option<u64>,
    last: Option<u64>,
    ended: bool,
}

const NO_ITEMS: Lane = Lane {
    count: 0,
    first: None,
    last: None,
    ended: false,
};

const NO_PAGE: Kept = Kept {
    page: 0,
    start: 0,
    count: 0,
    end: 0,
    time: 0,
};

/// A queue of items for each arc.
pub struct Queues {
    alloc: Global,
    pool: Pool,
    // The pages of an arc are its list. Of the page of each node it is kept what is left there.
    chains: Chains,
    kept: Vec<Kept>,
    lanes: Vec<Lane>,
}

/// By hand, so that a proof above meets one call where queues are let go, and not each thing in them.
impl Drop for Queues {
    fn drop(self) {
        let Queues {
            alloc: _alloc,
            pool: _pool,
            chains: _chains,
            kept: _kept,
            lanes: _lanes,
        } = self;
    }
}

fn empty_lanes(alloc: Global, arcs: usize) -> Result<Vec<Lane>, AllocError>
    ensures { IfOk result (λ lanes. lanes.items ≡ replicate arcs no_items) }
{
    let mut lanes = Vec::new(alloc);
    lanes.resize(arcs, NO_ITEMS)?;
    Ok(lanes)
}

impl Queues {
    /// Empty queues for so many arcs, none of which has ended, with `frames` pages in memory at most.
    pub fn new(alloc: Global, arcs: u32, frames: u32) -> Result<Queues, AllocError>
        requires { 2 ≤ frames }
        ensures size { IfOk result (λ q. paged_size q ≡ arcs) }
        ensures frames { IfOk result (λ q. frames_of q ≡ frames) }
        ensures faces { IfOk result (λ q. (arc : ℕ) → paged_face q arc ≡ record { count = 0; first = None; ended = false }) }
        ensures items { IfOk result (λ q. (pages : Option Pages) (arc : ℕ) → paged_items_on q pages arc ≡ []) }
        ensures together { IfOk result (λ q. (pages : Option Pages) → PagedTogether q pages) }
    {
        let lanes = empty_lanes(alloc, arcs as usize)?;
        Ok(Queues {
            alloc,
            pool: Pool::new(alloc, frames)?,
            chains: Chains::new(alloc, arcs, 0)?,
            kept: Vec::new(alloc),
            lanes,
        })
    }

    // Puts an item behind the last of an arc, into the last page or into a new one. Gives the node of that page.
    fn add<D: PageDisk>(&mut self, disk: &mut D, arc: u32, item: &Item) -> Result<u64, QueueErr>
        requires there { arc < paged_size self.old }
        requires sound { IsSoundItem item.now }
        requires together { PagedTogether self.old (known (D.log disk.old)) }
        ensures ok { IfOk result (λ node. AddsItem self.old (known (D.log disk.old)) self.new (known (D.log disk.new)) arc node item.now) }
        ensures lanes { self.new.lanes ≡ self.old.lanes }
        ensures disk { IfErr result (λ e. e ≡ QueueErr.Disk → Rose (D.faults disk.old) (D.faults disk.new)) }
        ensures cause { IfErr result (λ e. IsPagedRefusal self.old self.new (D.log disk.old) (D.log disk.new) arc e) }
        ensures honest { IfErr result (λ e. Honest (D.log disk.old) → IsTold e) }
        ensures misfit { IfErr result (λ e. Tells (known (D.log disk.new)) → NoMisfit e) }
        ensures later { IsLater (D.log disk.old) (D.log disk.new) }
        ensures faults { D.faults disk.old ≤ D.faults disk.new }
    {
        self.chains.one_place_each();
        let last = self.lanes[arc as usize].last;
        let Some(node) = self.with_room(last, item) else {
            return self.push_page(disk, arc, item);
        };
        match self.push_into(disk, node, item) {
            Ok(()) => Ok(node),
            Err(e) => Err(e),
        }
    }

    // Takes the first item of an arc. A page of which nothing is left is let go.
    fn take<D: PageDisk>(&mut self, disk: &mut D, arc: u32) -> Result<Item, QueueErr>
        requires there { arc < paged_size self.old }
        requires some { is_some (paged_face self.old arc).first ≡ true }
        requires together { PagedTogether self.old (known (D.log disk.old)) }
        ensures ok { IfOk result (λ item. Removes self.old (known (D.log disk.old)) self.new (known (D.log disk.new)) arc item) }
        ensures sound { IfOk result IsSoundItem }
        ensures first { IfOk result (λ item. IsFirstPaged self.old (D.log disk.old) (D.log disk.new) arc item) }
        ensures lanes { self.new.lanes ≡ self.old.lanes }
        ensures disk { IfErr result (λ e. e ≡ QueueErr.Disk → Rose (D.faults disk.old) (D.faults disk.new)) }
        ensures cause { IfErr result (λ e. IsPagedRefusal self.old self.new (D.log disk.old) (D.log disk.new) arc e) }
        ensures honest { IfErr result (λ e. Honest (D.log disk.old) → IsTold e) }
        ensures misfit { IfErr result (λ e. Tells (known (D.log disk.new)) → NoMisfit e) }
        ensures later { IsLater (D.log disk.old) (D.log disk.new) }
        ensures faults { D.faults disk.old ≤ D.faults disk.new }
    {
        self.chains.one_place_each();
        let Some(node) = self.chains.first(arc) else {
            unreachable!()
        };
        let item = match self.take_first(disk, node) {
            Ok(item) => item,
            Err(e) => return Err(e),
        };
        if self.kept[node as usize].count > 0 {
            return Ok(item);
        }
        match self.drop_first(disk, arc, node) {
            Ok(()) => Ok(item),
            Err(e) => Err(e),
        }
    }

    // The node of a page that has room for an item.
    fn with_room(&self, last: Option<u64>, item: &Item) -> Option<u64>
        requires sound { IsSoundItem item.now }
        requires node { IfSome last (λ node. node < length self.now.kept.items) }
        requires ends { IfSome last (λ node. (kept_at self.now.kept.items node).end ≤ 8192) }
        ensures last { IfSome result (λ node. last ≡ Some node) }
        ensures room { IfSome result (λ node. (kept_at self.now.kept.items node).end + length (item_bytes item.now) ≤ 8192) }
    {
        let node = last?;
        let end = self.kept[node as usize].end;
        if end + item_room(item) <= 8192 {
            Some(node)
        } else {
            None
        }
    }

    // Puts an item behind the last of a page.
    fn push_into<D: PageDisk>(
        &mut self,
        disk: &mut D,
        node: u64,
        item: &Item,
    ) -> Result<(), QueueErr>
        requires node { node < length self.old.kept.items }
        requires agree { Agree self.old.pool (known (D.log disk.old)) }
        requires kept { IsKeptPage self.old.pool (known (D.log disk.old)) (kept_at self.old.kept.items node) }
        requires sound { IsSoundItem item.now }
        requires room { (kept_at self.old.kept.items node).end + length (item_bytes item.now) ≤ 8192 }
        ensures ok { OnOk result (AppendsAt self.old (known (D.log disk.old)) self.new (known (D.log disk.new)) node item.now) }
        ensures page { OnOk result (IsKeptPage self.new.pool (known (D.log disk.new)) (kept_at self.new.kept.items node)) }
        ensures lanes { self.new.lanes ≡ self.old.lanes }
        ensures disk { IfErr result (λ e. e ≡ QueueErr.Disk → Rose (D.faults disk.old) (D.faults disk.new)) }
        ensures cause { IfErr result (λ e. IsCause self.old.pool self.new.pool (D.log disk.old) (D.log disk.new) (kept_at self.old.kept.items node) e) }
        ensures tables { OnErr result (SameTables self.old self.new) }
        ensures honest { IfErr result (λ e. Honest (D.log disk.old) → IsTold e) }
        ensures misfit { IfErr result (λ e. Tells (known (D.log disk.new)) → NoMisfit e) }
        ensures later { IsLater (D.log disk.old) (D.log disk.new) }
        ensures faults { D.faults disk.old ≤ D.faults disk.new }
    {
        let kept = self.kept[node as usize];
        let after = match append_to_page(self.alloc, &mut self.pool, disk, &kept, item) {
            Ok(after) => after,
            Err(e) => return Err(e),
        };
        self.kept[node as usize] = after;
        Ok(())
    }

    // A free node, beside what is kept of its page.
    fn free_node(&mut self) -> Result<u64, QueueErr>
        requires nodes { length self.old.kept.items ≡ self.old.chains.nodes }
        ensures loose { IfOk result (λ node. IsLoose self.new.chains node) }
        ensures nodes { OnOk result (length self.new.kept.items ≡ self.new.chains.nodes) }
        ensures kept { OnOk result ((other : ℕ) → other < self.old.chains.nodes → kept_at self.new.kept.items other ≡ kept_at self.old.kept.items other) }
        ensures lists { self.new.chains.lists ≡ self.old.chains.lists }
        ensures lanes { self.new.lanes ≡ self.old.lanes }
        ensures pool { self.new.pool ≡ self.old.pool }
        ensures err { IfErr result (λ e. e ≡ QueueErr.Memory) }
    {
        if let Some(node) = self.chains.take_free() {
            return Ok(node);
        }
        if self.kept.push(NO_PAGE).is_err() {
            return Err(QueueErr::Memory);
        }
        self.chains.grow(1)?;
        match self.chains.take_free() {
            Some(node) => Ok(node),
            None => Err(QueueErr::Memory),
        }
    }

    // Puts an item into a new page of an arc.
    fn push_page<D: PageDisk>(
        &mut self,
        disk: &mut D,
        arc: u32,
        item: &Item,
    ) -> Result<u64, QueueErr>
        requires arc { arc < length self.old.chains.lists }
        requires nodes { length self.old.kept.items ≡ self.old.chains.nodes }
        requires agree { Agree self.old.pool (known (D.log disk.old)) }
        requires sound { IsSoundItem item.now }
        ensures ok { IfOk result (λ node. StartsAt self.old (known (D.log disk.old)) self.new (known (D.log disk.new)) arc node item.now) }
        ensures lanes { self.new.lanes ≡ self.old.lanes }
        ensures disk { IfErr result (λ e. e ≡ QueueErr.Disk → Rose (D.faults disk.old) (D.faults disk.new)) }
        ensures plain { IfErr result IsTold }
        ensures later { IsLater (D.log disk.old) (D.log disk.new) }
        ensures faults { D.faults disk.old ≤ D.faults disk.new }
    {
        let node = match self.free_node() {
            Ok(node) => node,
            Err(e) => return Err(e),
        };
        let kept = match start_page(&mut self.pool, disk, item) {
            Ok(kept) => kept,
            Err(e) => return Err(e),
        };
        self.kept[node as usize] = kept;
        self.chains.push_back(arc, node);
        Ok(node)
    }

    // Takes the first item of a page that is left there.
    fn take_first<D: PageDisk>(&mut self, disk: &mut D, node: u64) -> Result<Item, QueueErr>
        requires node { node < length self.old.kept.items }
        requires agree { Agree self.old.pool (known (D.log disk.old)) }
        requires kept { IsKeptPage self.old.pool (known (D.log disk.old)) (kept_at self.old.kept.items node) }
        ensures ok { IfOk result (λ item. TakesAt self.old (known (D.log disk.old)) self.new (known (D.log disk.new)) node item) }
        ensures sound { IfOk result IsSoundItem }
        ensures first { IfOk result (λ item. IsFirstOf self.old.pool (D.log disk.old) (D.log disk.new) (kept_at self.old.kept.items node) item) }
        ensures lanes { self.new.lanes ≡ self.old.lanes }
        ensures disk { IfErr result (λ e. e ≡ QueueErr.Disk → Rose (D.faults disk.old) (D.faults disk.new)) }
        ensures cause { IfErr result (λ e. IsCause self.old.pool self.new.pool (D.log disk.old) (D.log disk.new) (kept_at self.old.kept.items node) e) }
        ensures tables { OnErr result (SameTables self.old self.new) }
        ensures honest { IfErr result (λ e. Honest (D.log disk.old) → IsTold e) }
        ensures misfit { IfErr result (λ e. Tells (known (D.log disk.new)) → NoMisfit e) }
        ensures later { IsLater (D.log disk.old) (D.log disk.new) }
        ensures faults { D.faults disk.old ≤ D.faults disk.new }
    {
        let kept = self.kept[node as usize];
        let (item, after) = match take_from_page(self.alloc, &mut self.pool, disk, &kept) {
            Ok(taken) => taken,
            Err(e) => return Err(e),
        };
        self.kept[node as usize] = after;
        Ok(item)
    }

    // Lets the first page of an arc go, of which nothing is left.
    fn drop_first<D: PageDisk>(&mut self, disk: &mut D, arc: u32, node: u64) -> Result<(), QueueErr>
        requires arc { arc < length self.old.chains.lists }
        requires first { head_or (nth self.old.chains.lists arc) None ≡ Some node }
        requires node { node < length self.old.kept.items }
        requires held { is_held self.old.pool (kept_at self.old.kept.items node).page ≡ true }
        requires agree { Agree self.old.pool (known (D.log disk.old)) }
        ensures ok { OnOk result (DropsAt self.old (known (D.log disk.old)) self.new (known (D.log disk.new)) arc node) }
        ensures log { OnOk result (is_some (bytes_in (kept_at self.old.kept.items node).page self.old.pool.resident) ≡ true → D.log disk.new ≡ D.log disk.old) }
        ensures lanes { self.new.lanes ≡ self.old.lanes }
        ensures disk { IfErr result (λ e. e ≡ QueueErr.Disk → Rose (D.faults disk.old) (D.faults disk.new)) }
        ensures plain { IfErr result IsTold }
        ensures later { IsLater (D.log disk.old) (D.log disk.new) }
        ensures faults { D.faults disk.old ≤ D.faults disk.new }
    {
        if let Some(first) = self.chains.pop_front(arc) {
            self.chains.give_free(first);
        }
        let page = self.kept[node as usize].page;
        match let_page_go(&mut self.pool, disk, page) {
            Ok(()) => Ok(()),
            Err(e) => Err(e),
        }
    }

    // The kept time of the first page of an arc, where it has one.
    fn front_time(&self, arc: u32) -> Option<u64>
        requires arc { arc < length self.now.chains.lists }
        requires nodes { length self.now.kept.items ≡ self.now.chains.nodes }
        ensures { result ≡ option_map (λ node. (kept_at self.now.kept.items node).time) (head_or (nth self.now.chains.lists arc) None) }
    {
        self.chains.one_place_each();
        let node = self.chains.first(arc)?;
        Some(self.kept[node as usize].time)
    }
}

impl ArcQueues for Queues {
    ghost face = { paged_face };

    ghost size = { paged_size };

    ghost frames = { paged_frames };

    ghost resident_of = { paged_resident_of };

    ghost items_on = { paged_items_on };

    ghost Together = { PagedTogether };

    ghost IsFirst = { IsFirstPaged };

    ghost IsRefusal = { IsPagedRefusal };

    fn push<D: PageDisk>(&mut self, disk: &mut D, arc: u32, item: &Item) -> Result<(), QueueErr> {
        let lane = self.lanes[arc as usize];
        let Some(count) = lane.count.checked_add(1) else {
            return Err(QueueErr::Memory);
        };
        let last = match self.add(disk, arc, item) {
            Ok(node) => node,
            Err(e) => return Err(e),
        };
        self.lanes[arc as usize] = Lane {
            count,
            first: Some(lane.first.unwrap_or(item.time)),
            last: Some(last),
            ended: lane.ended,
        };
        Ok(())
    }

    fn pop<D: PageDisk>(&mut self, disk: &mut D, arc: u32) -> Result<Item, QueueErr> {
        let item = match self.take(disk, arc) {
            Ok(item) => item,
            Err(e) => return Err(e),
        };
        let lane = self.lanes[arc as usize];
        self.lanes[arc as usize] = popped_lane(lane, self.front_time(arc));
        Ok(item)
    }

    fn head(&self, arc: u32) -> Head {
        let lane = self.lanes[arc as usize];
        match lane.first {
            Some(time) => Head::Time(time),
            None => head_of_none(lane.ended),
        }
    }

    fn end(&mut self, arc: u32) {
        self.lanes[arc as usize].ended = true;
    }

    fn len(&self, arc: u32) -> u64 {
        self.lanes[arc as usize].count
    }

    fn resident(&self) -> u32 {
        self.pool.resident()
    }
}

// What is kept of an arc after its first item was taken, by the time of the next.
fn popped_lane(lane: Lane, first: Option<u64>) -> Lane
    requires { 1 ≤ lane.count }
    ensures { result ≡ record lane { count = lane.count - 1; first = first; last = last_if first lane.last } }
{
    Lane {
        count: lane.count - 1,
        first,
        last: if first.is_some() { lane.last } else { None },
        ended: lane.ended,
    }
}

fn head_of_none(ended: bool) -> Head
    ensures { result ≡ head_by ended None }
{
    if ended { Head::Ended } else { Head::Empty }
}
