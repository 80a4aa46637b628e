//! The contract of queues of items, one for each arc.

ghost use Rattle.std.specs.Prelude.{◌≡◌, ◌≢◌, ℕ, ◌+◌, ◌<◌, ◌≤◌, ◌++◌, ◌∷◌, [], List, true, false, Option, is_some, IfOk, OnOk, IfErr};
ghost use Rattle.sq_item.specs.declared.Item.{Item};
ghost use Rattle.sq_item.specs.SoundItems.{IsSoundItem};
ghost use Rattle.sq_outside.specs.Disks.{DiskLog, Honest, Pages};
ghost use Rattle.sq_outside.specs.Faults.{Rose};
ghost use Rattle.sq_pool.specs.Trust.{IsLater, Tells, known};
ghost use Rattle.sq_bring.specs.declared.bring.QueueErr.{QueueErr};
ghost use Rattle.sq_paged.specs.Fronts.{Face, head_by, pushed, IsPopped};
ghost use Rattle.sq_bring.specs.Bringing.{IsTold, NoMisfit};

use crate::{Head, QueueErr};
use sq_item::Item;
use sq_outside::PageDisk;

/// A queue of items for each arc.
///
/// Each ghost member is a function of the queues, and of what is known of the pages of a disk. Over every disk the queues know
/// each arc's face; where the pages are known, queues and disk together stand for one list of items for each arc: `push` and
/// `send` append to one list, `pop` takes its first, and all others stay.
pub trait ArcQueues {
    /// What is seen of an arc.
    ghost face: { Self → ℕ → Face };

    /// How many arcs there are.
    ghost size: { Self → ℕ };

    /// How many pages may be in memory, and how many are.
    ghost frames: { Self → ℕ };

    ghost resident_of: { Self → ℕ };

    /// The items on an arc, in their order, by what is known of the pages of a disk.
    ghost items_on: { Self → Option Pages → ℕ → List Item };

    /// Queues and a disk stand together.
    ghost Together: { Self → Option Pages → Type 0 };

    /// Over every disk, which item may be the first of an arc, by the queues before and the disk's log before and after.
    ghost IsFirst: { Self → DiskLog → DiskLog → ℕ → Item → Type 0 };

    /// Why an arc is refused, by the queues and the disk's log before and after.
    ghost IsRefusal: { Self → Self → DiskLog → DiskLog → ℕ → QueueErr → Type 0 };

    /// Appends a copy of an item to an arc that hasn't ended. At an error all other arcs have the faces that they had, and the
    /// queues are done: no call is to follow.
    fn push<D: PageDisk>(&mut self, disk: &mut D, arc: u32, item: &Item) -> Result<(), QueueErr>
        requires there { arc < size self.old }
        requires open { (face self.old arc).ended ≡ false }
        requires sound { IsSoundItem item.now }
        requires together { Together self.old (known (D.log disk.old)) }
        ensures face { OnOk result (face self.new arc ≡ pushed (face self.old arc) item.now.time) }
        ensures faces { (other : ℕ) → other ≢ arc → face self.new other ≡ face self.old other }
        ensures size { size self.new ≡ size self.old }
        ensures frames { OnOk result (frames self.new ≡ frames self.old) }
        ensures items { OnOk result (Tells (known (D.log disk.new)) → items_on self.new (known (D.log disk.new)) arc ≡ items_on self.old (known (D.log disk.old)) arc ++ item.now ∷ []) }
        ensures others { OnOk result (Tells (known (D.log disk.new)) → (other : ℕ) → other ≢ arc → items_on self.new (known (D.log disk.new)) other ≡ items_on self.old (known (D.log disk.old)) other) }
        ensures together { OnOk result (Together self.new (known (D.log disk.new))) }
        ensures later { IsLater (D.log disk.old) (D.log disk.new) }

        // Each refusal.
        ensures disk { IfErr result (λ e. e ≡ QueueErr.Disk → Rose (D.faults disk.old) (D.faults disk.new)) }
        ensures cause { IfErr result (λ e. IsRefusal self.old self.new (D.log disk.old) (D.log disk.new) arc e) }
        ensures honest { IfErr result (λ e. Honest (D.log disk.old) → IsTold e) }
        ensures misfit { IfErr result (λ e. Tells (known (D.log disk.new)) → NoMisfit e) }
        ensures faults { D.faults disk.old ≤ D.faults disk.new };

    /// Appends an item to an arc that hasn't ended, as `push` does, and lets it go.
    fn send<D: PageDisk>(&mut self, disk: &mut D, arc: u32, item: Item) -> Result<(), QueueErr>
        requires there { arc < size self.old }
        requires open { (face self.old arc).ended ≡ false }
        requires sound { IsSoundItem item }
        requires together { Together self.old (known (D.log disk.old)) }
        ensures face { OnOk result (face self.new arc ≡ pushed (face self.old arc) item.time) }
        ensures faces { (other : ℕ) → other ≢ arc → face self.new other ≡ face self.old other }
        ensures size { size self.new ≡ size self.old }
        ensures frames { OnOk result (frames self.new ≡ frames self.old) }
        ensures items { OnOk result (Tells (known (D.log disk.new)) → items_on self.new (known (D.log disk.new)) arc ≡ items_on self.old (known (D.log disk.old)) arc ++ item ∷ []) }
        ensures others { OnOk result (Tells (known (D.log disk.new)) → (other : ℕ) → other ≢ arc → items_on self.new (known (D.log disk.new)) other ≡ items_on self.old (known (D.log disk.old)) other) }
        ensures together { OnOk result (Together self.new (known (D.log disk.new))) }
        ensures later { IsLater (D.log disk.old) (D.log disk.new) }

        // Each refusal.
        ensures disk { IfErr result (λ e. e ≡ QueueErr.Disk → Rose (D.faults disk.old) (D.faults disk.new)) }
        ensures cause { IfErr result (λ e. IsRefusal self.old self.new (D.log disk.old) (D.log disk.new) arc e) }
        ensures honest { IfErr result (λ e. Honest (D.log disk.old) → IsTold e) }
        ensures misfit { IfErr result (λ e. Tells (known (D.log disk.new)) → NoMisfit e) }
        ensures faults { D.faults disk.old ≤ D.faults disk.new }
    {
        self.push(disk, arc, &item)
    }

    /// Takes the first item of an arc, where one stands. At an error all other arcs have the faces that they had, and the
    /// queues are done: no call is to follow.
    fn pop<D: PageDisk>(&mut self, disk: &mut D, arc: u32) -> Result<Item, QueueErr>
        requires there { arc < size self.old }
        requires some { is_some (face self.old arc).first ≡ true }
        requires together { Together self.old (known (D.log disk.old)) }
        ensures sound { IfOk result IsSoundItem }
        ensures face { OnOk result (IsPopped (face self.old arc) (face self.new arc)) }
        ensures faces { (other : ℕ) → other ≢ arc → face self.new other ≡ face self.old other }
        ensures size { size self.new ≡ size self.old }
        ensures frames { OnOk result (frames self.new ≡ frames self.old) }
        ensures items { IfOk result (λ item. Tells (known (D.log disk.new)) → items_on self.old (known (D.log disk.old)) arc ≡ item ∷ items_on self.new (known (D.log disk.new)) arc) }
        ensures first { IfOk result (λ item. IsFirst self.old (D.log disk.old) (D.log disk.new) arc item) }
        ensures others { OnOk result (Tells (known (D.log disk.new)) → (other : ℕ) → other ≢ arc → items_on self.new (known (D.log disk.new)) other ≡ items_on self.old (known (D.log disk.old)) other) }
        ensures together { OnOk result (Together self.new (known (D.log disk.new))) }
        ensures later { IsLater (D.log disk.old) (D.log disk.new) }

        // Each refusal.
        ensures disk { IfErr result (λ e. e ≡ QueueErr.Disk → Rose (D.faults disk.old) (D.faults disk.new)) }
        ensures cause { IfErr result (λ e. IsRefusal self.old self.new (D.log disk.old) (D.log disk.new) arc e) }
        ensures honest { IfErr result (λ e. Honest (D.log disk.old) → IsTold e) }
        ensures misfit { IfErr result (λ e. Tells (known (D.log disk.new)) → NoMisfit e) }
        ensures faults { D.faults disk.old ≤ D.faults disk.new };

    /// What stands first on an arc.
    fn head(&self, arc: u32) -> Head
        requires { arc < size self.now }
        ensures { result ≡ head_by (face self.now arc).ended (face self.now arc).first };

    /// An arc has ended: nothing more is pushed there.
    fn end(&mut self, arc: u32)
        requires { arc < size self.old }
        ensures face { face self.new arc ≡ record (face self.old arc) { ended = true } }
        ensures faces { (other : ℕ) → other ≢ arc → face self.new other ≡ face self.old other }
        ensures size { size self.new ≡ size self.old }
        ensures frames { frames self.new ≡ frames self.old }
        ensures items { (pages : Option Pages) (other : ℕ) → items_on self.new pages other ≡ items_on self.old pages other }
        ensures together { (pages : Option Pages) → Together self.old pages → Together self.new pages };

    /// How many items stand on an arc.
    fn len(&self, arc: u32) -> u64
        requires { arc < size self.now }
        ensures { result ≡ (face self.now arc).count };

    /// How many pages are in memory.
    fn resident(&self) -> u32
        ensures value { result ≡ resident_of self.now }
        ensures most { result ≤ frames self.now };
}
