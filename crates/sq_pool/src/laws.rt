// When a disk is known.
ghost use Rattle.std.specs.Prelude.{List, ℕ};
ghost use Rattle.sq_outside.specs.Disks.{DiskLog};
ghost use Rattle.sq_pool.specs.Trust.{AllAmong, DigestsApart, Tells, known};

/// A disk is known where no two different pages among those that were put and came back have one digest.
pub fn digests_apart_are_known()
    ensures { (log : DiskLog) (all : List (List ℕ)) → DigestsApart all → AllAmong all log.came → Tells (known log) }
{}
