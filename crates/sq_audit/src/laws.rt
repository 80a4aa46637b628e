// A law, the contract of a function that does nothing.
ghost use Rattle.sq_audit.specs.Laws.{AcceptsWhole};

/// The verdict is yes on each text with exactly the lines of what every output shows and every drop records in a run of some capacities
/// and seed, and with plans and the end lines besides, the end lines last.
pub fn whole_is_accepted()
    ensures { AcceptsWhole }
{}
