// Laws of streams that come in pieces, each the contract of a function that does nothing.
ghost use Rattle.sq_intake.specs.IncomingLaws.{ToldAsStreams, ToldFits};

/// What comes in pieces is read as the text that they are together.
pub fn pieces_are_streams()
    ensures { ToldAsStreams }
{}

/// The tuples that come in pieces fit the schema, and their ticks don't fall.
pub fn what_is_told_fits()
    ensures { ToldFits }
{}
