//! What the text of a chain decides. Each law is the contract of a function that does nothing.
ghost use Rattle.dispatch_room_journal.specs.ChainLaws.{IsOneChain, IsReadAgain, IsWritten};
ghost use Rattle.dispatch_room_journal.specs.ChangedChains.{IsNeverLost, IsNeverTruncated};
ghost use Rattle.dispatch_room_journal.specs.CutRecords.{IsNeverCut};
ghost use Rattle.dispatch_room_journal.specs.LegLaws.{IsLegByLeg};

/// Two lists that end with the same check are the same, unless two texts have one hash, or one has
/// that of the check before the first record.
pub fn one_chain()
    ensures { IsOneChain }
{}

/// What is written is read again.
pub fn read_again()
    ensures { IsReadAgain }
{}

/// What is read was written, each record after the one before.
pub fn written()
    ensures { IsWritten }
{}

/// What a list says is its segments, one after another.
pub fn leg_by_leg()
    ensures { IsLegByLeg }
{}

/// A whole record is never taken for the beginning of one, whatever its line says.
pub fn never_cut()
    ensures { IsNeverCut }
{}

/// Where one byte of a chain was changed, none of its whole records is taken away, unless two texts
/// have one hash.
pub fn never_lost()
    ensures { IsNeverLost }
{}

/// A list, and one of which one byte was changed, is never taken for what is left of a truncated
/// one.
pub fn never_truncated()
    ensures { IsNeverTruncated }
{}
