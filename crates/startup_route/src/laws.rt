//! What a door reads, and what it doesn't.

ghost use Rattle.startup_route.specs.Entrances.{NothingBehindCounts, EachWantedIsNeeded};
ghost use Rattle.startup_route.specs.Tenants.{NumbersStandLast};

/// Says that the answer to all bytes is known from the packets alone: bytes behind a startup packet, a
/// request to cancel or a fault change nothing.
pub fn nothing_behind_it_counts()
    ensures { NothingBehindCounts }
{}

/// Says that bytes are wanted as long as the answer isn't known, and that each of them is needed: with
/// fewer there is no answer that wasn't there before.
pub fn each_wanted_byte_is_needed()
    ensures { EachWantedIsNeeded }
{}

/// Says that a tenant is found at a cluster's name exactly where that is something, a dash and the
/// tenant's number in decimal, 1 to 4,294,967,295.
pub fn numbers_stand_last()
    ensures { NumbersStandLast }
{}
