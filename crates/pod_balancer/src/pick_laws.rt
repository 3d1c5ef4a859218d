//! What a pick is.

ghost use Rattle.pod_balancer.specs.PickLaws.{PicksTheLightest, PicksOneOnly};

/// Says of every list of loads that the pick is the pod of a running one which no other running one is
/// lighter than, and none exactly where none runs.
pub fn the_pick_is_the_lightest()
    ensures { PicksTheLightest }
{}

/// Says that this leaves one answer: of several running pods with as few sessions the lowest number.
pub fn there_is_one_pick()
    ensures { PicksOneOnly }
{}
