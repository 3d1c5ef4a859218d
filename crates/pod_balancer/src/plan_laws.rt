//! What a plan achieves.

ghost use Rattle.pod_balancer.specs.PlanLaws.{PlansCanBeMade, PlansPlaceAll, PlansLeaveNoneAbove, PlansMoveTheExcess, NoneMovesFewer};

/// Says that each move of a plan takes its session from where it stands at that moment.
pub fn a_plan_can_be_made()
    ensures { PlansCanBeMade }
{}

/// Says that after a plan with a running pod every session stands on a running pod.
pub fn a_plan_places_every_session()
    ensures { PlansPlaceAll }
{}

/// Says that after a plan no running pod has more than its share of the sessions, rounded up.
pub fn a_plan_leaves_no_pod_above_its_share()
    ensures { PlansLeaveNoneAbove }
{}

/// Says that the moves of a plan from running pods are as many as these have above their share.
pub fn a_plan_moves_the_excess()
    ensures { PlansMoveTheExcess }
{}

/// Says that other moves after which no running pod is above its share have at least as many from
/// running pods, in whatever order and however often they move a session.
pub fn no_moves_are_fewer()
    ensures { NoneMovesFewer }
{}
