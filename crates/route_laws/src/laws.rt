//! The laws.

ghost use Rattle.route_laws.specs.Laws.{RoutesAreShort, RoutesFit, RoutesNameNothingReserved, RoutesHaveNoToken};

/// Says of every route that is the answer to some bytes that its parameters make a startup packet of at most 20,000 bytes,
/// which is within the limit of such a packet; and that none of them has a name that begins with `crdb:`, so that none is
/// the revival token of a session.
pub fn routes_can_be_sent()
    ensures short { RoutesAreShort }
    ensures fit { RoutesFit }
    ensures reserved { RoutesNameNothingReserved }
    ensures token { RoutesHaveNoToken }
{}
