//! What holds of every schedule.

ghost use Rattle.std.specs.Prelude.{List};
ghost use Rattle.pgw_messages.specs.Startup.{Fits};
ghost use Rattle.pgw_messages.specs.declared.params.Pair.{Pair};
ghost use Rattle.session_model.specs.declared.transfer.TransferKey.{TransferKey};
ghost use Rattle.forwarder_world.specs.World.{World, run, start};
ghost use Rattle.forwarder_world.specs.Turns.{BeginsSafely, Resumes, EndsByMove, EndsThere, EndsServed};
ghost use Rattle.forwarder_world.specs.Headline.{Headline};
ghost use Rattle.forwarder_world.specs.Startups.{Opens};
ghost use Rattle.forwarder_world.specs.declared.event.Event.{Event};
ghost use Rattle.proxy_outside.specs.declared.identity.ClientKey.{ClientKey};

use proxy_outside::Machine;
use session_model::Session;

/// For every schedule the received bytes begin what the client hears of one session that was told the forwarded
/// messages and was never moved; it has the state and the store of the world.
pub fn headline<S: Session>()
    ensures { (key : ClientKey) (p : List Pair) (es : List (Event S.Store.Command)) → Fits p →
        Headline S.kind S.Store.rules key p (run S.kind S.Store.rules key p (start S.kind S.Store.rules p) es) }
{}

/// An exchange begins only at a safe point. It ends only by a move, exactly where it has an outcome, and by
/// each outcome in its own way: with the session at the new link, at the old one, or with the client closed.
pub fn turns<S: Session>()
    ensures begins { (key : ClientKey) (p : List Pair) (w : World S.State S.Store.State S.Store.Command) (e : Event S.Store.Command) → BeginsSafely S.kind S.Store.rules key p w e }
    ensures resumes { (key : ClientKey) (p : List Pair) (w : World S.State S.Store.State S.Store.Command) (t : TransferKey) → Resumes S.kind S.Store.rules key p w t }
    ensures ends { (key : ClientKey) (p : List Pair) (w : World S.State S.Store.State S.Store.Command) (e : Event S.Store.Command) → EndsByMove S.kind S.Store.rules key p w e }
    ensures ends_there { (key : ClientKey) (p : List Pair) (w : World S.State S.Store.State S.Store.Command) → EndsThere S.kind S.Store.rules key p w }
    ensures ends_served { (key : ClientKey) (p : List Pair) → Fits p → EndsServed S.kind S.Store.rules key p }
{}

/// A session at the end of a link began with the parameters that reading the startup packet gives which was sent on
/// that link, but for a revival token.
pub fn startups<S: Session>()
    ensures { (key : ClientKey) (p : List Pair) (es : List (Event S.Store.Command)) → Opens p (run S.kind S.Store.rules key p (start S.kind S.Store.rules p) es) }
{}
