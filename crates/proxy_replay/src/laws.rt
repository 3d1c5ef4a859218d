//! What holds of every schedule.

ghost use Rattle.std.specs.Prelude.{◌≡◌, ℕ, List};
ghost use Rattle.forwarder_world.specs.declared.event.Event.{Event};
ghost use Rattle.tally_session.specs.declared.store.Nothing.{Nothing};
ghost use Rattle.proxy_replay.specs.Lines.{Spells};
ghost use Rattle.proxy_replay.specs.TallyCommands.{says_nothing};
ghost use Rattle.proxy_replay.specs.Schedule.{IsSchedule, IsFirstBad};

/// A text is read in one way: as one list of events, or as lines of which one is the first that spells
/// none.
pub fn a_schedule_has_one_reading()
    ensures line { (line : List ℕ) (e f : Event Nothing) → Spells says_nothing line e → Spells says_nothing line f → e ≡ f }
    ensures events { (text : List ℕ) (es fs : List (Event Nothing)) → IsSchedule says_nothing text es → IsSchedule says_nothing text fs → es ≡ fs }
    ensures first_bad { (text : List ℕ) (m n : ℕ) → IsFirstBad says_nothing text m → IsFirstBad says_nothing text n → m ≡ n }
    ensures apart { (text : List ℕ) (es : List (Event Nothing)) (n : ℕ) → IsSchedule says_nothing text es → IsFirstBad says_nothing text n → ⊥ }
{}
