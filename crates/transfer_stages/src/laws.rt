//! What the stages take, over whole lists of frames.

ghost use Rattle.transfer_stages.specs.Taking.{OldReplyLeads, OldReplyStops, OldReplyGoesOn, GreetingLeads, GreetingStops, GreetingGoesOn, RestoredLeads, RestoredStops, RestoredGoesOn, NewPodLeads};

/// Says of the old pod's reply that the stages come to what it says exactly where it is accepted; that they end at a frame
/// exactly where no accepted reply has it at its place; and that until then some accepted reply begins
/// with what came.
pub fn stages_take_the_old_reply()
    ensures accepted { OldReplyLeads }
    ensures unexpected { OldReplyStops }
    ensures goes_on { OldReplyGoesOn }
{}

/// Says the same of the new pod's greeting, which leads to the restore.
pub fn stages_take_the_greeting()
    ensures accepted { GreetingLeads }
    ensures unexpected { GreetingStops }
    ensures goes_on { GreetingGoesOn }
{}

/// Says the same of the new pod's reply to the restore Query, which leads to the move.
pub fn stages_take_the_restored_reply()
    ensures accepted { RestoredLeads }
    ensures unexpected { RestoredStops }
    ensures goes_on { RestoredGoesOn }
{}

/// Says of all frames of the new pod that they lead to the move exactly where they are accepted.
pub fn stages_take_the_new_pod()
    ensures { NewPodLeads }
{}
