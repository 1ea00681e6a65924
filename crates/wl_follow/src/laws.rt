//! What follows of calls of a follower, one after another. Each function does nothing; its contract states a law.

ghost use Rattle.std.specs.Prelude.{◌≡◌, [], List, true};
ghost use Rattle.wl_link.specs.Exchange.{joined};
ghost use Rattle.wl_follow.specs.Following.{FollowState, new_follower, sent};
ghost use Rattle.wl_follow.specs.Runs.{Call, Leads, all_came, all_told};
ghost use Rattle.wl_follow.specs.Sent.{untold};
ghost use Rattle.wl_follow.specs.declared.side.Side.{Side};

/// Of a new follower, and of a side that is followed: the pieces of which messages were told, one after another, and then what was not
/// told, are all that the side sent and that was not taken back. Each call may be given another table.
pub fn each_message_is_told_once()
    ensures { (after : FollowState) (calls : List Call) (side : Side) → Leads new_follower calls after
        → (sent side after).is_followed ≡ true
        → joined (all_told side calls) (untold (sent side after)) ≡ all_came side calls }
{}

/// Of a new follower, and of a side that is followed: once it was the turn of all that was released, all of it may be told.
pub fn all_that_is_released_comes_to_its_turn()
    ensures { (after : FollowState) (calls : List Call) (side : Side) → Leads new_follower calls after
        → (sent side after).is_followed ≡ true → after.order ≡ []
        → (sent side after).ready ≡ (sent side after).released }
{}
