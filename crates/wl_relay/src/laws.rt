//! What follows of calls one after another. Each function does nothing; its contract states a law.
//!
//! A call that answers `TooManyTokens` changes nothing, and stands in no list; one of `arrive` that answers `OutOfMemory` ends it.

ghost use Rattle.std.specs.Prelude.{◌≡◌, ◌++◌, List, false};
ghost use Rattle.wl_link.specs.Exchange.{joined};
ghost use Rattle.wl_follow.specs.Sides.{other_side};
ghost use Rattle.wl_follow.specs.declared.side.Side.{Side};
ghost use Rattle.wl_relay.specs.Flow.{Begins, RelayState, flow_from, has_changed};
ghost use Rattle.wl_relay.specs.Runs.{Call, Leads, all_came, all_out, lines_out, lines_read};

/// Of a new relay, and as long as no announcement was dropped or lowered: all that was taken out for a side or sent to it, and then
/// what is on its way to it, is all that came from the other.
pub fn nothing_is_lost()
    ensures { (before after : RelayState) (calls : List Call) (side : Side) → Begins before → Leads before calls after → has_changed after ≡ false
        → joined (all_out (other_side side) calls) (flow_from side after) ≡ all_came side calls }
{}

/// Of a new relay: the lines that were taken out, and then those that are there, are the lines of all that was read.
pub fn each_line_is_told_once()
    ensures { (before after : RelayState) (calls : List Call) → Begins before → Leads before calls after
        → lines_out calls ++ after.known.log ≡ lines_read calls }
{}
