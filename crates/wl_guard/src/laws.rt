//! What follows of calls of a guard, one after another. Each function does nothing; its contract states a law.
//!
//! A call that answers an error changes nothing, and stands in no list.

ghost use Rattle.std.specs.Prelude.{◌≡◌, ◌+◌, ◌≤◌, ℕ, Bool, List, [], IsSome, None, Some, length, slice_get, true};
ghost use Rattle.std.specs.List.{AllByRecursion};
ghost use Rattle.wl_wire.specs.declared.argument.Token.{Token};
ghost use Rattle.wl_wire.specs.declared.interface.InterfaceId.{InterfaceId};
ghost use Rattle.wl_wire.specs.Table.{InterfaceRow};
ghost use Rattle.wl_link.specs.Exchange.{Queue, joined};
ghost use Rattle.wl_follow.specs.Sides.{other_side};
ghost use Rattle.wl_follow.specs.declared.side.Side.{Side};
ghost use Rattle.wl_follow.specs.declared.side.Side.TheVariants.{Client, Server};
ghost use Rattle.wl_guard.specs.Closure.{AreWithin, IsBounded, IsClosed};
ghost use Rattle.wl_guard.specs.Ends.{told_end};
ghost use Rattle.wl_guard.specs.Fates.{IsEvent, IsRequest};
ghost use Rattle.wl_guard.specs.Guard.{GuardState, new_guard, to_send, unread};
ghost use Rattle.wl_guard.specs.Known.{Known, nothing_known};
ghost use Rattle.wl_guard.specs.Passages.{all_pieces, all_sent};
ghost use Rattle.wl_guard.specs.Policy.{Given, GivesAll, IsSound, LetsNoneChoose, PolicyState, new_policy};
ghost use Rattle.wl_guard.specs.Requests.{BindsTold};
ghost use Rattle.wl_guard.specs.Runs.{AllPassUnder, AllWithin, Call, Leads, all_came, all_out, all_passed, error_to, kept_weight, most_came, weight_in, weight_out};
ghost use Rattle.wl_guard.specs.declared.policy.Limits.{Limits};
ghost use Rattle.wl_guard.specs.declared.session.Told.{Told};

/// Each policy that calls made of a new one is sound, if no request of its table makes an object of no named interface.
pub fn each_policy_is_sound()
    ensures { (table : List InterfaceRow) (limits : Limits) (given : List Given) (p : PolicyState) → LetsNoneChoose table
        → GivesAll (new_policy table limits) given p → IsSound p }
{}

/// By a sound policy a bind that may be made is of an interface of the table that is none of the fixed four, in a version that the table
/// has.
pub fn binds_are_of_the_table()
    ensures { (p : PolicyState) (told : List Told) (number : ℕ) (name : List ℕ) (version : ℕ) (binds : BindsTold p told number name version) → IsSound p
        → (4 ≤ binds.last.interface.0)
        × ((row : InterfaceRow) × (slice_get p.table binds.last.interface.0 ≡ Some row) × (row.name ≡ name) × (version ≤ row.version)) }
{}

/// Of a new guard: what the compositor was sent, and then what is to be sent to it, is what goes on for the messages that were passed of
/// the client. And these are the first of what the client sent, one after another: none is left out. What follows them waits to be read, as
/// long as the connection has not ended.
pub fn all_goes_through_the_guard()
    ensures { (p : PolicyState) (calls : List Call) (after : GuardState) → Leads p new_guard calls after
        → (joined (all_out Server calls) (to_send Server after) ≡ all_sent (all_passed Client calls))
        × ((rest : Queue) × (joined (all_pieces (all_passed Client calls)) rest ≡ all_came Client calls) × (after.end ≡ None → rest ≡ unread Client after)) }
{}

/// Of a new guard: what the client was sent, and then what is to be sent to it, is what goes on for the messages that were passed of the
/// compositor, and then, if the connection has ended by a breach of the client, the error. And these are the first of what the compositor
/// sent: none is left out. What follows them waits to be read, as long as the connection has not ended.
pub fn only_what_is_hidden_is_hidden()
    ensures { (p : PolicyState) (calls : List Call) (after : GuardState) → Leads p new_guard calls after
        → (joined (all_out Client calls) (to_send Client after) ≡ told_end p after.known after.end (all_sent (all_passed Server calls)))
        × ((rest : Queue) × (joined (all_pieces (all_passed Server calls)) rest ≡ all_came Server calls) × (after.end ≡ None → rest ≡ unread Server after)) }
{}

/// Of a new guard: each message that was passed, of either side, was read and judged by what the messages before it left, from a session
/// that begins: its object is one that they made or left, and a bind is of a global that they announced last. As long as the connection has
/// not ended, that is what the guard knows.
pub fn each_message_is_judged_by_those_before_it()
    ensures { (p : PolicyState) (calls : List Call) (after : GuardState) → Leads p new_guard calls after
        → (last : Known) × AllPassUnder p nothing_known calls last × (after.end ≡ None → last ≡ after.known) }
{}

/// Each request that was passed is exactly as long as its arguments, is one of the version of its object, and is not refused. It goes on
/// as it came, unless the policy ignores it: then nothing goes on, and its tokens are given back.
pub fn only_what_is_allowed_goes_on()
    ensures { (p : PolicyState) (calls : List Call) (before after : GuardState) → Leads p before calls after → AllByRecursion (IsRequest p) (all_passed Client calls) }
{}

/// Each event that was passed goes on as it came, unless it is of a registry: an announcement of a global that the policy does not allow
/// is dropped, one above the allowed version has that version, and a removal may be dropped.
pub fn only_globals_are_hidden()
    ensures { (p : PolicyState) (calls : List Call) (before after : GuardState) → Leads p before calls after → AllByRecursion (IsEvent p) (all_passed Server calls) }
{}

/// Each object, as long as the connection has not ended, is of an interface of each closed set: so of the policy's closure.
pub fn objects_stay_within_the_policy()
    ensures { (p : PolicyState) (set : InterfaceId → Bool) (calls : List Call) (after : GuardState) → IsClosed p set → Leads p new_guard calls after
        → after.end ≡ None → AreWithin set after.known.objects }
{}

/// And so is each object from first to last: before and after each message that was passed, also where several came at once, and whether
/// the connection has ended or not.
pub fn each_object_was_within_the_policy()
    ensures { (p : PolicyState) (set : InterfaceId → Bool) (calls : List Call) (last : Known) → IsClosed p set
        → (passed : AllPassUnder p nothing_known calls last) → AllWithin set p nothing_known calls last passed }
{}

/// As long as the connection has not ended, nothing is kept beyond the limits, and the numbers that the client has ended are those of
/// objects, each once.
pub fn what_is_kept_is_bounded()
    ensures { (p : PolicyState) (calls : List Call) (after : GuardState) → Leads p new_guard calls after → after.end ≡ None → IsBounded p after.known }
{}

/// Of a new guard: never more bytes wait for a side than the limit, the 65535 of the other side that may wait to be read, and those that
/// came of it in one call; but for the error, if there is one. As long as the connection has not ended, no more wait to be read of a side
/// than those, and 112 tokens.
pub fn what_waits_is_bounded()
    ensures { (p : PolicyState) (calls : List Call) (after : GuardState) (side : Side) → Leads p new_guard calls after
        → (length (to_send side after).bytes ≤ p.limits.waiting + 65535 + most_came (other_side side) calls + length (error_to p side after).bytes)
        × (after.end ≡ None → (length (unread side after).bytes ≤ 65535) × (length (unread side after).tokens ≤ 112)) }
{}

/// Once the connection has ended, nothing more is passed of either side, and it stays so.
pub fn nothing_follows_an_end()
    ensures { (p : PolicyState) (calls : List Call) (before after : GuardState) (side : Side) → IsSome before.end → Leads p before calls after
        → (all_passed side calls ≡ []) × (after.end ≡ before.end) }
{}

/// Of a new guard: whatever weight each token has, those that came weigh as much as those that were sent, those that were given back and
/// those that the guard keeps. So each token that came is in one of these, once.
pub fn each_token_is_somewhere_once()
    ensures { (p : PolicyState) (weight : Token → ℕ) (calls : List Call) (after : GuardState) → Leads p new_guard calls after
        → weight_in weight calls ≡ weight_out weight calls + kept_weight weight after }
{}
