//! What follows from the definitions of a record and of a verdict alone. Each function has a law as its contract, and does
//! nothing.

ghost use Rattle.std.specs.Prelude.{◌≢◌, ◌≤◌, ℕ, List, [], Err, Result, Some, length};
ghost use Rattle.wl_bench.specs.Bench.{BenchState, new_bench};
ghost use Rattle.wl_bench.specs.OneOutcome.{OfSameLines};
ghost use Rattle.wl_bench.specs.Record.{Leads, Recorded, Runs, lines, recording_of};
ghost use Rattle.wl_bench.specs.Table.{bench_rows};
ghost use Rattle.wl_bench.specs.declared.commands.Form.TheVariants as shape;
ghost use Rattle.wl_bench.specs.declared.stop.Stop.{Stop};
ghost use Rattle.wl_bench.specs.declared.stop.Stop.TheVariants.{Failed};
ghost use Rattle.wl_replay.specs.OneVerdict.{ComparesWith, IsSameRecord};
ghost use Rattle.wl_replay.specs.Replay.{Ascend, Replays};
ghost use Rattle.wl_replay.specs.declared.recording.Replayed.{Replayed};

use wl_bench::laws::each_line_that_is_printed_is_one_line;

/// A recording has one verdict: it is compared with what its commands print today.
///
/// Take commands under ascending numbers, which print something today, and a recording of the same commands, in which they
/// may have printed something else. A replay over a server in the same state answers that both are the same, if they are,
/// and else which line is the first that differs. It does not call a line bad. It may fail, for want of memory or because
/// its reader failed.
pub fn a_recording_is_compared_with_today()
    ensures { (before after : BenchState) (claimed today : List Recorded) (verdict : Result Replayed Stop) →
        OfSameLines claimed today → Ascend 0 today → Leads before today after →
        Replays before (recording_of claimed) verdict → ComparesWith (recording_of claimed) today verdict }
{}

/// A replay answers that a recording is the same, if `wl_bench::commands::record` wrote it.
///
/// The record was written to a writer that held nothing, and both runs are over the table of the program. If the record
/// ended at a bad line, this holds of what was written by then. The input has at most 4294967295 lines. Neither run fails:
/// memory is not refused, and the readers and writers do not fail.
pub fn what_was_recorded_is_the_same_again()
    ensures { (input text : List ℕ) (ended : Result (Unit {0}) Stop) (verdict : Result Replayed Stop) →
        length (lines input) ≤ 4294967295 → ended ≢ Err Failed →
        Runs shape.Record 1 (new_bench bench_rows) (lines input) ended (Some []) (Some text) →
        verdict ≢ Err Failed → Replays (new_bench bench_rows) (lines text) verdict → IsSameRecord text verdict }
{
    each_line_that_is_printed_is_one_line();
}
