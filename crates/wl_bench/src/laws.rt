//! What follows from the definition of a command alone. Each function has a law as its contract, and does nothing.

ghost use Rattle.std.specs.Prelude.{◌≡◌, ℕ, Bool, List};
ghost use Rattle.std.specs.List.{All};
ghost use Rattle.wl_bench.specs.Answers.{Line};
ghost use Rattle.wl_bench.specs.Apart.{StaysWith};
ghost use Rattle.wl_bench.specs.Bench.{BenchState, Does, new_bench};
ghost use Rattle.wl_bench.specs.OneLine.{PrintsLines};
ghost use Rattle.wl_bench.specs.OneOutcome.{AreSettled, LookSame, OfSameLines, PrintSame};
ghost use Rattle.wl_bench.specs.Record.{Leads, Recorded};
ghost use Rattle.wl_bench.specs.Table.{bench_rows};
ghost use Rattle.wl_bench.specs.declared.command.Command.{Command};
ghost use Rattle.wl_bench.specs.declared.command.ClientCommand.{ClientCommand as OfClient};
ghost use Rattle.wl_bench.specs.declared.command.Command.TheVariants as command;

use wl_link::Memory;
use wl_server::ShownToAll;
use wl_server::laws::{calls_over_scripts_are_steps, each_error_in_a_note_has_a_cause};

/// A command about one client concerns only that client. No line that it prints says what another client was sent. All that
/// is held of another client is as before, also what it was sent and what waits for it.
pub fn a_command_about_one_client_stays_with_it()
    ensures { (before after : BenchState) (n slot : ℕ) (c : OfClient) (out : List Line) →
        Does before n (command.Client slot c) out after → StaysWith slot before out after }
{}

/// Each line that a command prints is one line: it has no line feed in it.
///
/// The commands are those of a run over the table of the program. The line of a note may have the name of an interface. That
/// is the name of the display, since no command posts an error, or kills a client for one.
pub fn each_line_that_is_printed_is_one_line()
    ensures { (all : List Recorded) (after : BenchState) → Leads (new_bench bench_rows) all after → All PrintsLines all }
{
    calls_over_scripts_are_steps::<u64, ShownToAll, ()>();
    each_error_in_a_note_has_a_cause::<Memory, u64, ShownToAll, ()>();
}

/// A command has one outcome.
///
/// Take two benches that look the same, and carry the same command out in each, under the same number. Both print the same
/// lines, and the benches look the same afterwards. If the order of the notes of different clients is left out (`ordered` is
/// `false`), these notes alone may be printed in another order.
pub fn a_command_has_one_outcome()
    ensures { (ordered : Bool) (first second after after_second : BenchState) (n : ℕ) (c : Command) (out out_second : List Line) →
        LookSame ordered first second → Does first n c out after → Does second n c out_second after_second →
        PrintSame ordered c out out_second × LookSame ordered after after_second }
{}

/// Two records of the same lines, under the same numbers, are the same.
///
/// The benches look the same before: both are new, say. They look the same afterwards. If the order of the notes of different
/// clients is left out (`ordered` is `false`), this holds if none of the lines asks for notes.
pub fn two_records_of_the_same_commands_are_the_same()
    ensures { (ordered : Bool) (first second after after_second : BenchState) (all all_second : List Recorded) →
        LookSame ordered first second → AreSettled ordered all → OfSameLines all all_second → Leads first all after →
        Leads second all_second after_second → (all ≡ all_second) × LookSame ordered after after_second }
{}
