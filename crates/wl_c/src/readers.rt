//! Who reads, in a struct of C's: the calls of `nb_readers_`.

ghost use Rattle.std.specs.Prelude.{◌≡◌, ◌≢◌};
ghost use Rattle.wl_c.specs.Calls.{Written, flagged};
ghost use Rattle.wl_c.specs.Queues.{number_of};
ghost use Rattle.wl_flat.specs.Nulls.{sets};
ghost use Rattle.wl_flat.specs.Readers.{answer_of, begin_answer, cancel_answer, end_answer, ended_answer, prepare_answer, readers_after};
ghost use Rattle.wl_queues.specs.Readers.{begun, cancelled, ended_by, prepared_by};

use crate::answer::{number_of, write_answer, write_flag};
use wl_host::{FlatReaders, FlatTurn};

/// A thread is about to read.
#[unsafe(no_mangle)]
pub extern "C" fn nb_readers_prepare(readers: &mut FlatReaders, has_events: u32) -> u32
    ensures answer { result ≡ number_of (answer_of (prepare_answer (sets has_events)) readers.old) }
    ensures call { readers.new ≡ readers_after (answer_of (prepare_answer (sets has_events)) readers.old) (prepared_by (sets has_events)) readers.old }
{
    number_of(readers.prepare(has_events))
}

/// A thread that prepared goes on. What it has to do is written.
#[unsafe(no_mangle)]
pub extern "C" fn nb_readers_begin(readers: &mut FlatReaders, turn: &mut FlatTurn) -> u32
    ensures unwritten { result ≢ 0 → turn.new ≡ turn.old }
    ensures answer { Written (answer_of begin_answer readers.old) result turn.old turn.new }
    ensures call { readers.new ≡ readers_after (answer_of begin_answer readers.old) begun readers.old }
{
    let answer = readers.begin();
    write_answer(answer, turn)
}

/// The thread that reads has read.
#[unsafe(no_mangle)]
pub extern "C" fn nb_readers_end(readers: &mut FlatReaders) -> u32
    ensures answer { result ≡ number_of (answer_of end_answer readers.old) }
    ensures call { readers.new ≡ readers_after (answer_of end_answer readers.old) ended_by readers.old }
{
    number_of(readers.end())
}

/// A thread that prepared does not read. Whether the turn ends by that is written.
#[unsafe(no_mangle)]
pub extern "C" fn nb_readers_cancel(readers: &mut FlatReaders, ends: &mut u32) -> u32
    ensures unwritten { result ≢ 0 → ends.new ≡ ends.old }
    ensures answer { Written (flagged (answer_of cancel_answer readers.old)) result ends.old ends.new }
    ensures call { readers.new ≡ readers_after (answer_of cancel_answer readers.old) cancelled readers.old }
{
    let answer = readers.cancel();
    write_flag(answer, ends)
}

/// Writes how many turns have ended.
#[unsafe(no_mangle)]
pub extern "C" fn nb_readers_ended(readers: &FlatReaders, ended: &mut u64) -> u32
    ensures unwritten { result ≢ 0 → ended.new ≡ ended.old }
    ensures answer { Written (answer_of ended_answer readers.now) result ended.old ended.new }
{
    write_answer(readers.ended(), ended)
}
