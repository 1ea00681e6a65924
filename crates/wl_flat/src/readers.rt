//! Which of several threads reads, as a plain struct of the host's.

ghost use Rattle.std.specs.Prelude.{◌≡◌};
ghost use Rattle.wl_queues.specs.Readers.{begun, cancelled, ended_by, prepared_by};
ghost use Rattle.wl_flat.specs.Nulls.{sets};
ghost use Rattle.wl_flat.specs.Readers.{answer_of, begin_answer, cancel_answer, end_answer, ended_answer, flat_readers, flat_turn, prepare_answer, readers_after, readers_in};

use crate::status::Status;
use wl_queues::{PrepareError, Readers, Turn};

/// Which of several threads reads (`wl_queues::Readers`): all zeros at first. The struct is the host's, which makes each call under
/// one lock.
#[repr(C)]
#[derive(Clone, Copy, Debug, PartialEq, Eq, Drop)]
pub struct FlatReaders {
    /// How many threads have prepared, and neither began nor cancelled.
    pub prepared: u64,
    /// How many turns have ended.
    pub ended: u64,
    /// Not 0 if a thread reads.
    pub is_reading: u32,
}

/// What a thread that begins has to do (`wl_queues::Turn`).
#[repr(C)]
#[derive(Clone, Copy, Debug, PartialEq, Eq, Drop)]
pub struct FlatTurn {
    /// If it waits: it goes on once another number of turns has ended. Else 0.
    pub ended: u64,
    /// 1 if it reads, and 0 if it waits.
    pub reads: u32,
}

impl FlatTurn {
    /// The turn as a flat struct.
    fn new(turn: Turn) -> FlatTurn
        ensures { result ≡ flat_turn turn }
    {
        match turn {
            Turn::Read => FlatTurn { ended: 0, reads: 1 },
            Turn::Wait(ended) => FlatTurn { ended, reads: 0 },
        }
    }
}

impl FlatReaders {
    /// The readers as a flat struct.
    fn new(readers: &Readers) -> FlatReaders
        ensures { result ≡ flat_readers readers.now }
    {
        FlatReaders {
            prepared: readers.prepared(),
            ended: readers.ended(),
            is_reading: u32::from(readers.is_reading()),
        }
    }

    /// The readers that the struct stands for. The status is `InvalidInput` if there are none.
    fn readers(&self) -> Result<Readers, Status>
        ensures { result ≡ readers_in self.now }
    {
        match Readers::from_parts(self.prepared, self.is_reading != 0, self.ended) {
            Some(readers) => Ok(readers),
            None => Err(Status::InvalidInput),
        }
    }

    /// A thread is about to read, unless events wait in its queue: they do if `has_events` is not 0.
    ///
    /// The status is `InvalidInput` if no readers have these numbers, `EventsWait` if events wait, and `SerialsExhausted` if no number
    /// is left for a turn. Then nothing is changed.
    pub fn prepare(&mut self, has_events: u32) -> Result<(), Status>
        ensures answer { result ≡ answer_of (prepare_answer (sets has_events)) self.old }
        ensures new { self.new ≡ readers_after result (prepared_by (sets has_events)) self.old }
    {
        let mut readers = self.readers()?;
        match readers.prepare(has_events != 0) {
            Ok(()) => {
                *self = FlatReaders::new(&readers);
                Ok(())
            }
            Err(PrepareError::EventsWait) => Err(Status::EventsWait),
            Err(PrepareError::TurnsExhausted) => Err(Status::SerialsExhausted),
        }
    }

    /// A thread that prepared goes on: it reads, or waits for the turn to end.
    ///
    /// The status is `InvalidInput` if no readers have these numbers, and `NotPrepared` if no thread has prepared. Then nothing is
    /// changed.
    pub fn begin(&mut self) -> Result<FlatTurn, Status>
        ensures answer { result ≡ answer_of begin_answer self.old }
        ensures new { self.new ≡ readers_after result begun self.old }
    {
        let mut readers = self.readers()?;
        match readers.begin() {
            Ok(turn) => {
                *self = FlatReaders::new(&readers);
                Ok(FlatTurn::new(turn))
            }
            Err(_) => Err(Status::NotPrepared),
        }
    }

    /// The thread that reads has read what was there, or could not. All threads that wait have to be woken.
    ///
    /// The status is `InvalidInput` if no readers have these numbers, and `NotReading` if no thread reads. Then nothing is changed.
    pub fn end(&mut self) -> Result<(), Status>
        ensures answer { result ≡ answer_of end_answer self.old }
        ensures new { self.new ≡ readers_after result ended_by self.old }
    {
        let mut readers = self.readers()?;
        match readers.end() {
            Ok(()) => {
                *self = FlatReaders::new(&readers);
                Ok(())
            }
            Err(_) => Err(Status::NotReading),
        }
    }

    /// A thread that prepared does not read. If the turn ends by that, the answer is `true`, and all threads that wait have to be
    /// woken.
    ///
    /// The status is `InvalidInput` if no readers have these numbers, and `NotPrepared` if no thread has prepared. Then nothing is
    /// changed.
    pub fn cancel(&mut self) -> Result<bool, Status>
        ensures answer { result ≡ answer_of cancel_answer self.old }
        ensures new { self.new ≡ readers_after result cancelled self.old }
    {
        let mut readers = self.readers()?;
        match readers.cancel() {
            Ok(ends) => {
                *self = FlatReaders::new(&readers);
                Ok(ends)
            }
            Err(_) => Err(Status::NotPrepared),
        }
    }

    /// How many turns have ended. A thread that waits goes on once this is another number than the one that it waits with.
    ///
    /// The status is `InvalidInput` if no readers have these numbers.
    pub fn ended(&self) -> Result<u64, Status>
        ensures { result ≡ answer_of ended_answer self.now }
    {
        let readers = self.readers()?;
        Ok(readers.ended())
    }
}
