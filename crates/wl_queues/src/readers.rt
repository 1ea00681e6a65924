//! Which of several threads reads from one connection.

ghost use Rattle.std.specs.Prelude.{◌≡◌, ◌↔◌, ◌<◌, Ok, Err, IfNone, IfSome, IsTrue, if◌then◌else◌};
ghost use Rattle.wl_queues.specs.Readers.{LacksTurn, begun, cancel_of, cancelled, ended_by, greatest, no_readers, prepared_by, turn_of, turns_of};

use std::marker::Model;

/// What a thread that begins has to do.
#[derive(Clone, Copy, Debug, PartialEq, Eq)]
pub enum Turn {
    /// It reads, and then calls `Readers::end`.
    Read,
    /// It waits until `Readers::ended` is not this number any more.
    Wait(u64),
}

/// Why a thread may not prepare.
#[derive(Clone, Copy, Debug, PartialEq, Eq)]
pub enum PrepareError {
    /// Events wait in its queue: it has to handle these first.
    EventsWait,
    /// No number is left for a turn. That is so after some 2^64 turns.
    TurnsExhausted,
}

/// No thread has prepared, so none can begin or cancel.
#[derive(Clone, Copy, Debug, PartialEq, Eq)]
pub struct NotPrepared;

/// No thread reads, so none can end its reading.
#[derive(Clone, Copy, Debug, PartialEq, Eq)]
pub struct NotReading;

/// Which of several threads reads from one connection. It is a plain value: each call is one step, which the host makes under its
/// lock. It stands for the readers of `wl_display`.
///
/// A thread that wants to wait for events *prepares*. It looks at what else it has to do, flushes and polls, and then *begins*,
/// or cancels. The last of those that prepared begins to read; the others wait until its *turn* ends. A turn ends with `end`, or
/// with the `cancel` of the last one.
#[derive(Clone, Copy, Debug, PartialEq, Eq)]
pub struct Readers {
    /// How many threads have prepared, and neither began nor cancelled.
    prepared: u64,
    /// Whether a thread reads.
    is_reading: bool,
    /// How many turns have ended.
    ended: u64,
}

impl Model for Readers {
    ghost use Rattle.std.specs.Prelude.{◌≤◌};
    ghost use Rattle.wl_queues.specs.Readers.{ReadersState, greatest, turns_of};

    ghost Value = { ReadersState };

    ghost view = { λ r.
        record { prepared = r.prepared; is_reading = r.is_reading; ended = r.ended } };

    ghost invariant = { λ r. turns_of r.prepared r.is_reading r.ended ≤ greatest };

    ghost inverse = { λ r.
        record { prepared = r.prepared; is_reading = r.is_reading; ended = r.ended } };
}

impl Readers {
    /// No thread has prepared, and no turn has ended.
    pub fn new() -> Self
        ensures { result ≡ no_readers }
    {
        Readers {
            prepared: 0,
            is_reading: false,
            ended: 0,
        }
    }

    /// Readers that are at this point: so many threads have prepared, one reads or none, and so many turns have ended. So readers
    /// can be kept as what `prepared`, `is_reading` and `ended` tell, and be had back.
    ///
    /// `None`: no readers come to this point. More than 2^64 - 1 turns would have ended, once each of these threads has ended its own.
    pub fn from_parts(prepared: u64, is_reading: bool, ended: u64) -> Option<Self>
        ensures some { IfSome result (λ r.
            r ≡ record { prepared = prepared; is_reading = is_reading; ended = ended }) }
        ensures none { IfNone result (greatest < turns_of prepared is_reading ended) }
    {
        ended
            .checked_add(prepared)?
            .checked_add(u64::from(is_reading))?;
        Some(Readers {
            prepared,
            is_reading,
            ended,
        })
    }

    /// How many threads have prepared, and neither began nor cancelled.
    pub fn prepared(&self) -> u64
        ensures { result ≡ self.now.prepared }
    {
        self.prepared
    }

    /// Whether a thread reads.
    pub fn is_reading(&self) -> bool
        ensures { result ≡ self.now.is_reading }
    {
        self.is_reading
    }

    /// How many turns have ended. A thread that waits goes on once this is another number than the one that it waits with.
    pub fn ended(&self) -> u64
        ensures { result ≡ self.now.ended }
    {
        self.ended
    }

    /// A thread is about to read, unless events wait in its queue (`has_events`). It has to call `begin` or `cancel` after that.
    /// Events in other queues do not matter.
    ///
    /// It stands for `wl_display_prepare_read_queue`.
    pub fn prepare(&mut self, has_events: bool) -> Result<(), PrepareError>
        ensures events_wait { (result ≡ Err PrepareError.EventsWait) ↔ IsTrue has_events }
        ensures exhausted { (result ≡ Err PrepareError.TurnsExhausted)
            ↔ LacksTurn has_events self.old }
        ensures new { self.new ≡ prepared_by has_events self.old }
    {
        if has_events {
            return Err(PrepareError::EventsWait);
        }
        let used = self.ended + self.prepared + u64::from(self.is_reading);
        if used == u64::MAX {
            return Err(PrepareError::TurnsExhausted);
        }
        self.prepared += 1;
        Ok(())
    }

    /// A thread that prepared goes on: it reads if no other has prepared or reads, and else it waits for the turn to end.
    ///
    /// With `end` it stands for `wl_display_read_events`.
    pub fn begin(&mut self) -> Result<Turn, NotPrepared>
        ensures turn { result ≡ turn_of self.old }
        ensures new { self.new ≡ begun self.old }
    {
        if self.prepared == 0 {
            return Err(NotPrepared);
        }
        self.prepared -= 1;
        if self.prepared == 0 && !self.is_reading {
            self.is_reading = true;
            return Ok(Turn::Read);
        }
        Ok(Turn::Wait(self.ended))
    }

    /// The thread that reads has read what was there, or could not. The turn ends: wake all threads that wait.
    pub fn end(&mut self) -> Result<(), NotReading>
        ensures answer { result ≡ (if self.old.is_reading then Ok _ else Err _) }
        ensures new { self.new ≡ ended_by self.old }
    {
        if !self.is_reading {
            return Err(NotReading);
        }
        self.is_reading = false;
        self.ended += 1;
        Ok(())
    }

    /// A thread that prepared does not read. If no other has prepared or reads, the turn ends by that: the answer is `true`, and
    /// all threads that wait have to be woken.
    ///
    /// It stands for `wl_display_cancel_read`.
    pub fn cancel(&mut self) -> Result<bool, NotPrepared>
        ensures answer { result ≡ cancel_of self.old }
        ensures new { self.new ≡ cancelled self.old }
    {
        if self.prepared == 0 {
            return Err(NotPrepared);
        }
        self.prepared -= 1;
        let ends = self.prepared == 0 && !self.is_reading;
        if ends {
            self.ended += 1;
        }
        Ok(ends)
    }
}
