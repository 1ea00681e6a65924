//! Why the program ends before its work is done.

ghost use Rattle.std.specs.Prelude.{◌≡◌};
ghost use Rattle.wl_bench.specs.declared.stop.Stop.TheVariants.{Failed};

use std::alloc::{AllocError, AllocFailed};
use std::io;
use wl_client::{FlushError, RequestError};
use wl_link::ArriveError;
use wl_server::{InsertClientError, InvalidId};
use wl_wire::{IoFault, OutOfMemory, TableError};

/// Why the program ends before its work is done.
#[derive(Clone, Copy, Debug, PartialEq, Eq)]
pub enum Stop {
    /// The arguments name no program.
    Usage,
    /// This line of the input, counted from 1, is no command, or names a slot at which no client was inserted.
    BadLine(u64),
    /// A recording differs from the record of its own commands.
    Differs,
    /// Memory, input or output failed.
    Failed,
}

impl From<AllocError> for Stop {
    ghost from_gives = { λ _ e. e ≡ Failed };

    fn from(_e: AllocError) -> Stop {
        Stop::Failed
    }
}

impl<T: Drop> From<AllocFailed<T>> for Stop {
    ghost from_gives = { λ _ e. e ≡ Failed };

    fn from(_e: AllocFailed<T>) -> Stop {
        Stop::Failed
    }
}

impl From<OutOfMemory> for Stop {
    ghost from_gives = { λ _ e. e ≡ Failed };

    fn from(_e: OutOfMemory) -> Stop {
        Stop::Failed
    }
}

impl From<io::Error> for Stop {
    ghost from_gives = { λ _ e. e ≡ Failed };

    fn from(_e: io::Error) -> Stop {
        Stop::Failed
    }
}

impl From<TableError> for Stop {
    ghost from_gives = { λ _ e. e ≡ Failed };

    fn from(_e: TableError) -> Stop {
        Stop::Failed
    }
}

impl From<IoFault> for Stop {
    ghost from_gives = { λ _ e. e ≡ Failed };

    fn from(_e: IoFault) -> Stop {
        Stop::Failed
    }
}

impl From<RequestError> for Stop {
    ghost from_gives = { λ _ e. e ≡ Failed };

    fn from(_e: RequestError) -> Stop {
        Stop::Failed
    }
}

impl From<FlushError> for Stop {
    ghost from_gives = { λ _ e. e ≡ Failed };

    fn from(_e: FlushError) -> Stop {
        Stop::Failed
    }
}

impl From<ArriveError> for Stop {
    ghost from_gives = { λ _ e. e ≡ Failed };

    fn from(_e: ArriveError) -> Stop {
        Stop::Failed
    }
}

impl From<InsertClientError> for Stop {
    ghost from_gives = { λ _ e. e ≡ Failed };

    fn from(_e: InsertClientError) -> Stop {
        Stop::Failed
    }
}

impl From<InvalidId> for Stop {
    ghost from_gives = { λ _ e. e ≡ Failed };

    fn from(_e: InvalidId) -> Stop {
        Stop::Failed
    }
}
