//! How the answer of a session's call goes out to C.

ghost use Rattle.std.specs.Prelude.{◌≡◌, ◌≢◌};
ghost use Rattle.wl_c.specs.Calls.{Written, WrittenExtension, WrittenFault, WrittenNumber, fault_code, flagged};
ghost use Rattle.wl_c.specs.Queues.{number_of, unused};

use wl_host::{ExtensionFault, Status, TableFault, UnusedObject, fault};

/// Writes what a call answers, unless it was refused, and answers the number of its status.
pub fn write_answer<T: Drop>(answer: Result<T, Status>, out: &mut T) -> u32
    ensures answered { Written answer result out.old out.new }
    ensures unwritten { result ≢ 0 → out.new ≡ out.old }
{
    match answer {
        Ok(value) => {
            *out = value;
            Status::Ok.code()
        }
        Err(status) => status.code(),
    }
}

/// The same for a call that answers yes or no, which is 1 or 0 in C.
pub fn write_flag(answer: Result<bool, Status>, out: &mut u32) -> u32
    ensures answered { Written (flagged answer) result out.old out.new }
    ensures unwritten { result ≢ 0 → out.new ≡ out.old }
{
    match answer {
        Ok(yes) => {
            *out = if yes { 1 } else { 0 };
            Status::Ok.code()
        }
        Err(status) => status.code(),
    }
}

/// Writes the slot of an object that is unused, and its content, unless there is none, and answers the number of the status.
pub fn write_unused(
    answer: Result<UnusedObject, Status>,
    object: &mut usize,
    content: &mut u64,
) -> u32
    ensures answered { Written answer result (unused object.old content.old) (unused object.new content.new) }
    ensures unwritten { result ≢ 0 → (object.new ≡ object.old) × (content.new ≡ content.old) }
{
    match answer {
        Ok(told) => {
            *object = told.object;
            *content = told.content;
            Status::Ok.code()
        }
        Err(status) => status.code(),
    }
}

/// Writes why a table was refused, if it was, and answers the number of the status.
pub fn write_added(answer: Result<(), TableFault>, out: &mut TableFault) -> u32
    ensures answered { WrittenFault answer result out.old out.new }
    ensures unfaulted { result ≡ 0 → out.new ≡ out.old }
{
    match answer {
        Ok(()) => Status::Ok.code(),
        Err(refused) => write_fault(refused, out),
    }
}

/// Writes why a table was refused, and answers the number of the status.
pub fn write_fault(refused: TableFault, out: &mut TableFault) -> u32
    ensures written { out.new ≡ refused }
    ensures code { result ≡ fault_code refused }
{
    *out = refused;
    if refused.fault == fault::OUT_OF_MEMORY {
        Status::OutOfMemory.code()
    } else {
        Status::BadTable.code()
    }
}

/// Writes why whole rows were refused, or only some of them taken, if so, and answers the number of the status.
pub fn write_extended(answer: Result<(), ExtensionFault>, out: &mut ExtensionFault) -> u32
    ensures answered { WrittenExtension answer result out.old out.new }
    ensures unfaulted { result ≡ 0 → out.new ≡ out.old }
{
    match answer {
        Ok(()) => Status::Ok.code(),
        Err(refused) => {
            *out = refused;
            if refused.fault == fault::OUT_OF_MEMORY {
                Status::OutOfMemory.code()
            } else {
                Status::BadTable.code()
            }
        }
    }
}

/// Writes the number of an interface that joined a table, or why it was refused, and answers the number of the status.
pub fn write_joined(
    answer: Result<u32, ExtensionFault>,
    number: &mut u32,
    fault: &mut ExtensionFault,
) -> u32
    ensures answered { WrittenNumber answer result number.old number.new fault.old fault.new }
    ensures unnumbered { result ≢ 0 → number.new ≡ number.old }
    ensures unfaulted { result ≡ 0 → fault.new ≡ fault.old }
{
    match answer {
        Ok(joined) => {
            *number = joined;
            Status::Ok.code()
        }
        Err(refused) => write_extended(Err(refused), fault),
    }
}

/// The number of what a call answers that writes nothing.
pub fn number_of(answer: Result<(), Status>) -> u32
    ensures { result ≡ number_of answer }
{
    match answer {
        Ok(()) => Status::Ok.code(),
        Err(status) => status.code(),
    }
}
