//! What follows from the definitions alone. Each function does nothing; its contract states a law.

/// Laws of a link, `Memory` and `Mailbox`: nothing is lost, messages come back however cut, and there is one outcome.
pub mod calls;
/// Laws of what object ids name, over every run of a session.
pub mod ids;
/// Laws of reading, for the client and the server: nothing is lost, and fragmentation changes nothing.
pub mod readers;
/// Laws of runs, which are lists of calls: two runs in a row are one, and there is one outcome.
pub mod runs;
