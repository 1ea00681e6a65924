//! The tests of `wl_client`: runs of a client over a script, each compared with what its calls have to answer.
//!
//! A run is a list of `Act`s, and `log_of` makes its calls. Each row is run twice: with messages that are moved, and with messages
//! that are lent. `IdsExhausted` and `SerialsExhausted` come after 4278190079
//! objects and after 2^64 - 1 serials, which no test reaches.

mod acts;
mod cuts;
mod drops;
mod events;
mod failing;
mod faults;
mod freed;
mod hints;
mod objects;
mod passed_over;
mod reclaimed;
mod replayed;
mod requests;
mod texts;
mod ways;
