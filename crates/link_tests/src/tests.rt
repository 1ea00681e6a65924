//! The link to a peer and the map of objects: each test hands a list of calls to the one function that owns the link,
//! the script, the mailbox or the map, and compares what the calls told.

mod drops;
mod handed_on;
mod limits;
mod mailbox;
mod no_memory;
mod objects;
mod received;
mod run;
mod script;
mod sent;
mod transports;
