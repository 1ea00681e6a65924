//! The sessions, and queues of events, as a host drives them: a test is rows of acts, and of what each act tells. One function owns
//! the session.

mod acts;
mod args;
mod chosen;
mod client;
mod client_acts;
mod client_messages;
mod drills;
mod guards;
mod messages;
mod queues;
mod registries;
mod relays;
mod rows;
mod server;
mod session;
mod told;
mod violations;
