//! The tests of `wl_server`: runs of a server over scripts, each compared with what its calls have to answer.
//!
//! A run is a list of `Act`s, and `log_of` makes its calls, most of them by `replay`.

mod arguments;
mod beside;
mod buffers;
mod chosen;
mod cleanups;
mod cuts;
mod cutting;
mod dispatches;
mod drops;
mod globals;
mod handlers;
mod limits;
mod long;
mod no_memory;
mod notes;
mod one_client;
mod registries;
mod run;
mod violations;
mod walks;
