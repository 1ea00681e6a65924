//! A server's session for C: its place, and the calls of `nb_server_`.
//!
//! | Calls | File |
//! |---|---|
//! | `new`, `end`, `add_interfaces`, `extend_interfaces`, `memory_refused`, the limits, `refuse_nulls`, `tell_messages` | `session` |
//! | `insert_client`, `received`, .. | `clients` |
//! | `next_action`, `finish_request`, `send_event`, .. | `actions` |
//! | `create_object`, `object_data`, .. | `objects` |
//! | `create_object_at`, `claim_object`, `set_object_version`, `object_by_number`, `held_objects` | `chosen` |
//! | `create_global`, `global_name`, .. | `globals` |
//! | `join_interface` | `joining` |
//! | `set_object_limit` | `limits` |
//! | `violation` | `violations` |
//! | `hand_out_registries`, `announce_global`, `withdraw_global` | `registries` |
//! | `next_writable`, `to_send`, `cleanup`, `next_gone`, .. | `sending` |
//! | `waiting` | `waiting` |
//! | `next_told` | `telling` |

mod actions;
mod chosen;
mod clients;
mod globals;
mod joining;
mod kept;
mod limits;
mod objects;
mod place;
mod registries;
mod sending;
mod session;
mod telling;
mod violations;
mod waiting;

pub use place::ServerPlace;
