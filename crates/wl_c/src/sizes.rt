//! How many bytes each struct has that goes between Rattle and C, proved.
//!
//! C asserts the same numbers: `embed/check-header` compares each struct's size and each field's place.

use crate::client::ClientPlace;
use crate::guard::GuardPlace;
use crate::policy::PolicyPlace;
use crate::queues::QueuesPlace;
use crate::relay::RelayPlace;
use crate::server::ServerPlace;
use std::mem::size_of;
use wl_host::{
    ArgumentRow, Counts, ExtensionFault, FlatAction, FlatArgument, FlatClientId, FlatEnd,
    FlatError, FlatEvent, FlatGlobalId, FlatGlobalInfo, FlatHeldObject, FlatNote, FlatObjectId,
    FlatObjectInfo, FlatQueuedEvent, FlatQueuedObject, FlatReaders, FlatRequest, FlatRun, FlatTold,
    FlatTurn, FlatViolation, Gone, InterfaceRow, MessageRow, TableFault, Waiting,
};

const _: () = prove!(size_of::<ServerPlace>() == 16);

const _: () = prove!(size_of::<ClientPlace>() == 16);

const _: () = prove!(size_of::<FlatClientId>() == 16);

const _: () = prove!(size_of::<FlatObjectId>() == 32);

const _: () = prove!(size_of::<FlatGlobalId>() == 16);

const _: () = prove!(size_of::<InterfaceRow>() == 20);

const _: () = prove!(size_of::<MessageRow>() == 20);

const _: () = prove!(size_of::<ArgumentRow>() == 12);

const _: () = prove!(size_of::<TableFault>() == 8);

const _: () = prove!(size_of::<ExtensionFault>() == 20);

const _: () = prove!(size_of::<FlatArgument>() == 56);

const _: () = prove!(size_of::<FlatAction>() == 120);

const _: () = prove!(size_of::<FlatEvent>() == 104);

const _: () = prove!(size_of::<FlatRequest>() == 64);

const _: () = prove!(size_of::<FlatObjectInfo>() == 12);

const _: () = prove!(size_of::<FlatHeldObject>() == 40);

const _: () = prove!(size_of::<FlatGlobalInfo>() == 16);

const _: () = prove!(size_of::<FlatNote>() == 80);

const _: () = prove!(size_of::<FlatTold>() == 32);

const _: () = prove!(size_of::<FlatRun>() == 44);

const _: () = prove!(size_of::<FlatError>() == 28);

const _: () = prove!(size_of::<Counts>() == 8);

const _: () = prove!(size_of::<Waiting>() == 16);

const _: () = prove!(size_of::<Gone>() == 32);

const _: () = prove!(size_of::<QueuesPlace>() == 16);

const _: () = prove!(size_of::<FlatQueuedEvent>() == 40);

const _: () = prove!(size_of::<FlatQueuedObject>() == 24);

const _: () = prove!(size_of::<FlatReaders>() == 24);

const _: () = prove!(size_of::<FlatTurn>() == 16);

const _: () = prove!(size_of::<FlatViolation>() == 32);

const _: () = prove!(size_of::<PolicyPlace>() == 16);

const _: () = prove!(size_of::<GuardPlace>() == 16);

const _: () = prove!(size_of::<FlatEnd>() == 16);

const _: () = prove!(size_of::<RelayPlace>() == 16);
