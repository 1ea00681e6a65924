//! What follows from the definitions alone. Each function has a law as its contract, and does nothing.

ghost use Rattle.std.specs.Prelude.{◌≡◌, ◌≢◌, ◌<◌, ◌≤◌, ◌^◌, ◌++◌, ◌∷◌, [], ℕ, ℤ, Bool, Err, List, Ok, Option, Result, Some, false, if◌then◌else◌, length, min, true};
ghost use Rattle.std.specs.List.{AllByRecursion};
ghost use Rattle.wl_client.specs.ObjectId.{IdParts as ProxyParts};
ghost use Rattle.wl_follow.specs.Sent.{untold};
ghost use Rattle.wl_follow.specs.declared.side.Side.TheVariants.{Client, Server};
ghost use Rattle.wl_link.specs.Exchange.{joined};
ghost use Rattle.wl_link.specs.Mailbox.{MailboxState, front};
ghost use Rattle.wl_link.specs.declared.mailbox.Ending.{Ending};
ghost use Rattle.wl_server_model.specs.Backend.{Calls};
ghost use Rattle.wl_server_client.specs.Ids.{ClientParts, GlobalParts, IdParts};
ghost use Rattle.wl_server_model.specs.declared.step.Reply.TheVariants as reply;
ghost use Rattle.wl_server_model.specs.declared.step.Step.TheVariants as step;
ghost use Rattle.wl_wire.specs.declared.argument.Argument.{Argument};
ghost use Rattle.wl_wire.specs.declared.argument.ArgumentType.{ArgumentType};
ghost use Rattle.wl_wire.specs.declared.argument.Token.{Token};
ghost use Rattle.wl_wire.specs.declared.error.OutOfMemory.{OutOfMemory};
ghost use Rattle.wl_wire.specs.Table.{InterfaceRow};
ghost use Rattle.wl_host.specs.Actions.{EndsAsAction, EndsBind, EndsRequest, Lent, NextAction};
ghost use Rattle.wl_host.specs.Allowed.{LendsAllowedAction};
ghost use Rattle.wl_host_client.specs.Allowed.{LendsAllowedEvent};
ghost use Rattle.wl_flat.specs.Arguments.{ComesBack, IsReadInPlace, all_bytes, arguments_of, flat_arguments, moved};
ghost use Rattle.wl_host.specs.Calls.{CoreState, CreatesGlobal, CreatesObject, InsertsClient, SetsObjectData, world};
ghost use Rattle.wl_host.specs.Chosen.{ClaimsObject, CreatesObjectAt, SetsObjectVersion};
ghost use Rattle.wl_host.specs.Cleaning.{CleansUp};
ghost use Rattle.wl_host_client.specs.Client.{ClientCore, HandsNext, HostedClient, LentForEvent, Receives, has_failed, sent, to_send as client_to_send};
ghost use Rattle.wl_host_client.specs.ClientTellings as of_client;
ghost use Rattle.wl_host.specs.Clients.{SetsRoom, inserted};
ghost use Rattle.wl_flat.specs.Descriptors.{Descriptors};
ghost use Rattle.wl_host.specs.Events.{Passed, PostsError, SendsEvent};
ghost use Rattle.wl_flat.specs.Extending.{HasRow, KeepsInterfaces};
ghost use Rattle.wl_host.specs.Flushing.{FlushesClient};
ghost use Rattle.wl_flat.specs.Flat.{client_of, flat_proxy, flat_resource, proxy_of, resource_of};
ghost use Rattle.wl_host.specs.Hearing.{is_told, ledger_after, with_heard};
ghost use Rattle.wl_flat.specs.Joining.{IsJoined, IsJoinedAmong};
ghost use Rattle.wl_host.specs.Killed.{IsSettled, KnowsEnd, StaysSettled};
ghost use Rattle.wl_host.specs.Notes.{NextNote};
ghost use Rattle.wl_flat.specs.Nulls.{TellsNull, forbidden_null};
ghost use Rattle.wl_host.specs.Registries.{AllTell, Announces, Called, KeepsOutstanding, Neither, Tells};
ghost use Rattle.wl_flat.specs.Rows.{said_by};
ghost use Rattle.wl_host.specs.Seats.{ledger_of};
ghost use Rattle.wl_flat.specs.Sending.{Copied, copied as copied_from, queue_after};
ghost use Rattle.wl_host.specs.Server.{Ends, NextWritable, Received, Sent, ServerState, to_send};
ghost use Rattle.wl_host.specs.Tables.{AddsInterfaces, ExtendsInterfaces, IsNewServer, JoinsServer};
ghost use Rattle.wl_host_client.specs.Tables.{ExtendsClient, IsNewClient, JoinsClient};
ghost use Rattle.wl_host.specs.Tellings.{CatchesUpWith, CopiesTold, NextTold, ReadsTold, SendsTold, TellsNothing, unread_by};
ghost use Rattle.wl_flat.specs.Told.{LentTold, said_part, waiting_in};
ghost use Rattle.wl_flat.specs.ToldRuns.{AreTold, CaughtUp, Deed, FoundNone, Heard, Leads, NothingWaits, SentOff, Watched, Wrote, all_found, all_handed, all_heard, all_read, all_sent, all_told, kept_in, new_watched};
ghost use Rattle.wl_host.specs.Watching.{ComesTo, ComesToAll, Watches};
ghost use Rattle.wl_flat.specs.declared.extending.ExtensionFault.{ExtensionFault};
ghost use Rattle.wl_flat.specs.declared.flat.FlatAction.{FlatAction};
ghost use Rattle.wl_flat.specs.declared.flat.FlatArgument.{FlatArgument};
ghost use Rattle.wl_flat.specs.declared.flat.FlatClientId.{FlatClientId};
ghost use Rattle.wl_flat.specs.declared.flat.FlatGlobalId.{FlatGlobalId};
ghost use Rattle.wl_flat.specs.declared.flat.FlatNote.{FlatNote};
ghost use Rattle.wl_flat.specs.declared.flat.FlatObjectId.{FlatObjectId};
ghost use Rattle.wl_flat.specs.declared.rows.Rows.{Rows};
ghost use Rattle.wl_flat.specs.declared.rows.TableFault.{TableFault};
ghost use Rattle.wl_host.specs.declared.server.ledger.Ledger.{Ledger};
ghost use Rattle.wl_flat.specs.declared.status.Status.{Status};
ghost use Rattle.wl_flat.specs.declared.status.Status.TheVariants as status;

/// Arguments that are handed out as flat structs and passed in again are the same arguments, in a server's session and in a
/// client's. Their descriptors get the tokens that come next where they go in. The strings and arrays take fewer than 2³² bytes
/// together.
pub fn flat_arguments_come_back()
    ensures server { (user_data : IdParts → ℕ) (out_of into : Descriptors) (args : List (Argument IdParts Token)) → AllByRecursion (ComesBack flat_resource resource_of) args → length (all_bytes args) < 2 ^ 32 → arguments_of resource_of (all_bytes args) into (flat_arguments flat_resource user_data out_of 0 args) ≡ Some (moved out_of into args) }
    ensures client { (user_data : ProxyParts → ℕ) (out_of into : Descriptors) (args : List (Argument ProxyParts Token)) → AllByRecursion (ComesBack flat_proxy proxy_of) args → length (all_bytes args) < 2 ^ 32 → arguments_of proxy_of (all_bytes args) into (flat_arguments flat_proxy user_data out_of 0 args) ≡ Some (moved out_of into args) }
{}

/// A zero follows each string that is handed out, and each string and array begins at a multiple of eight of the bytes that are
/// lent. They take fewer than 2³² bytes together.
pub fn strings_and_arrays_are_read_in_place()
    ensures server { (user_data : IdParts → ℕ) (out_of : Descriptors) (args : List (Argument IdParts Token)) → length (all_bytes args) < 2 ^ 32 → AllByRecursion (IsReadInPlace (all_bytes args)) (flat_arguments flat_resource user_data out_of 0 args) }
    ensures client { (user_data : ProxyParts → ℕ) (out_of : Descriptors) (args : List (Argument ProxyParts Token)) → length (all_bytes args) < 2 ^ 32 → AllByRecursion (IsReadInPlace (all_bytes args)) (flat_arguments flat_proxy user_data out_of 0 args) }
{}

/// What an action of a server's session, and an event of a client's, tells of nulls is 0 if no argument is null where the signature
/// allows no null. Else it is the place of the first such argument, counted from 1.
pub fn a_forbidden_null_is_told()
    ensures server { (signature : List ArgumentType) (args : List (Argument IdParts Token)) → TellsNull flat_resource signature args (forbidden_null flat_resource signature args) }
    ensures client { (signature : List ArgumentType) (args : List (Argument ProxyParts Token)) → TellsNull flat_proxy signature args (forbidden_null flat_proxy signature args) }
{}

/// While a session refuses nulls that the table forbids, what it hands out has none: each argument that is null stands where the
/// signature allows it, and `forbidden_null` is 0.
pub fn no_forbidden_null_is_handed_out()
    ensures action { (before after : ServerState) (id : ClientParts) (arguments : List FlatArgument) (bytes : List ℕ) (lent : Lent) (came_out : List ℤ) → before.refuses_nulls ≡ true → ReadsTold before id arguments bytes status.Ok lent came_out after → LendsAllowedAction after.core arguments bytes lent }
    ensures action_tells_none { (before after : ServerState) (id : ClientParts) (arguments : List FlatArgument) (bytes : List ℕ) (lent : Lent) (came_out : List ℤ) → before.refuses_nulls ≡ true → ReadsTold before id arguments bytes status.Ok lent came_out after → lent.out.forbidden_null ≡ 0 }
    ensures event { (before after : HostedClient) (lent lent' : LentForEvent) (came_out : List ℤ) → before.refuses_nulls ≡ true → of_client.ReadsTold before lent status.Ok came_out after lent' → LendsAllowedEvent before after.core lent lent' }
    ensures event_tells_none { (before after : HostedClient) (lent lent' : LentForEvent) (came_out : List ℤ) → before.refuses_nulls ≡ true → of_client.ReadsTold before lent status.Ok came_out after lent' → lent'.out.forbidden_null ≡ 0 }
{}

/// After whole rows were taken, the table of a session has what each of them says: an interface of its name, which has a message
/// at each opcode of the row that agrees with the row's, and whose version is not lower. Two messages agree if name, `since` and
/// kinds of arguments are the same, and the interfaces where both name one; which of them ends its object, and which arguments may
/// be null, may differ.
pub fn whole_rows_are_there()
    ensures server { (rows : Rows) (before after : CoreState) → ExtendsInterfaces rows before (Ok tt) after → (interfaces : List InterfaceRow) × (said_by rows ≡ Ok interfaces) × AllByRecursion (HasRow after.server.offer.table) interfaces }
    ensures client { (rows : Rows) (before after : ClientCore) → ExtendsClient rows before (Ok tt) after → (interfaces : List InterfaceRow) × (said_by rows ≡ Ok interfaces) × AllByRecursion (HasRow after.session.table) interfaces }
{}

/// Whole rows take nothing away, whatever the answer is: each interface of the table keeps its place, its name and its messages, and
/// its version does not fall.
pub fn whole_rows_take_nothing_away()
    ensures server { (rows : Rows) (before after : CoreState) (result : Result (Unit {0}) ExtensionFault) → ExtendsInterfaces rows before result after → KeepsInterfaces before.server.offer.table after.server.offer.table }
    ensures client { (rows : Rows) (before after : ClientCore) (result : Result (Unit {0}) ExtensionFault) → ExtendsClient rows before result after → KeepsInterfaces before.session.table after.session.table }
{}

/// After one whole interface joined the table of a session, the row of the number that is answered has the interface's name, no
/// lower version, and at each opcode of the interface the same message, but for whether it ends its object. In a client's table
/// apostrophes may be behind the name.
pub fn joined_interface_is_there()
    ensures server { (rows : Rows) (before after : CoreState) (number : ℕ) → JoinsServer rows before (Ok number) after → (said : InterfaceRow) × (said_by rows ≡ Ok (said ∷ [])) × IsJoined after.server.offer.table number said }
    ensures client { (rows : Rows) (before after : ClientCore) (number : ℕ) → JoinsClient rows before (Ok number) after → (said : InterfaceRow) × (said_by rows ≡ Ok (said ∷ [])) × IsJoinedAmong after.session.table number said }
{}

/// Such an interface takes nothing away, whatever the answer is: each interface of the table keeps its place, its name and its
/// messages, and its version does not fall. Where it is refused, the table is as it was.
pub fn joining_takes_nothing_away()
    ensures server { (rows : Rows) (before after : CoreState) (result : Result ℕ ExtensionFault) → JoinsServer rows before result after → KeepsInterfaces before.server.offer.table after.server.offer.table }
    ensures client { (rows : Rows) (before after : ClientCore) (result : Result ℕ ExtensionFault) → JoinsClient rows before result after → KeepsInterfaces before.session.table after.session.table }
    ensures refused_by_server { (rows : Rows) (before after : CoreState) (fault : ExtensionFault) → JoinsServer rows before (Err fault) after → after.server.offer.table ≡ before.server.offer.table }
    ensures refused_by_client { (rows : Rows) (before after : ClientCore) (fault : ExtensionFault) → JoinsClient rows before (Err fault) after → after.session.table ≡ before.session.table }
{}

/// While the next `cleanup` of a server's session would not look for killed clients, nobody is killed: a new session is so, and
/// each call leaves it so. After a cleanup that looked nobody is killed.
///
/// There is a clause for each call, in the words of its own clauses; `marked` is for those after which the next cleanup looks, and
/// `beside` for those that leave the core as it was. Of the end of a request this holds if it is kept beside the core whether the
/// request ends its sender; `next_action` keeps that when it hands the request out.
pub fn a_cleanup_looks_for_the_killed()
    ensures new { (rows : Rows) (s : ServerState) → IsNewServer rows s → IsSettled s }
    ensures insert_client { (before after : ServerState) (user_data groups : ℕ) (hidden : List FlatGlobalId) (result : Result FlatClientId Status) → InsertsClient before.core user_data groups hidden result after.core → after ≡ inserted before after.core result user_data → StaysSettled before after }
    ensures set_room { (before after : ServerState) (id : ClientParts) (room : ℕ) (s : Status) → SetsRoom before id room s after → StaysSettled before after }
    ensures set_max_buffer_size { (before after : ServerState) (id : ClientParts) (size : ℕ) → Calls world before.core (step.SetClientMaxBufferSize id size) reply.SetClientMaxBufferSize after.core → after ≡ record before { core = after.core } → StaysSettled before after }
    ensures set_default_max_buffer_size { (before after : ServerState) (size : ℕ) → Calls world before.core (step.SetDefaultMaxBufferSize size) reply.SetDefaultMaxBufferSize after.core → after ≡ record before { core = after.core } → StaysSettled before after }
    ensures add_interfaces { (before after : ServerState) (rows : Rows) (result : Result (Unit {0}) TableFault) → AddsInterfaces rows before.core result after.core → after ≡ record before { core = after.core } → StaysSettled before after }
    ensures extend_interfaces { (before after : ServerState) (rows : Rows) (result : Result (Unit {0}) ExtensionFault) → ExtendsInterfaces rows before.core result after.core → after ≡ record before { core = after.core } → StaysSettled before after }
    ensures join_interface { (before after : ServerState) (rows : Rows) (result : Result ℕ ExtensionFault) → JoinsServer rows before.core result after.core → after ≡ record before { core = after.core } → StaysSettled before after }
    ensures received { (before after : ServerState) (id : ClientParts) (bytes : List ℕ) (descriptors : List ℤ) (s : Status) → Received before id bytes descriptors s after → StaysSettled before after }
    ensures ended { (before after : ServerState) (id : ClientParts) (ending : Ending) (s : Status) → Ends before id ending s after → StaysSettled before after }
    ensures next_action { (before after : ServerState) (id : ClientParts) (arguments : List FlatArgument) (bytes : List ℕ) (s : Status) (lent : Lent) (came_out : List ℤ) → ReadsTold before id arguments bytes s lent came_out after → StaysSettled before after }
    ensures finish_request { (before after : ServerState) (id : ClientParts) (user_data : Option ℕ) (result : Result Bool Status) → KnowsEnd before id → EndsRequest before id user_data result after → StaysSettled before after }
    ensures finish_bind { (before after : ServerState) (id : ClientParts) (user_data : ℕ) (result : Result Bool Status) → EndsBind before id user_data result after → StaysSettled before after }
    ensures finish_action { (before after : ServerState) (id : ClientParts) (action : FlatAction) (result : Result Bool Status) → KnowsEnd before id → EndsAsAction before id action result after → StaysSettled before after }
    ensures send_event { (before after : ServerState) (passed : Passed) (s : Status) → SendsEvent before passed s after → StaysSettled before after }
    ensures post_error { (before after : ServerState) (object : FlatObjectId) (code : ℕ) (message : List ℕ) (s : Status) → PostsError before object code message s after → StaysSettled before after }
    ensures create_object { (before after : ServerState) (client : FlatClientId) (interface version user_data : ℕ) (result : Result FlatObjectId Status) → CreatesObject before.core client interface version user_data result after.core → after ≡ record before { core = after.core } → StaysSettled before after }
    ensures set_object_data { (before after : ServerState) (object : FlatObjectId) (user_data : ℕ) (s : Status) → SetsObjectData before.core object user_data s after.core → after ≡ record before { core = after.core } → StaysSettled before after }
    ensures create_object_at { (before after : ServerState) (client : FlatClientId) (interface version number user_data : ℕ) (result : Result FlatObjectId Status) → CreatesObjectAt before.core client interface version number user_data result after.core → after ≡ record before { core = after.core } → StaysSettled before after }
    ensures claim_object { (before after : ServerState) (client : FlatClientId) (interface version number user_data : ℕ) (result : Result FlatObjectId Status) → ClaimsObject before.core client interface version number user_data result after.core → after ≡ record before { core = after.core } → StaysSettled before after }
    ensures set_object_version { (before after : ServerState) (object : FlatObjectId) (version : ℕ) (s : Status) → SetsObjectVersion before.core object version s after.core → after ≡ record before { core = after.core } → StaysSettled before after }
    ensures keep_global_names { (before after : ServerState) (keep : Bool) → Calls world before.core (step.KeepGlobalNames keep) reply.KeepGlobalNames after.core → after ≡ record before { core = after.core } → StaysSettled before after }
    ensures set_object_limit { (before after : ServerState) (limit : Option ℕ) → Calls world before.core (step.SetObjectLimit limit) reply.SetObjectLimit after.core → after ≡ record before { core = after.core } → StaysSettled before after }
    ensures hand_out_registries { (before after : ServerState) (hand_out : Bool) → Calls world before.core (step.HandOutRegistries hand_out) reply.HandOutRegistries after.core → after ≡ record before { core = after.core } → StaysSettled before after }
    ensures flush_client { (before after : ServerState) (id : ClientParts) (s : Status) → FlushesClient before id s after → StaysSettled before after }
    ensures refused_global { (before after : ServerState) (interface version user_data groups : ℕ) (hidden : List FlatClientId) (s : Status) → CreatesGlobal before.core interface version user_data groups hidden (Err s) after.core → after ≡ record before { core = after.core } → StaysSettled before after }
    ensures next_writable { (before after : ServerState) (result : Result FlatClientId Status) → NextWritable before result after → StaysSettled before after }
    ensures to_send { (before after : ServerState) (id : ClientParts) (bytes : List ℕ) (descriptors : List ℤ) (copied : Copied) → CopiesTold before id bytes descriptors copied after → StaysSettled before after }
    ensures sent { (before after : ServerState) (id : ClientParts) (count : ℕ) (s : Status) → SendsTold before id count s after → StaysSettled before after }
    ensures next_told { (before after : ServerState) (id : ClientParts) (lent : LentTold) (s : Status) (lent' : LentTold) → NextTold before id lent s lent' after → StaysSettled before after }
    ensures next_note { (before after : ServerState) (out out' : FlatNote) (text text' : List ℕ) (s : Status) → NextNote before out text s out' text' after → StaysSettled before after }
    ensures cleanup { (before after : ServerState) (s : Status) → CleansUp before s after → StaysSettled before after }
    ensures marked { (before after : ServerState) → after.may_clean_up ≡ true → StaysSettled before after }
    ensures beside { (before after : ServerState) → after.core ≡ before.core → after.may_clean_up ≡ before.may_clean_up → StaysSettled before after }
{}

/// A registry that was handed out is told of the removal of exactly those globals that it was told of.
///
/// `withdraw_global` tells the registries of which it is kept that they were told of the global, and no others. Whatever is called
/// between: it is kept only of registries of which `announce_global` answered `Ok`, and which were not told of the removal since; and
/// of a registry that is there all the while it is kept as often, and in the order, as that was answered. After `Ok` the registry was
/// told, or its client had been killed. What is of a registry that is gone may be kept no longer.
///
/// An announcement that was refused, and each call that leaves `told` as it was (`beside`), is one that does neither: so are
/// the calls that are named, and by `beside` those whose clauses name all that they change.
pub fn a_registry_is_told_of_the_removal_of_what_it_was_told_of()
    ensures outstanding { (before : ServerState) (run : List Called) → AllTell before run → KeepsOutstanding before run }
    ensures refused { (before after : ServerState) (registry : IdParts) (global : GlobalParts) (s : Status) → Announces before registry global s after → s ≢ status.Ok → Tells before Neither after }
    ensures received { (before after : ServerState) (id : ClientParts) (bytes : List ℕ) (descriptors : List ℤ) (s : Status) → Received before id bytes descriptors s after → Tells before Neither after }
    ensures next_action { (before after : ServerState) (id : ClientParts) (arguments : List FlatArgument) (bytes : List ℕ) (s : Status) (lent : Lent) (came_out : List ℤ) → ReadsTold before id arguments bytes s lent came_out after → Tells before Neither after }
    ensures to_send { (before after : ServerState) (id : ClientParts) (bytes : List ℕ) (descriptors : List ℤ) (copied : Copied) → CopiesTold before id bytes descriptors copied after → Tells before Neither after }
    ensures sent { (before after : ServerState) (id : ClientParts) (count : ℕ) (s : Status) → SendsTold before id count s after → Tells before Neither after }
    ensures next_told { (before after : ServerState) (id : ClientParts) (lent : LentTold) (s : Status) (lent' : LentTold) → NextTold before id lent s lent' after → Tells before Neither after }
    ensures finish_request { (before after : ServerState) (id : ClientParts) (user_data : Option ℕ) (result : Result Bool Status) → EndsRequest before id user_data result after → Tells before Neither after }
    ensures finish_bind { (before after : ServerState) (id : ClientParts) (user_data : ℕ) (result : Result Bool Status) → EndsBind before id user_data result after → Tells before Neither after }
    ensures finish_action { (before after : ServerState) (id : ClientParts) (action : FlatAction) (result : Result Bool Status) → EndsAsAction before id action result after → Tells before Neither after }
    ensures send_event { (before after : ServerState) (passed : Passed) (s : Status) → SendsEvent before passed s after → Tells before Neither after }
    ensures cleanup { (before after : ServerState) (s : Status) → CleansUp before s after → Tells before Neither after }
    ensures beside { (before after : ServerState) → after.told ≡ before.told → Tells before Neither after }
{}

/// Of a client whose messages are not told each call does what it would do if there were no telling.
///
/// Such is a client that was inserted while none was to be told. Of it `next_action` does what `NextAction` says, and `sent` what `Sent`
/// does, nothing before; `to_send` changes nothing, and `next_told` answers `InvalidId` and changes nothing. What arrives and what was
/// sent changes nothing else of its ledger than its queues (`received`, `left`).
pub fn without_telling_each_call_is_as_it_was()
    ensures insert_client { (before after : ServerState) (user_data : ℕ) (client : FlatClientId) → before.tells ≡ false → after ≡ inserted before after.core (Ok client) user_data → is_told (ledger_of (client_of client) after.seats.ledgers) ≡ false }
    ensures next_action { (before after : ServerState) (id : ClientParts) (arguments : List FlatArgument) (bytes : List ℕ) (s : Status) (lent : Lent) (came_out : List ℤ) → is_told (ledger_of id before.seats.ledgers) ≡ false
        → ReadsTold before id arguments bytes s lent came_out after → NextAction before id arguments bytes s lent came_out after }
    ensures to_send { (before after : ServerState) (id : ClientParts) (bytes : List ℕ) (descriptors : List ℤ) (copied : Copied) → is_told (ledger_of id before.seats.ledgers) ≡ false
        → CopiesTold before id bytes descriptors copied after → (copied ≡ to_send before id bytes descriptors) × (after ≡ before) }
    ensures sent { (before after : ServerState) (id : ClientParts) (count : ℕ) (s : Status) → is_told (ledger_of id before.seats.ledgers) ≡ false
        → SendsTold before id count s after → Sent before id count s after }
    ensures next_told { (before after : ServerState) (id : ClientParts) (lent : LentTold) (s : Status) (lent' : LentTold) → is_told (ledger_of id before.seats.ledgers) ≡ false
        → NextTold before id lent s lent' after → TellsNothing status.InvalidId before lent s lent' after }
    ensures received { (l : Ledger) (bytes : List ℕ) (descriptors : List ℤ) → is_told (Some l) ≡ false → with_heard bytes descriptors l ≡ l }
    ensures left { (l : Ledger) (count : ℕ) (m : MailboxState) → is_told (Some l) ≡ false → ledger_after count m l ≡ record l { sending = queue_after count m l.sending } }
{}

/// What is heard of a client whose messages are told is told once, in its order; and so is what is said to it, as far as it is seen in
/// its mailbox.
///
/// A run is what the calls of the session come to for the client, from its insertion on, whatever tables they go by: what `received` took,
/// what was put into its mailbox, what `sent` took off, and the messages that `next_told` found. As long as the client is followed, the
/// pieces of its messages that were found, and then what is untold, are all bytes and descriptors that arrived (`heard`). As long as the
/// server is, they are all that was sent, and then of what waits in the mailbox as much as was seen there (`said`): what is written waits
/// in the core first, and is not seen before it is in the mailbox. Each message that was found is handed out once, in the order in which
/// they were found, but for one that is kept for want of room (`handed_out`).
///
/// No byte of the client is told that the session had not read when what is told caught up with it (`read`). Once `next_told` found that
/// nothing is left, of a side that is followed all has had its turn: of the client all but what the session had not read, and of the
/// server all that waits in the mailbox. None of it waits for the other side (`all`).
///
/// The clauses from `insert_client` on say what the calls come to, in the words of their own clauses; `caught_up` is for what
/// `next_action` and `to_send` begin with. Of other calls a run has what they put into the mailbox.
pub fn what_is_heard_and_said_is_told_once()
    ensures heard { (run : List Deed) (after : Watched) → Leads Client new_watched run after → after.telling.follower.client.is_followed ≡ true
        → joined (all_told Client run) (untold after.telling.follower.client) ≡ all_heard run }
    ensures said { (run : List Deed) (after : Watched) → Leads Client new_watched run after → after.telling.follower.server.is_followed ≡ true
        → joined (all_told Server run) (untold after.telling.follower.server) ≡ joined (all_sent run) (said_part after.waiting after.telling) }
    ensures handed_out { (run : List Deed) (after : Watched) → Leads Client new_watched run after → all_handed run ++ kept_in after.telling ≡ all_found run }
    ensures read { (run : List Deed) (after : Watched) → Leads Client new_watched run after → length (all_told Client run).bytes ≤ all_read run }
    ensures all { (run : List Deed) (unread : ℕ) (table : List InterfaceRow) (before after : Watched) → Leads Client new_watched run before
        → Leads Client before (CaughtUp unread (Ok tt) ∷ FoundNone table ∷ []) after → NothingWaits Client unread after }
    ensures insert_client { (before after : ServerState) (user_data groups : ℕ) (hidden : List FlatGlobalId) (client : FlatClientId) → before.tells ≡ true
        → InsertsClient before.core user_data groups hidden (Ok client) after.core → after ≡ inserted before after.core (Ok client) user_data
        → Watches (client_of client) after new_watched }
    ensures received { (before after : ServerState) (id : ClientParts) (bytes : List ℕ) (descriptors : List ℤ) (w : Watched) → Watches id before w
        → Received before id bytes descriptors status.Ok after → ComesTo id w (Heard bytes descriptors) after }
    ensures caught_up { (before after : ServerState) (id : ClientParts) (result : Result (Unit {0}) OutOfMemory) (w : Watched) → Watches id before w
        → CatchesUpWith before id result after → ComesTo id w (CaughtUp (unread_by before id) result) after }
    ensures sent { (before after : ServerState) (id : ClientParts) (count : ℕ) (w : Watched) → Watches id before w
        → SendsTold before id count status.Ok after
        → (n : ℕ) × (n ≡ min count (length w.waiting.bytes)) × ComesTo id w (SentOff (unread_by before id) n (front n w.waiting)) after }
    ensures next_told { (before after : ServerState) (id : ClientParts) (lent : LentTold) (s : Status) (lent' : LentTold) (w : Watched) → Watches id before w
        → NextTold before id lent s lent' after
        → (run : List Deed) × AreTold before.core.server.offer.table (unread_by before id) lent s lent' run × ComesToAll id w run after }
{}

/// Of a client's session whose messages are not told each call does what it would do if there were no telling.
///
/// Such is a new session. Of it `next_event` does what `HandsNext` says, `received` what `Receives` does, and `sent` what `sent` does,
/// nothing before. But the session is new no more once `received` answered `Ok`, or `sent` did while the session had not failed. `to_send`
/// changes nothing, and `next_told` answers `InvalidId` and changes nothing.
pub fn without_telling_a_client_is_as_it_was()
    ensures new { (rows : Rows) (s : HostedClient) → IsNewClient rows s → s.telling ≡ None }
    ensures received { (before after : HostedClient) (bytes : List ℕ) (descriptors : List ℤ) (s : Status) → before.telling ≡ None
        → of_client.ReceivesTold before bytes descriptors s after → (mid : HostedClient) × Receives before bytes descriptors s mid × (after ≡ record mid { is_new = of_client.new_after s before.is_new }) }
    ensures next_event { (before after : HostedClient) (lent lent' : LentForEvent) (s : Status) (came_out : List ℤ) → before.telling ≡ None
        → of_client.ReadsTold before lent s came_out after lent' → HandsNext before lent s came_out after lent' }
    ensures to_send { (before after : HostedClient) (bytes : List ℕ) (descriptors : List ℤ) (copied : Copied) → before.telling ≡ None
        → of_client.CopiesTold before bytes descriptors copied after → (copied ≡ copied_from (client_to_send before) before.departures bytes descriptors) × (after ≡ before) }
    ensures sent { (before after : HostedClient) (count : ℕ) (s : Status) → before.telling ≡ None
        → of_client.SendsTold before count s after → (s ≡ status.Ok) × (after ≡ record (sent before count) { is_new = if has_failed before then before.is_new else false }) }
    ensures next_told { (before after : HostedClient) (lent : LentTold) (s : Status) (lent' : LentTold) → before.telling ≡ None
        → of_client.NextTold before lent s lent' after → of_client.TellsNothing status.InvalidId before lent s lent' after }
{}

/// What a client's session hears is told once, in its order, if its messages are told; and so is what it says, as far as it is seen in
/// its mailbox.
///
/// As `what_is_heard_and_said_is_told_once` has it of a server's client: a run is what the calls of the session come to, from the one on
/// that sets it. It begins with what waits in the mailbox then, of which nothing was seen. What is heard is the server's, and what is said
/// is the client's. The session has not failed: one that has gives up what it did not send (`next_dropped`).
pub fn what_a_client_hears_and_says_is_told_once()
    ensures heard { (run : List Deed) (after : Watched) → Leads Server new_watched run after → after.telling.follower.server.is_followed ≡ true
        → joined (all_told Server run) (untold after.telling.follower.server) ≡ all_heard run }
    ensures said { (run : List Deed) (after : Watched) → Leads Server new_watched run after → after.telling.follower.client.is_followed ≡ true
        → joined (all_told Client run) (untold after.telling.follower.client) ≡ joined (all_sent run) (said_part after.waiting after.telling) }
    ensures handed_out { (run : List Deed) (after : Watched) → Leads Server new_watched run after → all_handed run ++ kept_in after.telling ≡ all_found run }
    ensures read { (run : List Deed) (after : Watched) → Leads Server new_watched run after → length (all_told Server run).bytes ≤ all_read run }
    ensures all { (run : List Deed) (unread : ℕ) (table : List InterfaceRow) (before after : Watched) → Leads Server new_watched run before
        → Leads Server before (CaughtUp unread (Ok tt) ∷ FoundNone table ∷ []) after → NothingWaits Server unread after }
    ensures tell_messages { (before after : HostedClient) → before.telling ≡ None → of_client.SetsTelling true before status.Ok after
        → of_client.ComesTo new_watched (Wrote (waiting_in after.core.session.link.transport after.departures)) after }
    ensures received { (before after : HostedClient) (bytes : List ℕ) (descriptors : List ℤ) (w : Watched) → of_client.Watches before w
        → of_client.ReceivesTold before bytes descriptors status.Ok after → of_client.ComesTo w (Heard bytes descriptors) after }
    ensures caught_up { (before after : HostedClient) (result : Result (Unit {0}) OutOfMemory) (w : Watched) → of_client.Watches before w
        → of_client.CatchesUpWith before result after → of_client.ComesTo w (CaughtUp (of_client.unread_by before) result) after }
    ensures sent { (before after : HostedClient) (count : ℕ) (w : Watched) → of_client.Watches before w → has_failed before ≡ false
        → of_client.SendsTold before count status.Ok after
        → (n : ℕ) × (n ≡ min count (length w.waiting.bytes)) × of_client.ComesTo w (SentOff (of_client.unread_by before) n (front n w.waiting)) after }
    ensures next_told { (before after : HostedClient) (lent : LentTold) (s : Status) (lent' : LentTold) (w : Watched) → of_client.Watches before w
        → of_client.NextTold before lent s lent' after
        → (run : List Deed) × AreTold before.core.session.table (of_client.unread_by before) lent s lent' run × of_client.ComesToAll w run after }
{}
