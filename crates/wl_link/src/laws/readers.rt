//! What follows from the definition of a reader alone. Each function does nothing; its contract states a law.
//!
//! A *reader* is how a session reads: it takes messages off a link, and decides what each one does. Its *core* is all that
//! it holds beside the link. A *verdict* is what it decides for a message, for malformed bytes, or for the end of what
//! is open: the new core, the messages that are *put* (written, one after another, up to the first that fails), and the
//! events that are handed out. A *reading* is a list of receives and of verdicts that were carried out. A *finish* ends
//! what is open. A reader *serves* bytes and tokens: it handles them as if they had all come at once.

ghost use Rattle.std.specs.Prelude.{◌≡◌, ◌≢◌, ◌<◌, ◌∷◌, ℕ, Bool, false, IsTrue, List, Result, Err};
ghost use Rattle.wl_wire.specs.declared.error.IoFault.{IoFault};
ghost use Rattle.wl_wire.specs.declared.error.IoFault.TheVariants as fault;
ghost use Rattle.wl_link.specs.Exchange.{AlwaysAnswers, Queue, Sending, nothing, IsFunction, IsReceiveFunction};
ghost use Rattle.wl_link.specs.Total.{EndsMalformed, AlwaysGoesOn, SomethingIsServed};
ghost use Rattle.wl_link.specs.NothingLost.{LosesNothing};
ghost use Rattle.wl_link.specs.Link.{LinkState};
ghost use Rattle.wl_link.specs.Puts.{PutsOut, Said, messages_of};
ghost use Rattle.wl_link.specs.Outcome.{SamePut, SameReading};
ghost use Rattle.wl_link.specs.Reader.{AllFed, Ends, Given, Gives, ReaderState, Reader, Reads, Turn, received_in, queued_in, sends_in};
ghost use Rattle.wl_link.specs.Respect.{Respects, RespectsCores, RespectsReading};
ghost use Rattle.wl_link.specs.Script.{Script};
ghost use Rattle.wl_link.specs.Served.{GoesOnAs, Served, ServedFrom, AsTold, state_as};
ghost use Rattle.wl_link.specs.Stretch.{Act, EndsByPipe, IsStretchServed, IsStretch, IsStretchWithin, arrivals_of, arrived, ended, given_in, left_over, sending_side};
ghost use Rattle.wl_link.specs.Sides.{spelled_all};

use crate::transport::Transport;

/// No message that is put is lost. The bytes and tokens that waited before, followed by those of the messages that were
/// put, are the ones that the sends took, followed by those that wait after. Tokens that a send dropped count as taken.
///
/// This holds of messages that are put (`puts`), of a reading, and of a finish.
pub fn nothing_that_is_put_is_lost<T: Transport, Core, Event, Finish>()
    ensures puts { (before after : LinkState T) (messages put : List Said) (es : List Sending) (answer : _) →
        PutsOut T.sends before messages es put answer after → LosesNothing es before.outgoing (spelled_all (messages_of put)) after.outgoing }
    ensures reading { (reader : Reader Core Event Finish) (left : ℕ) (before after : ReaderState T Core) (turns : List Turn)
        (out : Gives Event) → Reads T.sends reader T.receives left before turns out after →
        LosesNothing (sends_in turns) before.link.outgoing (spelled_all (messages_of (queued_in out.gave))) after.link.outgoing }
    ensures finish { (reader : Reader Core Event Finish) (before after : ReaderState T Core) (u : Finish) (es : List Sending)
        (gave : List (Given Event)) (refused : Bool) → Ends T.sends reader before u es gave refused after →
        LosesNothing es before.link.outgoing (spelled_all (messages_of (queued_in gave))) after.link.outgoing }
{}

/// Putting messages has one outcome, if the sends of the transport are deterministic and memory does not run out.
pub fn putting_has_one_outcome<T: Transport>()
    ensures { IsFunction T.sends → (messages : List Said) (before x y : LinkState T) (es fs : List Sending)
        (put others : List Said) (a b : _) → a ≢ Err fault.OutOfMemory → b ≢ Err fault.OutOfMemory →
        PutsOut T.sends before messages es put a x → PutsOut T.sends before messages fs others b y →
        SamePut put others a b x y }
{}

/// A reading has one outcome, if the transport is deterministic and memory does not run out.
pub fn a_reading_has_one_outcome<T: Transport, Core, Event, Finish>()
    ensures { IsFunction T.sends → IsReceiveFunction T.receives → (reader : Reader Core Event Finish) (left : ℕ)
        (before x y : ReaderState T Core) (turns others : List Turn) (a b : Gives Event) → a.refused ≡ false → b.refused ≡ false →
        Reads T.sends reader T.receives left before turns a x → Reads T.sends reader T.receives left before others b y →
        SameReading a b x y }
{}

/// A relation that each verdict of a reader keeps is kept by each of its readings and finishes, even if memory runs out.
/// It may be a relation of the cores before and after and of what was given between them, or of the cores alone.
///
/// A clause cannot speak of every relation. So these clauses are about relations that are given as functions to `Bool`. The
/// lemmas in `proofs/Readings/RespectLaws`, which the proofs of the crates above cite, are about every relation.
pub fn readings_respect_what_verdicts_do<T: Transport, Core, Event, Finish>()
    ensures reading { (reader : Reader Core Event Finish) (holds : Core → List (Given Event) → Core → Bool) →
        RespectsReading reader (λ c gave d. IsTrue (holds c gave d)) →
        (left : ℕ) (before after : ReaderState T Core) (turns : List Turn) (out : Gives Event) →
        Reads T.sends reader T.receives left before turns out after → IsTrue (holds before.core out.gave after.core) }
    ensures finish { (reader : Reader Core Event Finish) (holds : Core → List (Given Event) → Core → Bool) →
        Respects reader (λ c gave d. IsTrue (holds c gave d)) →
        (before after : ReaderState T Core) (u : Finish) (es : List Sending) (gave : List (Given Event)) (refused : Bool) →
        Ends T.sends reader before u es gave refused after → IsTrue (holds before.core gave after.core) }
    ensures cores { (reader : Reader Core Event Finish) (holds : Core → Core → Bool) →
        RespectsCores reader (λ c d. IsTrue (holds c d)) → Respects reader (λ c gave d. IsTrue (holds c d)) }
{}

/// It does not matter to a reader how bytes and tokens are cut into receives.
///
/// If the reader serves the whole stream, it first gives what the reading or the accepted finish gave. Then it gives what
/// the reader as it is after that gives if it serves the rest of the stream. Each receive of the reading must have brought
/// a byte or have returned `WouldBlock`, and memory must not have run out.
///
/// The sends may go to any deterministic transport (`reading`, `finish`), or their answers may be given as a list (`told`,
/// `told_finish`).
pub fn cutting_does_not_matter_to_a_reader<T: Transport, S: Transport, Core, Event, Finish>()
    ensures reading { IsFunction S.sends → (reader : Reader Core Event Finish) →
        ((core : Core) → reader.faulted core fault.WouldBlock ≡ core) →
        (left : ℕ) (before after : ReaderState T Core) (turns : List Turn) (out : Gives Event) →
        Reads T.sends reader T.receives left before turns out after → AllFed turns → out.refused ≡ false →
        (finishes : List Finish) →
        GoesOnAs S.sends reader before (received_in turns) (sends_in turns) finishes out.gave after finishes }
    ensures told { (reader : Reader Core Event Finish) → ((core : Core) → reader.faulted core fault.WouldBlock ≡ core) →
        (left : ℕ) (before after : ReaderState T Core) (turns : List Turn) (out : Gives Event) →
        Reads T.sends reader T.receives left before turns out after → AllFed turns → out.refused ≡ false →
        (finishes : List Finish) →
        GoesOnAs AsTold reader before (received_in turns) (sends_in turns) finishes out.gave after finishes }
    ensures finish { IsFunction S.sends → (reader : Reader Core Event Finish) (before after : ReaderState T Core) (u : Finish)
        (es : List Sending) (gave : List (Given Event)) → reader.reads_on before.core ≡ false →
        Ends T.sends reader before u es gave false after → (finishes : List Finish) →
        GoesOnAs S.sends reader before nothing es (u ∷ finishes) gave after finishes }
    ensures told_finish { (reader : Reader Core Event Finish) (before after : ReaderState T Core) (u : Finish)
        (es : List Sending) (gave : List (Given Event)) → reader.reads_on before.core ≡ false →
        Ends T.sends reader before u es gave false after → (finishes : List Finish) →
        GoesOnAs AsTold reader before nothing es (u ∷ finishes) gave after finishes }
{}

/// Serving has one outcome, if the sends are deterministic, or their answers are given as a list.
pub fn what_is_served_has_one_outcome<S: Transport, Core, Event, Finish>()
    ensures transport { IsFunction S.sends → (reader : Reader Core Event Finish) (before x y : ReaderState S Core)
        (finishes : List Finish) (g h : List (Given Event)) → ServedFrom S.sends reader before finishes g x →
        ServedFrom S.sends reader before finishes h y → (g ≡ h) × (x ≡ y) }
    ensures told { (reader : Reader Core Event Finish) (before x y : ReaderState (List (Result ℕ IoFault)) Core)
        (finishes : List Finish) (g h : List (Given Event)) → ServedFrom AsTold reader before finishes g x →
        ServedFrom AsTold reader before finishes h y → (g ≡ h) × (x ≡ y) }
{}

/// A reader can always serve what waits, if each of its verdicts can be carried out and malformed bytes end it
/// (`transport`, `told`).
///
/// Each verdict can be carried out if the transport answers each send and the outgoing buffer has a capacity above 0
/// (`answering`). If the answers to sends are given as a list, there is a list that suffices (`answered`).
pub fn something_is_always_served<S: Transport, Core, Event, Finish>()
    ensures transport { (reader : Reader Core Event Finish) → AlwaysGoesOn S.sends reader → (before : ReaderState S Core)
        (finishes : List Finish) → SomethingIsServed S.sends reader before finishes }
    ensures told { (reader : Reader Core Event Finish) → AlwaysGoesOn AsTold reader → (before : ReaderState (List (Result ℕ IoFault)) Core)
        (finishes : List Finish) → SomethingIsServed AsTold reader before finishes }
    ensures answering { AlwaysAnswers S.sends → (reader : Reader Core Event Finish) → EndsMalformed reader → (before : ReaderState S Core)
        (finishes : List Finish) → 0 < before.link.outgoing_capacity → SomethingIsServed S.sends reader before finishes }
    ensures answered { (reader : Reader Core Event Finish) → EndsMalformed reader → (before : ReaderState S Core) (more : Queue)
        (finishes : List Finish) → 0 < before.link.outgoing_capacity → (answers : List (Result ℕ IoFault)) × (gave : List (Given Event))
        × (after : _) × Served AsTold reader before more answers finishes gave after }
{}

/// It does not matter to a stretch how bytes and tokens are cut. A *stretch* is a list of arrivals, readings and finishes
/// over the transport by script, `Memory`.
///
/// A stretch gives the same as the reader gives if it serves all that arrived, with the same finishes (`served`). So two
/// stretches with the same arrivals, joined, and the same finishes give the same and lead to the same (`same`). Each
/// arrival must bring a byte or be `WouldBlock`, memory must not run out, and no receive may find the buffer full.
///
/// No receive finds the buffer full if each message is no longer than the incoming buffer may become, and its tokens come
/// no later than its last byte (`within`).
pub fn cutting_does_not_matter_to_a_stretch<Core, Event, Finish>()
    ensures served { (reader : Reader Core Event Finish) → EndsByPipe reader → (before after : ReaderState Script Core)
        (acts : List (Act Event Finish)) → IsStretch reader before acts after → IsStretchServed reader before acts after }
    ensures within { (reader : Reader Core Event Finish) (before after : ReaderState Script Core) (acts : List (Act Event Finish)) →
        IsStretchWithin reader before acts after → IsStretch reader before acts after }
    ensures same { (reader : Reader Core Event Finish) → EndsByPipe reader → (before after other : ReaderState Script Core)
        (acts others : List (Act Event Finish)) → IsStretch reader before acts after → IsStretch reader before others other →
        arrived acts ≡ arrived others → ended acts ≡ ended others →
        (given_in acts ≡ given_in others)
        × (state_as after (left_over (arrivals_of after)) (sending_side after.link.transport)
        ≡ state_as other (left_over (arrivals_of other)) (sending_side other.link.transport)) }
{}
