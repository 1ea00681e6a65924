//! What follows from the definition of a run of calls alone. Each function does nothing; its contract states a law.
//!
//! A *run* is a list of *steps*: calls, each with its reply.

ghost use Rattle.std.specs.Prelude.{◌≡◌, ◌++◌, Bool, IsTrue, List, length};
ghost use Rattle.wl_link.specs.Runs.{AllSame, RunEntry, HasOneOutcome, Leads, entries};

/// Two runs, one after the other, are one run (`joined`). If each step has one outcome, each run in which memory does not
/// run out has one (`outcome`).
///
/// A clause cannot speak of every relation. So these clauses are about relations that are given as functions to `Bool`. The
/// lemmas in `proofs/OverRuns/RunLaws`, which the proofs of the crates above cite, are about every relation.
pub fn runs_do_what_their_steps_do<State, Step, Reply>()
    ensures joined { (makes : State → Step → Reply → Bool → State → Bool) (start mid after : State)
        (run others : List (RunEntry Step Reply)) →
        Leads (λ s call answer refused t. IsTrue (makes s call answer refused t)) start run mid →
        Leads (λ s call answer refused t. IsTrue (makes s call answer refused t)) mid others after →
        Leads (λ s call answer refused t. IsTrue (makes s call answer refused t)) start (run ++ others) after }
    ensures outcome { (makes : State → Step → Reply → Bool → State → Bool) (same : Reply → Reply → Bool) →
        HasOneOutcome (λ s call answer refused t. IsTrue (makes s call answer refused t)) (λ p q. IsTrue (same p q)) →
        (start x y : State) (steps : List Step) (replies others : List Reply) →
        length replies ≡ length steps → length others ≡ length steps →
        Leads (λ s call answer refused t. IsTrue (makes s call answer refused t)) start (entries steps replies) x →
        Leads (λ s call answer refused t. IsTrue (makes s call answer refused t)) start (entries steps others) y →
        AllSame (λ p q. IsTrue (same p q)) replies others × (x ≡ y) }
{}
