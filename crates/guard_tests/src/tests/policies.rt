//! What a policy answers.

use crate::kit::{Allowed, policy_of};
use std::test::Fail;
use test_kit::log::holds;
use wl_guard::{Policy, PolicyError};

/// A rule that a policy is asked to take.
#[derive(Clone, Copy)]
enum Act {
    /// Allows the interface up to this version.
    Allow(&'static str, u32),
    /// Refuses this request of the interface.
    Refuse(&'static str, &'static str),
    /// Ignores this request of the interface.
    Ignore(&'static str, &'static str),
}

/// What a policy is asked, one after another, and what it answers.
static ROWS: [(&str, Act, Result<(), PolicyError>); 10] = [
    ("allow pair", Act::Allow("pair", 1), Ok(())),
    (
        "allow none",
        Act::Allow("none", 1),
        Err(PolicyError::UnknownInterface),
    ),
    (
        "allow wl_registry",
        Act::Allow("wl_registry", 1),
        Err(PolicyError::Fixed),
    ),
    (
        "allow quad, version 0",
        Act::Allow("quad", 0),
        Err(PolicyError::Version),
    ),
    (
        "allow quad, version 4",
        Act::Allow("quad", 4),
        Err(PolicyError::Version),
    ),
    (
        "refuse quad.none",
        Act::Refuse("quad", "none"),
        Err(PolicyError::UnknownRequest),
    ),
    (
        "ignore wl_display.sync",
        Act::Ignore("wl_display", "sync"),
        Err(PolicyError::Fixed),
    ),
    (
        "ignore quad.make",
        Act::Ignore("quad", "make"),
        Err(PolicyError::ChangesObjects),
    ),
    (
        "ignore quad.destroy",
        Act::Ignore("quad", "destroy"),
        Err(PolicyError::ChangesObjects),
    ),
    ("ignore pair.join", Act::Ignore("pair", "join"), Ok(())),
];

/// Asks for the rule.
fn perform(policy: &mut Policy, act: Act) -> Result<(), PolicyError> {
    match act {
        Act::Allow(interface, version) => policy.allow(interface, version),
        Act::Refuse(interface, request) => policy.refuse(interface, request),
        Act::Ignore(interface, request) => policy.ignore(interface, request),
    }
}

/// Fails if one of the rules is answered otherwise.
fn rows_hold(rt: &impl Eprint, policy: &mut Policy) -> Result<(), Fail> {
    for (name, act, answer) in &ROWS {
        holds(rt, name, perform(policy, *act) == *answer)?;
    }
    Ok(())
}

#[test]
fn rules_are_checked(rt: HostRuntime) -> Result<(), Fail> {
    let mut policy = policy_of(rt.alloc(), Allowed::Quad)?;
    let answer = rows_hold(&rt, &mut policy);
    drop(policy);
    answer
}
