//! Enums of the protocol, and the numbers that stand for their values.

use super::texts;
use std::test::Fail;
use test_kit::log::tells;
use wl_wire::{WEnum, WEnumError, WaylandEnum};

/// An enum of two values.
#[derive(Clone, Copy, Debug, PartialEq, Eq)]
enum Mode {
    Off,
    On,
}

impl WaylandEnum for Mode {
    ghost use Rattle.std.specs.Prelude.{[], ◌∷◌};
    ghost use Rattle.wl_wire.specs.Enum.{value_in, value_in-turns_back};
    ghost use Rattle.wire_tests.specs.declared.tests.enums.Mode.TheVariants.{Off, On};

    const NAME: &'static str = "mode";

    ghost read = { value_in (λ mode. elim mode [ Off ↦ 0 | On ↦ 1 ]) (Off ∷ On ∷ []) };

    ghost number = { λ mode. elim mode [ Off ↦ 0 | On ↦ 1 ] };

    fn from_u32(value: u32) -> Option<Mode> {
        match value {
            0 => Some(Mode::Off),
            1 => Some(Mode::On),
            _ => None,
        }
    }

    fn to_u32(self) -> u32 {
        self as u32
    }

    ghost turns_back = { λ n fits. value_in-turns_back (λ mode. elim mode [ Off ↦ 0 | On ↦ 1 ]) (Off ∷ On ∷ []) n };
}

/// What is answered for the number 7.
fn seven_is_no_mode() -> WEnumError {
    WEnumError {
        name: Mode::NAME,
        value: 7,
    }
}

#[test]
fn unknown_numbers_are_kept(rt: HostRuntime) {
    let unknown: WEnum<Mode> = WEnum::from(7);
    let refused: Result<Mode, WEnumError> = unknown.into();
    assert_eq!(rt; (unknown, u32::from(unknown)), (WEnum::Unknown(7), 7));
    assert_eq!(rt; refused, Err(seven_is_no_mode()));
}

#[test]
fn unknown_numbers_are_told(rt: HostRuntime) -> Result<(), Fail> {
    tells(
        &rt,
        texts(rt.alloc(), &[seven_is_no_mode()]),
        "Unknown numeric value 7 for enum mode\n",
    )
}
