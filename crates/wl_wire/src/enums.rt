//! The enums of the protocol, whose values stand for numbers.

ghost use Rattle.std.specs.Prelude.{◌≡◌, ◌<◌, ◌^◌, ℕ, Option, IfOk, IfErr, IfSome};
ghost use Rattle.wl_wire.specs.Enum.{number_of, read_as};
ghost use Rattle.wl_wire.specs.declared.enums.WEnum.TheVariants.{Value, Unknown};

use thiserror::Error;

/// An enum of the protocol.
///
/// Each number stands for one value at most. A value that was made of a number turns back into that number.
pub trait WaylandEnum: Sized {
    /// The enum's name in the protocol.
    const NAME: &'static str;

    ghost read: { ℕ → Option Self };

    ghost number: { Self → ℕ };

    /// The value that the number stands for; `None` if it stands for none.
    fn from_u32(value: u32) -> Option<Self>
        ensures { result ≡ read value };

    /// The number that stands for the value.
    fn to_u32(self) -> u32
        ensures { result ≡ number self };

    ghost turns_back: { (n : ℕ) → n < 2 ^ 32 → IfSome (read n) (λ value. number value ≡ n) };
}

/// A value of an enum, or a number that stands for none of its values.
#[derive(Clone, Copy, Debug, PartialEq, Eq)]
pub enum WEnum<T> {
    /// The value that the number stands for.
    Value(T),
    /// The number, which stands for no value of the enum.
    Unknown(u32),
}

/// The error of [`WEnum::into_result`]: the number stands for no value of the enum.
#[derive(Clone, Copy, Debug, PartialEq, Eq, Error)]
#[error("Unknown numeric value {value} for enum {name}")]
pub struct WEnumError {
    /// The name of the enum in the protocol.
    pub name: &'static str,
    /// The number.
    pub value: u32,
}

impl<T: WaylandEnum> WEnum<T> {
    /// The value. The error names the enum and the number, if the number stands for no value.
    pub fn into_result(self) -> Result<T, WEnumError>
        ensures value { IfOk result (λ value. self ≡ Value value) }
        ensures unknown { IfErr result (λ e. self ≡ Unknown e.value) }
    {
        match self {
            WEnum::Value(value) => Ok(value),
            WEnum::Unknown(value) => Err(WEnumError {
                name: T::NAME,
                value,
            }),
        }
    }
}

/// The value that the number stands for, or the number as `Unknown`.
impl<T: WaylandEnum> From<u32> for WEnum<T> {
    ghost from_gives = { λ n e. (e ≡ read_as T.read n) × (number_of T.number e ≡ n) };

    fn from(value: u32) -> Self {
        match T::from_u32(value) {
            Some(known) => WEnum::Value(known),
            None => WEnum::Unknown(value),
        }
    }
}

/// The number again: that of the value, or the unknown one.
impl<T: WaylandEnum> From<WEnum<T>> for u32 {
    ghost from_gives = { λ e n. n ≡ number_of T.number e };

    fn from(value: WEnum<T>) -> u32 {
        match value {
            WEnum::Value(known) => known.to_u32(),
            WEnum::Unknown(number) => number,
        }
    }
}

/// The same as `into_result`.
impl<T: WaylandEnum> From<WEnum<T>> for Result<T, WEnumError> {
    ghost from_gives = { λ e r. IfOk r (λ value. e ≡ Value value) × IfErr r (λ error. e ≡ Unknown error.value) };

    fn from(value: WEnum<T>) -> Self {
        value.into_result()
    }
}
