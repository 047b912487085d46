// How a state lies in a work slot with its number. Nothing else looks into a slot.
ghost use Rattle.std.specs.Prelude.{◌≡◌, ◌<◌, ◌^◌};
ghost use Rattle.parts.specs.Fields.{state_of};
ghost use Rattle.scheduler.specs.Slots.{slot_of, state_in, Reads};

use parts::State;

// Where the values and the number stand in a slot; the operations done stand from bit 0 on.
const VALUES: u32 = 40;

const NUMBER: u32 = 50;

// The bits below the number, which say the state, and the mark of a slot in use.
const KEY: u64 = (1 << NUMBER) - 1;

const IN_USE: u64 = 1 << 56;

// The part of a slot that says which state it holds.
#[derive(Clone, Copy)]
pub(crate) struct Key {
    pub bits: u64,
    ghost small: { bits < 2 ^ 44 },
}

impl Key {
    // The key of a state, of which the values are those of four controls at most.
    pub(crate) fn of(s: State) -> Key
        requires { s.values < 16 }
        ensures { state_in result.bits ≡ state_of s }
    {
        Key {
            bits: u64::from(s.done) | u64::from(s.values) << VALUES,
        }
    }

    // The slot of the state with its number.
    pub(crate) fn slot(self, number: u32) -> u64
        requires { number < 64 }
        ensures { result ≡ slot_of (state_in self.bits) number }
    {
        self.bits | u64::from(number) << NUMBER | IN_USE
    }

    // The number that a slot in use holds with the state, if it is this state's.
    pub(crate) fn number_in(self, slot: u64) -> Option<u32>
        ensures { Reads slot (state_in self.bits) result }
    {
        if slot & KEY != self.bits {
            return None;
        }
        // Six bits, so that `as u32` loses nothing.
        Some((slot >> NUMBER & 63) as u32)
    }
}
