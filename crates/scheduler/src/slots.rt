// The work slots, with how many are in use: the look-up of a state, and states added one by one.
ghost use Rattle.std.specs.Prelude.{◌≡◌, ◌<◌, length, replicate, None};
ghost use Rattle.scheduler.specs.Slots.{state_in, InOrder, Finds, StoredAs};

use crate::key::Key;

// The slots in use are the first; no two hold the same state. The rule of fixed memory needs the count: the slots are lent.
#[derive(Drop)]
pub(crate) struct Slots<'a> {
    pub slots: &'a mut [u64],
    pub used: usize,
    ghost in_order: { InOrder slots.now used },
}

impl<'a> Slots<'a> {
    // Sets all slots to 0: none is in use.
    pub(crate) fn cleared(slots: &'a mut [u64]) -> Slots<'a>
        ensures { result.slots.now ≡ replicate (length slots.old) 0 }
    {
        slots.fill(0);
        Slots { slots, used: 0 }
    }

    // Looks a state up, the latest slot first: a state that is met again was mostly stored not long ago.
    pub(crate) fn find(&self, key: Key) -> Option<u32>
        ensures { Finds self.now.slots.now (state_in key.bits) result }
    {
        for slot in self.slots[..self.used].iter().rev() {
            if let Some(number) = key.number_in(*slot) {
                return Some(number);
            }
        }
        None
    }

    // Adds a state that is not held, with its number, which is the answer; nothing where all slots are in use.
    pub(crate) fn insert(&mut self, key: Key, number: u32) -> Option<u32>
        requires number_bound { number < 64 }
        requires finds { Finds self.old.slots.now (state_in key.bits) None }
        ensures { StoredAs self.old.slots.now self.new.slots.now self.old.used (state_in key.bits) number result }
    {
        if self.used == self.slots.len() {
            return None;
        }
        self.slots[self.used] = key.slot(number);
        self.used += 1;
        Some(number)
    }
}
