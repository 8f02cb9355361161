//! The used records in a room of fixed size that is copied with them: an `ArrayVec` cannot be copied, and what is gathered can.
ghost use Rattle.std.specs.Prelude.{◌≡◌, List, [], ◌∷◌, ◌++◌, ◌<◌, length};
ghost use Rattle.gather.specs.declared.Used.{Used as UsedRecord};
ghost use Rattle.gather.specs.Held.{held, items};

use crate::Used;

/// Used records, at most 255, in the order in which they were read: the first `count` of the room. `gather` leaves zeros behind them.
#[derive(Clone, Copy, Debug, PartialEq, Eq)]
pub struct UsedRecords {
    pub count: u8,
    pub room: [Used; 255],
}

impl UsedRecords {
    // No record yet.
    pub(crate) fn new() -> UsedRecords
        ensures { result ≡ held [] }
    {
        UsedRecords {
            count: 0,
            room: [Used::default(); 255],
        }
    }

    /// How many they are.
    pub fn len(&self) -> usize
        ensures { result ≡ length (items self.now) }
    {
        self.as_slice().len()
    }

    /// The used records themselves.
    pub fn as_slice(&self) -> &[Used]
        ensures { result.now ≡ items self.now }
    {
        &self.room[..usize::from(self.count)]
    }

    // One more, where there is room.
    pub(crate) fn push(&mut self, used: Used)
        requires { self.old.count < 255 }
        ensures { (us : List UsedRecord) → self.old ≡ held us → self.new ≡ held (us ++ used ∷ []) }
    {
        self.room[usize::from(self.count)] = used;
        self.count += 1;
    }
}
