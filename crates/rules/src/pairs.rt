ghost use Rattle.std.specs.Prelude.{◌≡◌, ◌≤◌, [], ◌∷◌, length};
ghost use Rattle.rules.specs.Lists.{list_of, pair_at, pairs};

use crate::limits::MOST_PAIRS;
use numbers::Version;

/// An object and a version of it, as a message carries them, with any numbers.
#[derive(Clone, Copy, Debug, PartialEq, Eq)]
pub struct Pair {
    /// The number of the object: 0 to 15 where it is in range.
    pub object: u8,
    /// The version.
    pub version: Version,
}

/// A list of 0 to 8 pairs: the first `count` items.
///
/// A count above 8 is out of range: a message with such a list is refused with 33. Read as a list,
/// it has all 8 items.
// No heap on a mast, and a count above 8 has to be told from one of 8: so an array and its count.
#[derive(Clone, Copy, Debug, PartialEq, Eq)]
pub struct Pairs {
    /// How many pairs the list has: 0 to 8 where it is in range.
    pub count: u8,
    /// The pairs; those from `count` on are not part of the list.
    pub items: [Pair; MOST_PAIRS],
}

impl Pair {
    /// What stands in the items that are not part of a list.
    pub const NONE: Pair = Pair {
        object: 0,
        version: Version::NONE,
    };
}

impl Pairs {
    /// A list of no pairs.
    pub fn empty() -> Pairs
        ensures { result ≡ pairs [] }
    {
        Pairs {
            count: 0,
            items: [Pair::NONE; MOST_PAIRS],
        }
    }

    /// A list of one pair.
    pub fn one(pair: Pair) -> Pairs
        ensures { result ≡ pairs (pair ∷ []) }
    {
        let mut items = [Pair::NONE; MOST_PAIRS];
        items[0] = pair;
        Pairs { count: 1, items }
    }

    /// The pairs of the list: 8 at most, whatever the count says.
    pub fn as_slice(&self) -> &[Pair]
        ensures is { result.now ≡ list_of self.now }
        ensures short { length result.now ≤ 8 }
    {
        if (self.count as usize) < MOST_PAIRS {
            &self.items[0..self.count as usize]
        } else {
            &self.items
        }
    }

    /// How many pairs the list has: 8 at most, whatever the count says.
    pub fn len(self) -> u8
        ensures { result ≡ length (list_of self) }
    {
        self.as_slice().len() as u8
    }

    /// The pair at a place, which counts from 0. None behind the last pair.
    pub fn get(self, place: u8) -> Option<Pair>
        ensures { result ≡ pair_at place self }
    {
        self.as_slice().get(place as usize).copied()
    }
}
