ghost use Rattle.std.specs.Prelude.{◌≡◌, ℕ, ◌<◌, nat_lt, Ok};
ghost use Rattle.numbers.specs.Checked.{Checked};

use crate::out_of_range::OutOfRange;
use std::alloc::AllocError;
use std::marker::PhantomData;

/// What is numbered. Its numbers are those below the limit.
pub trait Kind {
    ghost LIMIT: { ℕ };

    /// The first number that is none of its own.
    const LIMIT: u8;
}

/// A number that was checked once: it is below the limit of its kind. Numbers of two kinds are of
/// two types, and are never mixed.
// Public to be named in promises: whoever makes a number or sets it owes the proof of its range.
#[derive_where(Debug, PartialEq, Eq, PartialOrd, Ord)]
pub struct Number<K: Kind> {
    /// The number, below the limit of its kind.
    pub number: u8,
    /// What is numbered: no value, it tells types apart.
    pub kind: PhantomData<K>,
    pub ghost inside: { number < K.LIMIT },
}

// By hand: a derive would ask that the kind, which is no value, can be copied.
impl<K: Kind> Clone for Number<K> {
    fn clone(&self) -> Result<Number<K>, AllocError>
        ensures { result ≡ Ok self.now }
    {
        Ok(*self)
    }
}

impl<K: Kind> Copy for Number<K> {}

/// Refused is any number at or above the limit of the kind.
impl<K: Kind> TryFrom<u8> for Number<K> {
    type Error = OutOfRange;

    ghost try_from_gives = { λ x r. Checked (λ n. n.number) (nat_lt x K.LIMIT) x r };

    fn try_from(number: u8) -> Result<Number<K>, OutOfRange> {
        if number < K::LIMIT {
            Ok(Number {
                number,
                kind: PhantomData,
            })
        } else {
            Err(OutOfRange)
        }
    }
}

impl<K: Kind> Number<K> {
    /// The number, below the limit of its kind.
    // Named as std's `NonZero::get` is; a `From` would be no plainer.
    pub fn get(self) -> u8
        ensures is { result ≡ self.number }
        ensures inside { result < K.LIMIT }
    {
        self.number
    }

    /// The number as a place of a table, below the limit of its kind.
    pub fn index(self) -> usize
        ensures is { result ≡ self.number }
        ensures inside { result < K.LIMIT }
    {
        usize::from(self.get())
    }
}
