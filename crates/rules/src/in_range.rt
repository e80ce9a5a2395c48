ghost use Rattle.std.specs.Prelude.{◌≡◌, ℕ, ◌≤◌, Bool, true, Ok};
ghost use Rattle.std.proofs.Common.{rules};
ghost use Rattle.rules.specs.Lists.{list_of};
ghost use Rattle.rules.specs.Ranges.{pair_fits, pairs_fit, list_fits, renewal_fits, copy_fits, lease_fits, renewed_fits, TestsRange};
ghost use Rattle.rules.specs.Widest.{pair_widens, list_widens, renewal_widens, renewed_widens};

use crate::limits::MOST_PAIRS;
use crate::pairs::{Pair, Pairs};
use crate::renewal::{Renewal, Renewed};
use numbers::{Kind, LeaseLength, Moment, ObjectCount, ObjectIndex, ObjectNumber, Version};
use quorum::Refusal;
use std::alloc::AllocError;
use std::marker::PhantomData;

/// What a message carries whose numbers have ranges. Those of objects depend on how many a field
/// has.
pub trait Ranged: Copy {
    /// Whether its numbers are in range, in a field of so many objects.
    ghost fits: { ℕ → Self → Bool };

    /// Whether its numbers are in range, in a field of so many objects.
    fn fits(&self, objects: ObjectCount) -> bool
        ensures { result ≡ fits objects.number self.now };

    /// What is in range in some field is in range in one of 16 objects.
    ghost widens: { (k : ℕ) (x : Self) → k ≤ 16 → fits k x ≡ true → fits 16 x ≡ true };
}

/// A value whose numbers were tested once, and are in the widest ranges that a field has.
#[derive(Debug, PartialEq, Eq)]
pub struct InRange<T: Ranged> {
    /// The value as a message carries it.
    pub value: T,
    pub ghost inside: { T.fits 16 value ≡ true },
}

// By hand: no derive copies a range that was tested.
impl<T: Ranged> Clone for InRange<T> {
    fn clone(&self) -> Result<InRange<T>, AllocError>
        ensures { result ≡ Ok self.now }
    {
        Ok(*self)
    }
}

impl<T: Ranged> Copy for InRange<T> {}

impl<T: Ranged> InRange<T> {
    /// Tests the numbers of a value that belongs to no field: objects are held to 16. Refuses 33
    /// where one is out of range.
    pub fn alone(value: T) -> Result<InRange<T>, Refusal>
        ensures { TestsRange (λ r. r.value) (T.fits 16 value) value result }
    {
        let objects = ObjectCount::try_from(ObjectIndex::LIMIT).map_err(|_| Refusal::OutOfRange)?;
        InRange::new(value, objects)
    }

    /// Tests the numbers of a value, as those of a field of so many objects. Refuses 33 where one
    /// is out of range.
    pub fn new(value: T, objects: ObjectCount) -> Result<InRange<T>, Refusal>
        ensures { TestsRange (λ r. r.value) (T.fits objects.number value) value result }
    {
        if value.fits(objects) {
            Ok(InRange { value })
        } else {
            Err(Refusal::OutOfRange)
        }
    }
}

impl Ranged for Pair {
    ghost fits = { pair_fits };

    fn fits(&self, objects: ObjectCount) -> bool {
        self.object < objects.get() && self.version.is_version()
    }

    ghost widens = { λ k p few h. pair_widens k few p h };
}

impl Ranged for Pairs {
    ghost fits = { list_fits };

    fn fits(&self, objects: ObjectCount) -> bool {
        self.count as usize <= MOST_PAIRS && self.pairs_fit(objects)
    }

    ghost widens = { λ k l few h. list_widens k few l h };
}

impl Pairs {
    fn pairs_fit(&self, objects: ObjectCount) -> bool
        ensures { result ≡ pairs_fit objects.number (list_of self.now) }
    {
        self.as_slice().iter().all(|pair| pair.fits(objects))
    }
}

impl Ranged for Renewal {
    ghost fits = { renewal_fits };

    fn fits(&self, objects: ObjectCount) -> bool {
        self.object < objects.get() && self.stamp.is_shown()
    }

    ghost widens = { λ k r few h. renewal_widens k few r h };
}

impl Ranged for Renewed {
    ghost fits = { renewed_fits };

    fn fits(&self, objects: ObjectCount) -> bool {
        self.renewal.fits(objects)
            && self.epoch.is_epoch()
            && self.copy_fits()
            && self.lease_fits(objects)
    }

    ghost widens = { λ k y few h. renewed_widens k few y h };
}

impl Renewed {
    // Version and value of the object part; both are 0 where it was not asked for.
    fn copy_fits(&self) -> bool
        ensures { result ≡ copy_fits self.now }
    {
        if self.renewal.parts.has_object() {
            self.version.is_version()
        } else {
            self.version == Version::NONE && self.value == 0
        }
    }

    // Length and list of the volume part; both are empty where it was not asked for.
    fn lease_fits(&self, objects: ObjectCount) -> bool
        ensures { result ≡ lease_fits objects.number self.now }
    {
        if self.renewal.parts.has_volume() {
            self.length <= LeaseLength::LONGEST && self.list.fits(objects)
        } else {
            self.length == 0 && self.list.count == 0
        }
    }
}

// What was tested is handed out in the types of `numbers`, and not tested again.
impl InRange<Pair> {
    /// The number of the object.
    pub fn object(&self) -> ObjectNumber
        ensures { result.number ≡ self.now.value.object }
    {
        ObjectNumber {
            number: self.value.object,
            kind: PhantomData,
        }
    }
}

impl InRange<Renewal> {
    /// The number of the object.
    pub fn object(&self) -> ObjectNumber
        ensures { result.number ≡ self.now.value.object }
    {
        ObjectNumber {
            number: self.value.object,
            kind: PhantomData,
        }
    }
}

impl InRange<Renewed> {
    /// What was asked for.
    pub fn renewal(&self) -> InRange<Renewal>
        ensures { result.value ≡ self.now.value.renewal }
    {
        InRange {
            value: self.value.renewal,
        }
    }

    /// The number of the object.
    pub fn object(&self) -> ObjectNumber
        ensures { result.number ≡ self.now.value.renewal.object }
    {
        self.renewal().object()
    }

    /// How long the lease lasts: 0 where none is granted.
    pub fn length(&self) -> LeaseLength
        ensures { result.micros ≡ self.now.value.length }
    {
        LeaseLength {
            micros: self.value.length,
        }
    }

    /// When the output server asked, on its own clock.
    pub fn stamp(&self) -> Moment
        ensures { result.micros ≡ self.now.value.renewal.stamp.0 }
    {
        Moment {
            micros: self.value.renewal.stamp.0,
        }
    }
}
