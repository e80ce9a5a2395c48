ghost use Rattle.std.specs.Prelude.{◌≡◌};
ghost use Rattle.rules.specs.Renewals.{asks_object, asks_volume, parts_of};

/// The parts of a renewal: what an output server wants renewed.
#[derive(Clone, Copy, Debug, PartialEq, Eq)]
pub enum Parts {
    /// A copy of one object.
    Object,
    /// A lease on the volume.
    Volume,
    /// A copy of one object, and a lease on the volume.
    Both,
}

impl Parts {
    /// The parts that are wanted. Where neither is, it is the volume: a renewal has a part at
    /// least.
    // The two flags are answers to two questions, and turn no function into another one.
    pub fn of(object: bool, volume: bool) -> Parts
        ensures { result ≡ parts_of object volume }
    {
        match (object, volume) {
            (true, true) => Parts::Both,
            (true, false) => Parts::Object,
            (false, _) => Parts::Volume,
        }
    }

    /// Whether the object is one of them.
    pub fn has_object(self) -> bool
        ensures { result ≡ asks_object self }
    {
        match self {
            Parts::Object | Parts::Both => true,
            Parts::Volume => false,
        }
    }

    /// Whether the volume is one of them.
    pub fn has_volume(self) -> bool
        ensures { result ≡ asks_volume self }
    {
        match self {
            Parts::Volume | Parts::Both => true,
            Parts::Object => false,
        }
    }
}
