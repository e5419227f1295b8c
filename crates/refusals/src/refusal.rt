// Why a call is refused, by name, and the numbers that go over the C interface and the wire.
ghost use Rattle.std.specs.Prelude.{◌≡◌};
ghost use Rattle.refusals.specs.Answers.{number_of, number_in};

// Why a call is refused.
#[derive(Clone, Copy, Debug, PartialEq, Eq, Hash)]
pub enum Refusal {
    // prefix or payload length wrong
    BadLength = 1,
    // payload is not the strict CBOR
    BadCbor = 2,
    // payload is not a map, a needed key is missing, or a known key has a wrong type or range
    BadMessage = 3,
    // endpoint, feature or command is not served
    NotServed = 4,
    // time out of order or past the end
    BadTime = 5,
    // join: id outside 1 to 255, or rank outside 1 to 3
    BadZone = 6,
    // join of a joined id; link already as told; clearing an override that is not set
    Already = 7,
    // join with eight zones joined
    Full = 8,
    // zone not joined
    NotJoined = 9,
    // command from a zone whose link is down
    LinkDown = 10,
    // limits, setpoints or current limits not accepted, or a named direction not supported
    NotSupported = 11,
    // SetLimit or SetCurrentLimits while an override is set
    Overridden = 12,
    // a Set command with a negative value or naming nothing, or a phase from the phase count up
    BadValue = 13,
    // a consumption limit below the minimum, 0 aside
    BelowMinimum = 14,
    // nothing else is refused, and the complete output is longer than the lent buffer
    NoSpace = 15,
    // bad settings, or conformance inputs out of range
    BadSettings = 16,
    // attribute list not strictly ascending
    NotAscending = 17,
    // override reason and direction do not go together
    BadOverride = 18,
}

impl Refusal {
    // Document 01's number.
    pub fn number(self) -> u64
        ensures { result ≡ number_of self }
    {
        self as u64
    }
}

impl From<Refusal> for u64 {
    ghost from_gives = { λ refusal n. n ≡ number_of refusal };

    fn from(refusal: Refusal) -> u64 {
        refusal.number()
    }
}

// The number of a call's answer: 0 where it is accepted.
pub fn number_in(answer: Result<(), Refusal>) -> u64
    ensures { result ≡ number_in answer }
{
    match answer {
        Ok(()) => 0,
        Err(refusal) => refusal.number(),
    }
}
