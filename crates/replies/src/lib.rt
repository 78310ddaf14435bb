// RULES, Replies: the table of the numbers that refuse a call, by their meaning. The conditions stand in the specs of the crates that
// give them.
#![tactic(auto)]

ghost use Rattle.std.specs.Prelude.{◌≡◌};
ghost use Rattle.replies.specs.Numbers.{number_of};

// The number of a call that is done.
pub const DONE: u8 = 0;

// Why a call is refused. The numbers are those of the listing and of the rules.
#[derive(Clone, Copy, PartialEq, Eq, Debug)]
pub enum Refusal {
    ValueOutOfRange = 1,
    AreaNotGood = 2,
    PrefixNotGood = 3,
    AreaInUse = 4,
    PrefixOverlaps = 5,
    NoIndexFree = 6,
    NoSuchLink = 7,
    PacketTooLong = 9,
    AddressNotAllowed = 10,
    AreaMissing = 11,
    NeighbourUnknown = 12,
    NoRoom = 13,
    RecordBroken = 14,
    FixedLink = 15,
    OutOfTurn = 16,
    PacketShort = 20,
    VersionNot6 = 21,
    LengthFieldWrong = 22,
    RunTooShort = 23,
    QueueFull = 24,
    QueuesEmpty = 25,
    TooManyPrefixes = 29,
    KindRetired = 30,
    QueueNotGood = 37,
}

impl Refusal {
    pub fn number(self) -> u8
        ensures { result ≡ number_of self }
    {
        self as u8
    }
}
