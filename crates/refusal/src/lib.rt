#![tactic(auto)]
// Why a call refuses, and the paper's number for it. Every refusal of the planner, the check and the dispatcher is one of these.
ghost use Rattle.std.specs.Prelude.{◌≡◌};
ghost use Rattle.refusal.specs.Refusal.{number_of};

// In the order of their numbers, from 1 to 30.
#[derive(Clone, Copy, PartialEq, Eq)]
pub enum Refusal {
    EndsEarly = 1,
    TaskCount = 2,
    TaskRule = 3,
    PairCount = 4,
    PairRule = 5,
    BytesBehind = 6,
    LongCycle = 7,
    ManyJobs = 8,
    NoPlausibleLength = 9,
    NoPlan = 10,
    ShortBuffer = 11,
    NotATable = 12,
    WrongSizes = 13,
    NotAPlan = 14,
    NoSuchRow = 15,
    NoSuchTask = 16,
    SilentSection = 17,
    TooManyTasks = 18,
    TooManyPairs = 19,
    SilentTicksDiffer = 20,
    WrongSpan = 21,
    NoFrameFits = 22,
    AllowanceUsed = 23,
    NoSuchCut = 24,
    TasksFull = 25,
    WrongDraft = 26,
    OutsideWindow = 27,
    RowOrOrder = 28,
    NoSuchRegister = 29,
    NoSuchPair = 30,
}

impl Refusal {
    // The paper's number.
    pub fn number(self) -> u8
        ensures { result ≡ number_of self }
    {
        self as u8
    }
}
