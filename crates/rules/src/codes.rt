// The codes of "Numbers given back", by name: why a command, a file or a call is refused. A call that may refuse gives `Ok` or one of
// these; where a record of the C interface holds a code, `number` is it, and 0 stands for `Ok`.
ghost use Rattle.std.specs.Prelude.{◌≡◌};
ghost use Rattle.rules.specs.Codes.{code_number};

#[derive(Clone, Copy, PartialEq, Eq)]
pub enum Code {
    Malformed,
    NoSuchAccount,
    NoSuchContract,
    PhaseForbids,
    LotsOutOfRange,
    DayWithoutLimit,
    PriceNotAllowed,
    AboveHolding,
    TooLittleMoney,
    NumbersUsedUp,
    NotFilledAtOnce,
    NoRoomForTrades,
    QueueFull,
    NoSuchOrder,
    AnothersOrder,
    AmountOutOfRange,
    PhaseChangeNotListed,
    ContractNotClosed,
    SettlementsUsedUp,
    FileBroken,
    StateNotWellFormed,
    BundleTooLarge,
    NoMarketMaker,
    BuyNotBelowSell,
    ClientsDoNotFit,
    OrderUnposted,
    ClientClosesTooMuch,
    StateNotWritable,
    AreaTooShort,
    TotalsDiffer,
}

impl Code {
    // The paper's number.
    pub fn number(self) -> u32
        ensures { result ≡ code_number self }
    {
        match self {
            Code::Malformed => 1,
            Code::NoSuchAccount => 2,
            Code::NoSuchContract => 3,
            Code::PhaseForbids => 4,
            Code::LotsOutOfRange => 5,
            Code::DayWithoutLimit => 6,
            Code::PriceNotAllowed => 7,
            Code::AboveHolding => 8,
            Code::TooLittleMoney => 9,
            Code::NumbersUsedUp => 10,
            Code::NotFilledAtOnce => 11,
            Code::NoRoomForTrades => 12,
            Code::QueueFull => 13,
            Code::NoSuchOrder => 14,
            Code::AnothersOrder => 15,
            Code::AmountOutOfRange => 16,
            Code::PhaseChangeNotListed => 17,
            Code::ContractNotClosed => 18,
            Code::SettlementsUsedUp => 19,
            Code::FileBroken => 20,
            Code::StateNotWellFormed => 21,
            Code::BundleTooLarge => 22,
            Code::NoMarketMaker => 23,
            Code::BuyNotBelowSell => 24,
            Code::ClientsDoNotFit => 25,
            Code::OrderUnposted => 26,
            Code::ClientClosesTooMuch => 27,
            Code::StateNotWritable => 28,
            Code::AreaTooShort => 29,
            Code::TotalsDiffer => 30,
        }
    }
}
