// A state and the areas lent with it, for functions that only read them.
ghost use Rattle.rules.specs.Memory.{WellFormedState};

use rules::State;

// All four are lent, and they are well formed together: so what takes a `Market` asks for nothing more.
// What writes takes the state and the areas one by one, so that its signature shows which area it may write: decision 56.
#[derive(Clone, Copy)]
pub struct Market<'a> {
    pub state: &'a State,
    pub buys: &'a [u32],
    pub sells: &'a [u32],
    pub trades: &'a [u32],

    pub ghost formed: { WellFormedState state.now buys.now sells.now trades.now },
}
