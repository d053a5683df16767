// The place of a number, which every crate above uses. The definitions and laws that the crates share stand in specs/ and proofs/.
#![tactic(auto)]

ghost use Rattle.std.specs.Prelude.{◌≡◌, ◌-◌, ◌≤◌};

// Contracts and accounts are numbered from 1, their places from 0.
pub fn place_of(number: u32) -> usize
    requires { 1 ≤ number }
    ensures { result ≡ number - 1 }
{
    number as usize - 1
}

// The same, as an order and a trade hold it.
pub fn place_word(number: u32) -> u32
    requires { 1 ≤ number }
    ensures { result ≡ number - 1 }
{
    number - 1
}
