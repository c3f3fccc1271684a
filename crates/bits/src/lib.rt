// What a bit counts for in a word. Status words, state words and queue reads are sums of such
// weights.
#![tactic(auto)]

ghost use Rattle.bits.specs.Bit.{Weighed};

// The weight of a bit that is on, and 0 for one that is off: by cases, as the definition has them,
// which is plainer than a product with the bit.
pub fn weigh(on: bool, weight: u16) -> u16
    ensures { Weighed on weight result }
{
    if on { weight } else { 0 }
}
