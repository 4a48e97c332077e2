// Worked examples and laws of the standards as theorems: each function's contract is one, and none does anything.
// They say that the definitions that the ciphers are proved against are the standards' own. They stand in a crate of
// their own since they are slow to prove. Each answer lists what it unfolds: as one attribute here the list is as long, and
// does not close RFC 5297's.
#![tactic(auto)]

ghost use Rattle.known.specs.Examples.{Inverts, ZeroStays, TellsApart, At53};
ghost use Rattle.known.specs.Examples.{FipsC1, FirstSubkey, SecondSubkey, MacOfNone, MacOfForty, SivA1, S2vA2};

// FIPS 197, 4.4 and 5.1.1: what the S-box starts from really is the inverse, and 0 at 0.
pub fn inverse_inverts()
    ensures inverts { Inverts }
    ensures zero { ZeroStays }
{}

// FIPS 197, 5.1.1: no two bytes have one S-box value, and that of {53} is {ed}.
pub fn sbox_tells_apart()
    ensures apart { TellsApart }
    ensures value { At53 }
{}

pub fn fips197_c1()
    ensures { FipsC1 }
{}

pub fn rfc4493_subkeys()
    ensures first { FirstSubkey }
    ensures second { SecondSubkey }
{}

pub fn rfc4493_example1()
    ensures { MacOfNone }
{}

pub fn rfc4493_example3()
    ensures { MacOfForty }
{}

pub fn rfc5297_a1()
    ensures { SivA1 }
{}

// Of appendix A.2 the synthetic IV, which is of four components.
pub fn rfc5297_a2()
    ensures { S2vA2 }
{}
