//! What holds of checksums. The functions do nothing: their contracts are the laws.
ghost use Rattle.std.specs.Prelude.{◌≡◌, ◌≢◌, ℕ, ◌+◌, ◌*◌, ◌^◌, ◌<◌, ◌≤◌, List, length, get_or, bit_xor};
ghost use Rattle.crc64.specs.Remainder.{remainder, polynomial, checksum_of};
ghost use Rattle.crc64.specs.Division.{IsRemainder};

/// The steps of the division lead to the remainder of the polynomial division.
pub fn remainders_are_left()
    ensures division { (n dividend : ℕ) → IsRemainder n dividend (remainder n dividend) }
    ensures degree { (n dividend : ℕ) → dividend < 2 ^ (64 + n) → remainder n dividend < 2 ^ 64 }
{}

/// The checksum of bytes has 64 bits.
pub fn checksums_fit()
    ensures { (bytes : List ℕ) → ((i : ℕ) → get_or bytes i 0 < 2 ^ 8)
        → checksum_of bytes < 2 ^ 64 }
{}

/// Messages of one length that differ in a burst, which is some of at most 64 bits in a row, have different checksums.
pub fn bursts_are_found()
    ensures { (message other : List ℕ) (start burst : ℕ) → length message ≡ length other
        → start ≤ 8 * length other → 0 < burst → burst < 2 ^ 64
        → polynomial message ≡ bit_xor (polynomial other) (burst * 2 ^ start)
        → checksum_of message ≢ checksum_of other }
{}
