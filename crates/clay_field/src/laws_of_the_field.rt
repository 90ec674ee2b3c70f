//! What holds of sums, products and powers in the field. The functions do nothing: their contracts
//! are the laws.

ghost use Rattle.std.specs.Prelude.{◌≡◌, ◌≢◌, ℕ, ◌^◌, ◌<◌, ◌⊎◌, bit_xor};
ghost use Rattle.clay_field.specs.Coupling.{gamma, determinant, gamma_inverse, determinant_inverse};
ghost use Rattle.clay_field.specs.Field.{product, power_of, inverse_of, quotient};

/// The sum is that of a commutative group in which each element is its own negative.
pub fn sum_laws()
    ensures byte { (a b : ℕ) → a < 2 ^ 8 → b < 2 ^ 8 → bit_xor a b < 2 ^ 8 }
    ensures commutes { (a b : ℕ) → bit_xor a b ≡ bit_xor b a }
    ensures associates { (a b c : ℕ) → bit_xor (bit_xor a b) c ≡ bit_xor a (bit_xor b c) }
    ensures zero { (a : ℕ) → bit_xor a 0 ≡ a }
    ensures negative { (a : ℕ) → bit_xor a a ≡ 0 }
{}

/// The product is that of a field.
pub fn product_laws()
    ensures byte { (a b : ℕ) → product a b < 2 ^ 8 }
    ensures commutes { (a b : ℕ) → product a b ≡ product b a }
    ensures associates { (a b c : ℕ) → product (product a b) c ≡ product a (product b c) }
    ensures distributes { (a b c : ℕ) →
        product a (bit_xor b c) ≡ bit_xor (product a b) (product a c) }
    ensures one { (a : ℕ) → a < 2 ^ 8 → product a 1 ≡ a }
    ensures inverse { (a : ℕ) → a < 2 ^ 8 → a ≢ 0 → product a (inverse_of a) ≡ 1 }
    ensures only_inverse { (a b : ℕ) → a < 2 ^ 8 → b < 2 ^ 8 → product a b ≡ 1 → b ≡ inverse_of a }
{}

/// The powers of 2 are the nonzero bytes.
pub fn two_generates()
    ensures reached { (a : ℕ) → a < 2 ^ 8 → a ≢ 0 → (e : ℕ) × (e < 255) × (power_of 2 e ≡ a) }
    ensures order { power_of 2 255 ≡ 1 }
{}

/// The values with which the coupling reckons.
pub fn coupling_values()
    ensures twice_top_bit { product 2 0x80 ≡ 0x1D }
    ensures determinant { determinant ≡ bit_xor 1 (product gamma gamma) }
    ensures half { quotient 1 gamma ≡ gamma_inverse }
    ensures fifth { quotient 1 determinant ≡ determinant_inverse }
    ensures two_fifths { quotient 2 5 ≡ 0x53 }
    ensures three_fifths { quotient 3 5 ≡ 0xF4 }
    ensures four_fifths { quotient 4 5 ≡ 0xA6 }
    ensures six_fifths { quotient 6 5 ≡ 0xF5 }
    ensures eight_fifths { quotient 8 5 ≡ 0x51 }
{}
