//! Arithmetic in the field of 256 elements, whose bytes are polynomials modulo `x^8 + x^4 + x^3 + x^2 + 1` (0x11D).
//! The sum of two bytes is `^`.
#![tactic(auto)]

ghost use Rattle.std.specs.Prelude.{◌≡◌, ◌≢◌, EachIndex, slice_index, length, bit_xor};
ghost use Rattle.clay_field.specs.Field.{product, power_of, inverse_of};

mod laws_of_the_field;

pub use laws_of_the_field::{coupling_values, product_laws, sum_laws, two_generates};

/// At each nonzero byte, the byte whose product with it is 1.
const INVERSES: [u8; 256] = [
    0, 1, 142, 244, 71, 167, 122, 186, 173, 157, 221, 152, 61, 170, 93, 150, 216, 114, 192, 88,
    224, 62, 76, 102, 144, 222, 85, 128, 160, 131, 75, 42, 108, 237, 57, 81, 96, 86, 44, 138, 112,
    208, 31, 74, 38, 139, 51, 110, 72, 137, 111, 46, 164, 195, 64, 94, 80, 34, 207, 169, 171, 12,
    21, 225, 54, 95, 248, 213, 146, 78, 166, 4, 48, 136, 43, 30, 22, 103, 69, 147, 56, 35, 104,
    140, 129, 26, 37, 97, 19, 193, 203, 99, 151, 14, 55, 65, 36, 87, 202, 91, 185, 196, 23, 77, 82,
    141, 239, 179, 32, 236, 47, 50, 40, 209, 17, 217, 233, 251, 218, 121, 219, 119, 6, 187, 132,
    205, 254, 252, 27, 84, 161, 29, 124, 204, 228, 176, 73, 49, 39, 45, 83, 105, 2, 245, 24, 223,
    68, 79, 155, 188, 15, 92, 11, 220, 189, 148, 172, 9, 199, 162, 28, 130, 159, 198, 52, 194, 70,
    5, 206, 59, 13, 60, 156, 8, 190, 183, 135, 229, 238, 107, 235, 242, 191, 175, 197, 100, 7, 123,
    149, 154, 174, 182, 18, 89, 165, 53, 101, 184, 163, 158, 210, 247, 98, 90, 133, 125, 168, 58,
    41, 113, 200, 246, 249, 67, 215, 214, 16, 115, 118, 120, 153, 10, 25, 145, 20, 63, 230, 240,
    134, 177, 226, 241, 250, 116, 243, 180, 109, 33, 178, 106, 227, 231, 181, 234, 3, 143, 211,
    201, 66, 212, 232, 117, 127, 255, 126, 253,
];

// Twice a byte.
fn double(a: u8) -> u8
    ensures { result ≡ product a 2 }
{
    if a < 0x80 {
        a << 1
    } else {
        ((a & 0x7F) << 1) ^ 0x1D
    }
}

/// The product of two bytes.
pub fn mul(a: u8, b: u8) -> u8
    ensures { result ≡ product a b }
{
    let mut sum = 0;
    let mut copy = a;
    for i in 0..8u32 {
        if (b >> i) & 1 == 1 {
            sum ^= copy;
        }
        copy = double(copy);
    }
    sum
}

/// The product of `e` copies of a byte, which is 1 for no copy, at 0 too.
pub fn power(a: u8, e: u32) -> u8
    ensures { result ≡ power_of a e }
{
    let mut done = 1;
    let mut square = a;
    let mut left = e;
    while left > 0 {
        if left % 2 == 1 {
            done = mul(done, square);
        }
        square = mul(square, square);
        left /= 2;
    }
    done
}

/// The byte whose product with `a` is 1.
pub fn inv(a: u8) -> u8
    requires { a ≢ 0 }
    ensures inverse { product a result ≡ 1 }
    ensures value { result ≡ inverse_of a }
{
    INVERSES[a as usize]
}

/// Adds `c` times each byte of `src` to the byte of `dst` at the same place.
pub fn add_scaled(dst: &mut [u8], c: u8, src: &[u8])
    requires { length dst.old ≡ length src.now }
    ensures { EachIndex dst.new (λ k.
        slice_index dst.new k ≡ bit_xor (slice_index dst.old k) (product c (slice_index src.now k))) }
{
    for (i, d) in dst.iter_mut().enumerate() {
        *d ^= mul(c, src[i]);
    }
}
