//! The sums of a layer, and the values that have them.
use crate::expect_bytes;
use clay_grid::Geometry;
use clay_scalar::{Solver, syndromes};

// Four values of two bytes, two of one byte, and three that lie far apart.
#[test]
fn values_have_the_sums(rt: HostRuntime) {
    let (mut four, mut two, mut three) = ([0; 8], [0xFF; 2], [0xFF; 3]);
    let sums = [0x01, 0x80, 0x02, 0x00, 0x03, 0x00, 0x04, 0x1D];
    let solver = Solver::new(rt.alloc(), &[0, 1, 2, 3]);
    solver.expect(&rt, "four").solve(2, &sums, &mut four);
    let values = [0x02, 0x0B, 0x79, 0x8B, 0xF5, 0x8B, 0x8F, 0x8B];
    expect_bytes(&rt, &four, &values);
    let solver = Solver::new(rt.alloc(), &[4, 5]);
    solver.expect(&rt, "two").solve(1, &[0x53, 0xA6], &mut two);
    expect_bytes(&rt, &two, &[0xA4, 0xF7]);
    let solver = Solver::new(rt.alloc(), &[17, 23, 250]);
    let sums = [0x11, 0x22, 0x44];
    solver.expect(&rt, "three").solve(1, &sums, &mut three);
    expect_bytes(&rt, &three, &[0xD9, 0x7F, 0xB7]);
}

#[test]
fn erased_nodes_are_left_out(rt: HostRuntime) {
    let g = Geometry::new(3, 2, 2).expect(&rt, "a code");
    let values = [
        0x01, 0x80, 0xFF, 0x10, 0x53, 0xA6, 0x07, 0x1D, 0xE0, 0x02, 0x99, 0x55,
    ];
    let erased = [false, true, false, false, true, false];
    let mut sums = [0xFF; 4];
    syndromes(g, &values, &erased, 2, &mut sums);
    expect_bytes(&rt, &sums, &[0xCC, 0x6E, 0x68, 0x6A]);
}
