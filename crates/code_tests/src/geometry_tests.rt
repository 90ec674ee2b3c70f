//! The numbers of shapes, and shapes that are refused.
use crate::{expect_numbers, expect_same};
use clay_grid::{BadGeometry, Geometry};
use std::process::Abort;

/// k, m; q, nu, t, alpha, the subchunks of each helper in a repair
const SHAPES: [[u32; 7]; 7] = [
    [2, 2, 2, 0, 2, 4, 2],
    [3, 2, 2, 1, 3, 8, 4],
    [4, 2, 2, 0, 3, 8, 4],
    [4, 3, 3, 2, 3, 27, 9],
    [8, 4, 4, 0, 3, 64, 16],
    [10, 4, 4, 2, 4, 256, 64],
    [16, 4, 4, 0, 5, 1024, 256],
];

/// the pairs of `2 2`, as node and layer
const PAIRS: [[u32; 4]; 4] = [[0, 2, 1, 0], [0, 3, 1, 1], [2, 1, 3, 0], [2, 3, 3, 2]];

#[test]
fn numbers_of_shapes(rt: HostRuntime) {
    for [k, m, q, nu, t, alpha, helper] in SHAPES {
        let g = Geometry::new(k, m, 3).expect(&rt, "a code");
        expect_numbers(&rt, &[g.k(), g.m(), g.w(), g.q()], &[k, m, 3, q]);
        expect_numbers(
            &rt,
            &[g.nu(), g.t(), g.alpha(), g.n()],
            &[nu, t, alpha, k + m],
        );
        let layers = g.repair_layers(rt.alloc(), 0).expect(&rt, "layers");
        expect_same(&rt, layers.len(), helper as usize);
    }
}

fn expect_refusal(rt: &impl Abort, k: u32, m: u32, w: u32, why: Option<BadGeometry>) {
    expect_same(rt, Geometry::new(k, m, w).err(), why);
}

#[test]
fn refusals(rt: HostRuntime) {
    expect_refusal(&rt, 1, 1, 0, Some(BadGeometry::DataCount));
    expect_refusal(&rt, 2, 9, 0, Some(BadGeometry::ParityCount));
    expect_refusal(&rt, 20, 4, 0, Some(BadGeometry::Layers));
    expect_refusal(&rt, u32::MAX, 2, 1, Some(BadGeometry::Layers));
    expect_refusal(&rt, 16, 4, 65_537, Some(BadGeometry::Width));
    expect_refusal(&rt, 16, 4, 1025, Some(BadGeometry::ChunkSize));
    expect_refusal(&rt, 16, 4, 1024, None);
}

#[test]
fn partners(rt: HostRuntime) {
    let g = Geometry::new(2, 2, 1).expect(&rt, "a code");
    for [node, layer, other, other_layer] in PAIRS {
        let (x, y) = g.place(node);
        let partner = g.partner(x, y, layer);
        let (other_x, other_y) = g.place(other);
        expect_numbers(
            &rt,
            &[partner.x, partner.y, partner.z],
            &[other_x, other_y, other_layer],
        );
    }
}

#[test]
fn lengths_and_layers_of_a_small_grid(rt: HostRuntime) {
    let g = Geometry::new(2, 2, 1).expect(&rt, "a code");
    expect_numbers(&rt, &[g.chunk_len(), g.stripe_len()], &[4, 8]);
    let erased = [true, false, true, false];
    let by_score = g.layers_by_score(rt.alloc(), &erased).expect(&rt, "layers");
    expect_numbers(&rt, &by_score, &[3, 1, 2, 0]);
    let layers = g.repair_layers(rt.alloc(), 3).expect(&rt, "layers");
    expect_numbers(&rt, &layers, &[1, 3]);
}
