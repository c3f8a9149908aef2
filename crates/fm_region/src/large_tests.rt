// A thousand constants with twenty thousand random pairs of them unequal, followed at five numbers. A benchmark too:
// `./bench regions` at the top.
use crate::graphs::{bank, follow, graph, read};
use crate::{Regions, Weak};
use fm_bank::Bank;
use fm_base::{Memory, SortId};
use fm_cong::Egraph;
use std::alloc::Global;
use std::process::Abort;
use std::test::Fail;

const CONSTANTS: usize = 1000;

fn next(seed: usize) -> usize {
    seed.wrapping_mul(6_364_136_223_846_793_005)
        .wrapping_add(1_442_695_040_888_963_407)
}

fn read_random(rt: &impl Abort, graph: &mut Egraph, bank: &mut Bank) -> Result<(), Memory> {
    let mut seed = 1;
    for n in 0..20 * CONSTANTS {
        seed = next(seed);
        let (a, b) = (n % CONSTANTS, seed / 65536 % CONSTANTS);
        let pair = (a.min(b), a.max(b));
        if pair.0 != pair.1 {
            read(rt, graph, bank, pair, false)?;
        }
    }
    Ok(())
}

fn follow_each(rt: &impl Abort, regions: &mut Regions, graph: &Egraph) -> Result<bool, Memory> {
    for k in [1000, 50, 30, 10, 1].iter() {
        follow(rt, regions, graph, *k)?;
    }
    Ok(regions.weak(999) == Weak::Test(0))
}

fn are_one(rt: &impl Abort, alloc: Global, graph: &Egraph) -> Result<bool, Memory> {
    let mut regions = Regions::new(alloc, SortId(0));
    follow_each(rt, &mut regions, graph)
}

#[test]
fn follows_a_thousand_classes(rt: HostRuntime) -> Result<(), Fail> {
    let alloc = rt.alloc();
    let mut bank = bank(&rt, alloc, CONSTANTS)?;
    let mut graph = graph(&rt, alloc, &bank)?;
    read_random(&rt, &mut graph, &mut bank)?;
    assert!(rt; are_one(&rt, alloc, &graph)?);
    Ok(())
}
