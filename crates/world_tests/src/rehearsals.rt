//! A rehearsal. What comes of its seed was worked out by a program that shares nothing with this one; more seeds are in
//! `cases/rehearsals.txt`.

use bank_samples::keys::keys;
use ofx_types::Cents;
use ofx_world::{Summary, rehearse};
use std::test::Fail;

#[test]
fn a_seed_comes_to_what_it_should(rt: HostRuntime) -> Result<(), Fail> {
    let wanted = Summary {
        files: 18,
        events: 386,
        entries: 19,
        sum: Cents(400_000),
        lost: 1,
    };
    assert_eq!(rt; rehearse(rt.alloc(), keys()?, 7)?, wanted);
    Ok(())
}
