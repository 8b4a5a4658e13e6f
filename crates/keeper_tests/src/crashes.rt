//! Every crash of a run of twenty appends, and of one append in more ways.

ghost use Rattle.std.specs.Prelude.{◌≡◌, ◌+◌, ◌≤◌, false, length};

use crate::disk::{disk, fetches, keep, made, opened};
use disk_keeper::MemDisk;
use ofx_ports::Keeper;
use std::alloc::Global;
use std::process::Abort;

/// The appends of a run.
const APPENDS: usize = 20;

/// The crashes that are tried at each moment.
const CHOICES: u64 = 6;

/// The lengths of the records: around a sector, and around what a gate and a length leave of one.
const LENGTHS: [usize; 10] = [0, 1, 7, 502, 503, 504, 511, 512, 513, 1100];

/// The record of this number, from 0.
fn record(rt: &impl Abort, alloc: Global, number: usize) -> Vec<u8> {
    let size = LENGTHS[number % LENGTHS.len()];
    vec![in alloc; (number % 3) as u8; size].expect(rt, "room")
}

/// What a crash at this moment has left opens with the acknowledged records in order, and at most the next one.
fn judge(rt: &impl Abort, alloc: Global, run: &MemDisk, moment: u64, choice: u64, acknowledged: u64)
    requires { moment ≤ length run.now.changes }
{
    let image = run.crash_image(moment, choice).expect(rt, "room");
    let mut keeper = opened(rt, disk(rt, alloc, &image));
    let count = keeper.len();
    assert!(rt; count == acknowledged || (count > 0 && count - 1 == acknowledged));
    let mut into = Vec::new(alloc);
    for number in 0..count {
        let bytes = record(rt, alloc, number as usize);
        fetches(rt, &mut keeper, number + 1, &mut into, Ok(&bytes));
    }
    keep(rt, &mut keeper, b"more");
}

#[test]
fn a_crash_leaves_what_was_acknowledged(rt: HostRuntime) {
    let alloc = rt.alloc();
    let mut keeper = made(&rt, alloc, &[], &[]);
    let first = keeper.disk().changes();
    let mut ends = Vec::new(alloc);
    for number in 0..APPENDS {
        keep(&rt, &mut keeper, &record(&rt, alloc, number));
        ends.push(keeper.disk().changes()).expect(&rt, "room");
    }
    let run = keeper.disk();
    let last = run.changes();
    let mut acknowledged = 0;
    for moment in first..last {
        if ends.get(acknowledged as usize) == Some(&moment) {
            acknowledged += 1;
        }
        for choice in 0..CHOICES {
            let seed = moment.wrapping_mul(CHOICES).wrapping_add(choice);
            judge(&rt, alloc, run, moment, seed, acknowledged);
        }
    }
    judge(&rt, alloc, run, last, 0, APPENDS as u64);
}

/// How many records are found in what a crash at this moment left. There is one where the gate after the mark is open.
fn found(rt: &impl Abort, alloc: Global, run: &MemDisk, moment: u64, choice: u64) -> u64
    requires { moment ≤ length run.now.changes }
{
    let image = run.crash_image(moment, choice).expect(rt, "room");
    let count = opened(rt, disk(rt, alloc, &image)).len();
    assert!(rt; count == u64::from(image.get(8) == Some(&1)));
    count
}

#[test]
fn a_stop_in_the_body_leaves_no_record_and_one_in_the_gate_at_most_it(rt: HostRuntime) {
    let alloc = rt.alloc();
    let mut keeper = made(&rt, alloc, &[], &[]);
    let first = keeper.disk().changes();
    keep(&rt, &mut keeper, b"\xaa");
    let run = keeper.disk();
    let last = run.changes();
    // The length, the record, the next gate and a sync; then the gate and a sync.
    assert!(rt; last > first && last - first == 6);
    let mut stood = 0u64;
    for choice in 0..125 {
        for moment in first..last - 1 {
            assert!(rt; found(&rt, alloc, run, moment, choice) == 0);
        }
        stood = stood.saturating_add(found(&rt, alloc, run, last - 1, choice));
    }
    assert!(rt; 0 < stood && stood < 125);
}
