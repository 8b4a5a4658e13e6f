//! Amounts, dates and numbers, computed by hand from the format.

use crate::same::same;
use ofx_types::{Cents, Day, Moment};
use ofx_values::{
    ValueFault, day_of, midnight, print_amount, print_moment, print_number, read_amount,
    read_moment, read_number,
};
use std::alloc::Global;
use std::process::Abort;

/// Dates and what they are printed as in GMT, or `none` where they spell no moment.
const DATES: &[(&str, &str)] = &[
    ("20240131", "20240131000000"),
    ("20240131070000", "20240131070000"),
    ("20240131070000.999[-5:EST]", "20240131120000"),
    ("20240131[5]", "20240130190000"),
    ("20240131[+5.5:X]", "20240130183000"),
    ("20240131070000[-12]", "20240131190000"),
    ("20240131070000[14.05]", "none"),
    ("20240131070000[5.03]", "none"),
    ("20240131070000[]", "none"),
    ("20240131070000[5:]", "20240131020000"),
    (
        "20240131070000[5:nnnnnnnnnnnnnnnnnnnnnnnnnnnnnnnn]",
        "20240131020000",
    ),
    (
        "20240131070000[5:nnnnnnnnnnnnnnnnnnnnnnnnnnnnnnnnn]",
        "none",
    ),
    ("20240131070000[5", "none"),
    ("202401310700", "none"),
    ("20230229", "none"),
    ("19000229", "none"),
    ("20240229", "20240229000000"),
    ("20241301", "none"),
    ("20240100", "none"),
    ("20240131240000", "none"),
    ("18991231", "none"),
    ("19000101", "19000101000000"),
    ("19000101[1]", "none"),
    ("99991231235959", "99991231235959"),
    ("99991231235959[-1]", "none"),
    ("100000101", "none"),
    (" 20240131 ", "20240131000000"),
    ("+20240131", "none"),
    ("20240131070000[005]", "none"),
];

/// Amounts and what they are printed as, or `none` where they spell no amount.
const AMOUNTS: &[(&str, &str)] = &[
    ("100.00", "100.00"),
    (" +1,5\t", "1.50"),
    ("-.07", "-0.07"),
    (".5", "0.50"),
    ("12.", "12.00"),
    ("007.5000", "7.50"),
    ("+.0", "0.00"),
    ("99999999999.99", "99999999999.99"),
    ("000000000000000099999999999.9900", "99999999999.99"),
    ("0000000000000000099999999999.9900", "none"),
    ("100000000000.00", "none"),
    ("1.005", "none"),
    ("1.2.3", "none"),
    ("1,000.00", "none"),
    ("1-", "none"),
    (".", "none"),
    ("", "none"),
];

fn reprinted_date(rt: &impl Abort, alloc: Global, text: &str) -> Vec<u8> {
    let mut out = Vec::new(alloc);
    match read_moment(text.as_bytes()) {
        Ok(moment) => print_moment(moment, &mut out).expect(rt, "room"),
        Err(_) => out.extend_from_slice(b"none").expect(rt, "room"),
    }
    out
}

fn reprinted_amount(rt: &impl Abort, alloc: Global, text: &str) -> Vec<u8> {
    let mut out = Vec::new(alloc);
    match read_amount(text.as_bytes()) {
        Ok(cents) => print_amount(cents, &mut out).expect(rt, "room"),
        Err(_) => out.extend_from_slice(b"none").expect(rt, "room"),
    }
    out
}

#[test]
fn dates_are_read(rt: HostRuntime) {
    for (text, want) in DATES {
        let got = reprinted_date(&rt, rt.alloc(), text);
        same(&rt, (*text, got.as_slice()), (*text, want.as_bytes()));
    }
}

#[test]
fn amounts_are_read(rt: HostRuntime) {
    for (text, want) in AMOUNTS {
        let got = reprinted_amount(&rt, rt.alloc(), text);
        same(&rt, (*text, got.as_slice()), (*text, want.as_bytes()));
    }
}

#[test]
fn values_are_the_seconds_and_cents_meant(rt: HostRuntime) {
    same(
        &rt,
        read_moment(b"20240131070000.000[-5:EST]"),
        Ok(Moment(1_706_702_400)),
    );
    same(&rt, read_moment(b"19000101"), Ok(Moment(-2_208_988_800)));
    same(&rt, read_moment(b"20240132"), Err(ValueFault::Date));
    same(&rt, read_amount(b"-1234.5"), Ok(Cents(-123_450)));
    same(&rt, read_amount(b"12a"), Err(ValueFault::Amount));
}

/// Bytes, the most digits, and the number that they spell.
const NUMBERS: &[(&[u8], usize, Option<u64>)] = &[
    (b" 7\r\n", 1, Some(7)),
    (b"0000000012", 10, Some(12)),
    (b"9999999999", 10, Some(9_999_999_999)),
    (b"00000000012", 10, None),
    (b"12", 1, None),
    (b"", 10, None),
    (b"1 2", 10, None),
    (b"+1", 10, None),
];

#[test]
fn numbers_are_digits_up_to_a_limit(rt: HostRuntime) {
    for (bytes, most, number) in NUMBERS.iter() {
        same(&rt, read_number(bytes, *most), *number);
    }
}

/// Each is printed after what is there, the widest ones too.
#[test]
fn numbers_and_amounts_are_printed(rt: HostRuntime) {
    let mut out = Vec::new(rt.alloc());
    print_number(0, &mut out).expect(&rt, "room");
    out.push(b' ').expect(&rt, "room");
    print_number(u64::MAX, &mut out).expect(&rt, "room");
    out.push(b' ').expect(&rt, "room");
    print_amount(Cents(i64::MIN), &mut out).expect(&rt, "room");
    out.push(b' ').expect(&rt, "room");
    print_amount(Cents(i64::MAX), &mut out).expect(&rt, "room");
    same(
        &rt,
        out.as_slice(),
        b"0 18446744073709551615 -92233720368547758.08 92233720368547758.07".as_slice(),
    );
}

#[test]
fn days_are_counted_downwards(rt: HostRuntime) {
    for (moment, day) in [(86_399, 0), (-1, -1), (-2_208_988_800, -25_567)] {
        same(&rt, day_of(Moment(moment)), Day(day));
    }
    same(&rt, midnight(Day(-1)), Moment(-86_400));
    same(&rt, midnight(Day(2_932_896)), Moment(253_402_214_400));
}

#[test]
fn faults_say_which_value_has_no_form(rt: HostRuntime) {
    let amount = ValueFault::Amount
        .to_string(rt.alloc())
        .expect(&rt, "a text");
    same(&rt, amount.as_str(), "not an amount");
    let date = ValueFault::Date.to_string(rt.alloc()).expect(&rt, "a text");
    same(&rt, date.as_str(), "not a date");
}
