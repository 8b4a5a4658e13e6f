//! Trees: bodies that are written, their children by name, and the offsets of faults.

ghost use Rattle.ofx_tree.specs.Root.{AreRead};

use crate::same::same;
use ofx_tape::Tape;
use ofx_tree::{Cursor, Sheet, TreeFault};
use ofx_types::{Cents, Moment, Text};
use std::alloc::Global;
use std::process::Abort;

const BODY: &[u8; 153] = b"\
    <OFX>\r\n\
    <STATUS>\r\n\
    <CODE>2000\r\n\
    </STATUS>\r\n\
    <MEMO>rent &amp; tea\r\n\
    <TRNAMT>-12.05\r\n\
    <DTDUE>20240131120000\r\n\
    <INCLUDE>Y\r\n\
    <REFRESH>N\r\n\
    <TOKEN>1\r\n\
    <TOKEN>2\r\n\
    </OFX>\r\n";

/// Values of each kind, one of them with an entity in it, one that is no date, and one that occurs twice.
const VALUES: &[u8; 127] = b"\
    <OFX>\r\n\
    <TRNAMT>-12,5\r\n\
    <DTDUE>20240131070000[-5:a&lt;b]\r\n\
    <DTSTART>2024013\r\n\
    <TOKEN>0012\r\n\
    <DTEND>20240131\r\n\
    <DTEND>20240201\r\n\
    </OFX>";

/// An aggregate, whose second element has no value and isn't written.
fn write_status(rt: &impl Abort, sheet: &mut Sheet) {
    sheet.start(b"STATUS").expect(rt, "room");
    sheet.number(b"CODE", 2000).expect(rt, "room");
    sheet.element(b"SEVERITY", b"").expect(rt, "room");
    sheet.end(b"STATUS").expect(rt, "room");
}

#[test]
fn writes_lines(rt: HostRuntime) {
    let memo = Text::new(rt.alloc(), b" rent & tea ", 10).expect(&rt, "a text");
    let mut sheet = Sheet::new(rt.alloc());
    sheet.start(b"OFX").expect(&rt, "room");
    write_status(&rt, &mut sheet);
    let mut sheet = Sheet::from_vec(sheet.into_bytes());
    sheet.text(b"MEMO", &memo).expect(&rt, "room");
    sheet.amount(b"TRNAMT", Cents(-1205)).expect(&rt, "room");
    sheet
        .moment(b"DTDUE", Moment(1_706_702_400))
        .expect(&rt, "room");
    sheet.element(b"INCLUDE", b"Y").expect(&rt, "room");
    sheet.element(b"REFRESH", b"N").expect(&rt, "room");
    sheet.number(b"TOKEN", 1).expect(&rt, "room");
    sheet.number(b"TOKEN", 2).expect(&rt, "room");
    sheet.end(b"OFX").expect(&rt, "room");
    same(&rt, sheet.into_bytes().as_slice(), BODY.as_slice());
}

/// What is read of a body.
fn tape<'a>(rt: &impl Abort, alloc: Global, body: &'a [u8]) -> Tape<'a>
    ensures { AreRead result }
{
    Tape::read(alloc, body).expect(rt, "a tape")
}

#[test]
fn reads_children(rt: HostRuntime) {
    let tape = tape(&rt, rt.alloc(), BODY);
    let ofx = Cursor::root(&tape);
    same(&rt, ofx.name(), b"OFX".as_slice());
    let mut last = 0;
    for child in ofx.children() {
        last = child.offset();
    }
    same(&rt, last, 135);
    let status = ofx.one(b"STATUS").expect(&rt, "the status");
    let code = status.one(b"CODE").expect(&rt, "the code");
    assert!(rt; code.value_eq(b"2000"));
    assert!(rt; ofx.maybe(b"CODE").expect(&rt, "no code").is_none());
    same(&rt, status.one(b"MEMO").err(), Some(TreeFault::Missing(7)));
    same(
        &rt,
        ofx.maybe(b"TOKEN").err(),
        Some(TreeFault::Repeated(135)),
    );
}

#[test]
fn reads_texts_and_flags(rt: HostRuntime) {
    let tape = tape(&rt, rt.alloc(), BODY);
    let ofx = Cursor::root(&tape);
    let memo = ofx.text(rt.alloc(), b"MEMO", 10).expect(&rt, "the memo");
    same(&rt, memo.as_bytes(), b"rent & tea".as_slice());
    let long = ofx.text(rt.alloc(), b"MEMO", 9).err();
    same(&rt, long, Some(TreeFault::Value(40)));
    same(&rt, ofx.flag(b"INCLUDE"), Ok(true));
    same(&rt, ofx.flag(b"REFRESH"), Ok(false));
    same(&rt, ofx.flag(b"MEMO"), Err(TreeFault::Value(40)));
}

#[test]
fn reads_amounts_dates_and_numbers(rt: HostRuntime) {
    let tape = tape(&rt, rt.alloc(), VALUES);
    let ofx = Cursor::root(&tape);
    let noon = Moment(1_706_702_400);
    same(&rt, ofx.amount(b"TRNAMT"), Ok(Cents(-1250)));
    same(&rt, ofx.amount(b"DTDUE"), Err(TreeFault::Value(22)));
    same(&rt, ofx.moment(b"DTDUE"), Ok(noon));
    same(&rt, ofx.moment(b"DTEND"), Err(TreeFault::Repeated(104)));
    same(&rt, ofx.maybe_moment(b"DTDUE"), Ok(Some(noon)));
    same(&rt, ofx.maybe_moment(b"DTPOSTED"), Ok(None));
    let fault = TreeFault::Value(56);
    same(&rt, ofx.maybe_moment(b"DTSTART"), Err(fault));
    same(&rt, ofx.number(b"TOKEN", 4), Ok(12));
    same(&rt, ofx.number(b"TOKEN", 3), Err(TreeFault::Value(74)));
}

#[test]
fn finds_one_of_three(rt: HostRuntime) {
    let body = b"<OFX><INTRARS><MEMO>a</INTRARS><INTRACANRS><MEMO>b</INTRACANRS></OFX>";
    let tape = tape(&rt, rt.alloc(), body);
    let ofx = Cursor::root(&tape);
    let only = ofx.one_of(b"INTRARQ", b"INTRACANRS", b"INTRAMODRS");
    same(&rt, only.expect(&rt, "one of three").offset(), 31);
    let two = ofx.one_of(b"INTRACANRS", b"INTRAMODRS", b"INTRARS");
    same(&rt, two.err(), Some(TreeFault::Repeated(31)));
}

#[test]
fn reads_ids(rt: HostRuntime) {
    let body = b"<OFX><SRVRTID>0012<FITID>x</OFX>";
    let tape = tape(&rt, rt.alloc(), body);
    let ofx = Cursor::root(&tape);
    same(&rt, ofx.id(b"SRVRTID"), Ok(12));
    same(&rt, ofx.maybe_id(b"FITID"), Ok(0));
    let missing = Err(TreeFault::Missing(0));
    same(&rt, ofx.id(b"RECSRVRTID"), missing);
}
