//! The talk: sign-ons that open a session or are given up, and what came of appends.

use postgres_messages::{BackendMessage, Reading, read_message};
use postgres_talk::{Outcome, Saying, SignOn, Stage, Standing};
use scram_sha256::Identity;
use std::alloc::Global;
use std::process::Abort;

const WHO: Identity<'static> = Identity {
    user: b"user",
    password: b"pencil",
    nonce: b"rOprNGfwEbeRWgbNEkqO",
};

/// The messages of a sign-on, with the exchange of RFC 7677, section 3, and the stage after each.
const SIGN_ON: &[(&[u8], Stage)] = &[
    (b"R\0\0\0\x17\0\0\0\x0aSCRAM-SHA-256\0\0", Stage::Greeted),
    (
        b"R\0\0\0\x5e\0\0\0\x0br=rOprNGfwEbeRWgbNEkqO%hvYDpWUa2RaTCAfuxFIlj)hNlF$k0,s=W22ZaJ0SNY7soEsUEjb6gQ==,i=4096",
        Stage::Proved,
    ),
    (
        b"R\0\0\0\x36\0\0\0\x0cv=6rriTRBi23WpRR/wtup+mMhUZUn/dB5nLTJRsjl95G4=",
        Stage::Verified,
    ),
    (b"R\0\0\0\x08\0\0\0\0", Stage::Admitted),
    (b"S\0\0\0\x17in_hot_standby\0off\0", Stage::Admitted),
    (b"K\0\0\0\x0c\0\0\x12\x34\x56\x78\x9a\xbc", Stage::Admitted),
    (b"Z\0\0\0\x05I", Stage::Open),
];

fn hear(rt: &impl Abort, alloc: Global, sign_on: &mut SignOn, bytes: &[u8]) -> Stage {
    match read_message(bytes) {
        Reading::Whole(message, _) => {
            let _said: Saying = sign_on.hear(alloc, WHO, &message).expect(rt, "memory");
        }
        _ => assert!(rt; false, "the message isn't read"),
    }
    sign_on.stage()
}

#[test]
fn sign_ons_open_a_session(rt: HostRuntime) {
    let mut sign_on = SignOn::new(rt.alloc());
    for (bytes, stage) in SIGN_ON {
        assert_eq!(&rt; hear(&rt, rt.alloc(), &mut sign_on, bytes), *stage);
    }
}

#[test]
fn servers_that_skip_a_step_are_given_up(rt: HostRuntime) {
    for skipped in 0..4 {
        let mut sign_on = SignOn::new(rt.alloc());
        let mut stage = Stage::Started;
        for i in 0..SIGN_ON.len() {
            if i != skipped {
                stage = hear(&rt, rt.alloc(), &mut sign_on, SIGN_ON[i].0);
            }
        }
        assert_eq!(&rt; stage, Stage::GivenUp);
    }
}

const BOUND: &[u8] = b"2\0\0\0\x04";

const INSERTED: &[u8] = b"C\0\0\0\x0fINSERT 0 2\0";

const NONE: &[u8] = b"C\0\0\0\x0fINSERT 0 0\0";

const READY: &[u8] = b"Z\0\0\0\x05I";

const DUPLICATE: &[u8] = b"E\0\0\0\x13VERROR\0C23505\0\0";

const TIMEOUT: &[u8] = b"E\0\0\0\x13VERROR\0C55P03\0\0";

const FATAL: &[u8] = b"E\0\0\0\x13VFATAL\0C57P01\0\0";

const NOTICE: &[u8] = b"N\0\0\0\x15VWARNING\0C01000\0\0";

const SETTING: &[u8] = b"S\0\0\0\x0aa\0bcd\0";

/// What is heard after an append of two records, and what came of it.
const APPENDS: &[(&[&[u8]], Outcome)] = &[
    (&[BOUND, INSERTED, READY], Outcome::Acknowledged),
    (
        &[SETTING, BOUND, SETTING, INSERTED, SETTING, READY],
        Outcome::Acknowledged,
    ),
    (&[BOUND, INSERTED], Outcome::Unknown),
    (&[BOUND, READY], Outcome::Unknown),
    (&[BOUND, NONE, READY], Outcome::Fenced),
    (&[BOUND, INSERTED, NOTICE, READY], Outcome::Unknown),
    (&[BOUND, DUPLICATE, READY], Outcome::Duplicate),
    (&[BOUND, TIMEOUT, READY], Outcome::Undone),
    (&[BOUND, DUPLICATE], Outcome::Unknown),
    (&[BOUND, FATAL, READY], Outcome::Unknown),
    (&[INSERTED, READY], Outcome::Unknown),
    (&[BOUND, INSERTED, INSERTED, READY], Outcome::Unknown),
];

fn outcome_of(rt: &impl Abort, heard: &[&[u8]]) -> Outcome {
    let mut standing = Standing::append();
    for bytes in heard {
        match read_message(bytes) {
            Reading::Whole(message, _) => standing = standing.hear(&message),
            _ => assert!(rt; false, "the message isn't read"),
        }
    }
    standing.outcome(2)
}

#[test]
fn appends_are_acknowledged_by_ready_alone(rt: HostRuntime) {
    for (heard, wanted) in APPENDS {
        assert_eq!(&rt; outcome_of(&rt, heard), *wanted);
    }
}

#[test]
fn statements_are_parsed_and_asked(rt: HostRuntime) {
    let parsed = Standing::parsing(1)
        .hear(&BackendMessage::Parsed)
        .hear(&BackendMessage::Ready);
    assert!(&rt; matches!(parsed, Standing::Done(None)));
    let asked = Standing::asking(1)
        .hear(&BackendMessage::Bound)
        .hear(&BackendMessage::Completed(b"SELECT 0"))
        .hear(&BackendMessage::Ready);
    assert!(&rt; matches!(asked, Standing::Done(None)));
}
