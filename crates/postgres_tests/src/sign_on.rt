//! The sign-on: vectors of RFC 4231 and RFC 7677, and one of a server.

use scram_sha256::{Identity, ScramFault, client_first, hmac_sha256, replies_to};
use std::process::Abort;

fn same(rt: &impl Abort, found: &[u8], wanted: &[u8]) {
    assert_eq!(rt; found, wanted);
}

const CODES: &[(&[u8], &[u8], &[u8])] = &[
    (
        b"Jefe",
        b"what do ya want for nothing?",
        b"\x5b\xdc\xc1\x46\xbf\x60\x75\x4e\x6a\x04\x24\x26\x08\x95\x75\xc7\x5a\x00\x3f\x08\x9d\x27\x39\x83\x9d\xec\x58\xb9\x64\xec\x38\x43",
    ),
    (
        &[0x0b; 20],
        b"Hi There",
        b"\xb0\x34\x4c\x61\xd8\xdb\x38\x53\x5c\xa8\xaf\xce\xaf\x0b\xf1\x2b\x88\x1d\xc2\x00\xc9\x83\x3d\xa7\x26\xe9\x37\x6c\x2e\x32\xcf\xf7",
    ),
    (
        &[0xaa; 131],
        b"Test Using Larger Than Block-Size Key - Hash Key First",
        b"\x60\xe4\x31\x59\x1e\xe0\xb6\x7f\x0d\x8a\x26\xaa\xcb\xf5\xb7\x7f\x8e\x0b\xc6\x21\x37\x28\xc5\x14\x05\x46\x04\x0f\x0e\xe3\x7f\x54",
    ),
];

#[test]
fn codes_are_those_of_the_standard(rt: HostRuntime) {
    for (key, text, code) in CODES {
        same(&rt, &hmac_sha256(key, text), code);
    }
}

const CHALLENGE: &[u8] =
    b"r=rOprNGfwEbeRWgbNEkqO%hvYDpWUa2RaTCAfuxFIlj)hNlF$k0,s=W22ZaJ0SNY7soEsUEjb6gQ==,i=4096";

/// A user's name, the client's two messages, and the server's last one.
const SIGN_ONS: &[(&[u8], &[u8], &[u8], &[u8])] = &[
    // The exchange of RFC 7677, section 3.
    (
        b"user",
        b"n,,n=user,r=rOprNGfwEbeRWgbNEkqO",
        b"c=biws,r=rOprNGfwEbeRWgbNEkqO%hvYDpWUa2RaTCAfuxFIlj)hNlF$k0,p=dHzbZapWIk4jUhN+Ute9ytag9zjfMHgsqmmiz7AndVQ=",
        b"v=6rriTRBi23WpRR/wtup+mMhUZUn/dB5nLTJRsjl95G4=",
    ),
    // The same with a name that has to be escaped. The codes are those of Python's `hashlib` and `hmac`.
    (
        b"a,b=c",
        b"n,,n=a=2Cb=3Dc,r=rOprNGfwEbeRWgbNEkqO",
        b"c=biws,r=rOprNGfwEbeRWgbNEkqO%hvYDpWUa2RaTCAfuxFIlj)hNlF$k0,p=SZPNPeS9o66WjPx3GO+3ry3VEj0oTmhDA8jaGvHNN0g=",
        b"v=qQFrXBHbHp99TSlxiDo0Wi+5Uc2kduey2yh8Wv7jYyw=",
    ),
];

fn client(user: &'static [u8]) -> Identity<'static> {
    Identity {
        user,
        password: b"pencil",
        nonce: b"rOprNGfwEbeRWgbNEkqO",
    }
}

#[test]
fn sign_ons_go_as_in_the_standard(rt: HostRuntime) {
    for (user, first, last, wanted) in SIGN_ONS {
        let who = client(*user);
        same(
            &rt,
            &client_first(rt.alloc(), who).expect(&rt, "room"),
            first,
        );
        let replies = replies_to(rt.alloc(), who, CHALLENGE).expect(&rt, "replies");
        same(&rt, &replies.last, last);
        same(&rt, &replies.wanted, wanted);
    }
}

const REFUSED: &[&[u8]] = &[
    b"",
    b"r=",
    b"r=rOprNGfwEbeRWgbNEkqO,s=W22ZaJ0SNY7soEsUEjb6gQ==,i=4096",
    b"r=another,s=W22ZaJ0SNY7soEsUEjb6gQ==,i=4096",
    b"r=rOprNGfwEbeRWgbNEkqO%,s=W22ZaJ0SNY7soEsUEjb6gQ=,i=4096",
    b"r=rOprNGfwEbeRWgbNEkqO%,s=W22ZaJ0SNY7soEsUEjb6gQ==,i=4095",
    b"r=rOprNGfwEbeRWgbNEkqO%,s=W22ZaJ0SNY7soEsUEjb6gQ==,i=1000001",
    b"r=rOprNGfwEbeRWgbNEkqO%,s=W22ZaJ0SNY7soEsUEjb6gQ==,i=",
    b"r=rOprNGfwEbeRWgbNEkqO%,s=W22ZaJ0SNY7soEsUEjb6gQ==,i=4096,m=x",
    b"m=x,r=rOprNGfwEbeRWgbNEkqO%,s=W22ZaJ0SNY7soEsUEjb6gQ==,i=4096",
];

#[test]
fn other_challenges_are_refused(rt: HostRuntime) {
    for text in REFUSED {
        match replies_to(rt.alloc(), client(b"user"), text) {
            Ok(_) => assert!(rt; false, "a challenge that is none was answered"),
            Err(fault) => assert_eq!(rt; fault, ScramFault::Refused),
        }
    }
}
