//! The client's messages, and what it wants to hear.

ghost use Rattle.std.specs.Prelude.{◌≡◌, ◌≤◌, ◌++◌, IfOk, OnOk};
ghost use Rattle.scram_sha256.specs.Exchange as exchange;
ghost use Rattle.scram_sha256.specs.Views.{challenge_of, Answers, replies_of};

use crate::challenge::{Challenge, read_challenge};
use crate::hmac::hmac_sha256;
use crate::salted::{salted_password, xored};
use base64::engine::general_purpose::STANDARD;
use ofx_types::OutOfMemory;
use sha2::{Digest, Sha256};
use std::alloc::{AllocError, Global};
use thiserror::Error;

/// Why there is no answer to a server's message.
#[derive(Clone, Copy, Debug, PartialEq, Eq, Error)]
pub enum ScramFault {
    /// It is no challenge that the client may answer.
    #[error("the server's challenge is refused")]
    Refused,
    /// Memory was refused.
    #[error("out of memory")]
    OutOfMemory,
}

impl From<AllocError> for ScramFault {
    ghost use Rattle.scram_sha256.specs.declared.exchange.ScramFault.TheVariants as faults;

    ghost from_gives = { λ _ e. e ≡ faults.OutOfMemory };

    fn from(_refused: AllocError) -> ScramFault {
        ScramFault::OutOfMemory
    }
}

/// The client's last message, and the server's last one, which has to come after it.
#[derive(Drop)]
pub struct Replies {
    pub last: Vec<u8>,
    pub wanted: Vec<u8>,
}

/// Who signs on. The name is UTF-8 without a zero byte. The nonce is printable, has no comma, and was never used before.
#[derive(Clone, Copy)]
pub struct Identity<'a> {
    pub user: &'a [u8],
    pub password: &'a [u8],
    pub nonce: &'a [u8],
}

/// The client's first message.
pub fn client_first(alloc: Global, who: Identity) -> Result<Vec<u8>, OutOfMemory>
    ensures { IfOk result (λ text. text.items ≡ exchange.client_first who.entry.user.now who.entry.nonce.now) }
{
    let mut text = Vec::new(alloc);
    text.extend_from_slice(b"n,,")?;
    push_first_bare(who, &mut text)?;
    Ok(text)
}

/// Appends the client's first message without its header.
fn push_first_bare(who: Identity, text: &mut Vec<u8>) -> Result<(), AllocError>
    ensures { OnOk result (text.new.items ≡ text.old.items ++ exchange.first_bare who.entry.user.now who.entry.nonce.now) }
{
    text.extend_from_slice(b"n=")?;
    escape(who.user, text)?;
    text.extend_from_slice(b",r=")?;
    text.extend_from_slice(who.nonce)?;
    Ok(())
}

/// Appends a user's name, commas and equals signs escaped.
fn escape(user: &[u8], text: &mut Vec<u8>) -> Result<(), AllocError>
    ensures { OnOk result (text.new.items ≡ text.old.items ++ exchange.escaped user.now) }
{
    for byte in user {
        escape_byte(*byte, text)?;
    }
    Ok(())
}

fn escape_byte(byte: u8, text: &mut Vec<u8>) -> Result<(), AllocError>
    ensures { OnOk result (text.new.items ≡ text.old.items ++ exchange.escaped_byte byte) }
{
    match byte {
        b'=' => text.extend_from_slice(b"=3D")?,
        b',' => text.extend_from_slice(b"=2C")?,
        _ => text.push(byte)?,
    }
    Ok(())
}

/// The replies to the server's first message.
///
/// `Refused` exactly where that is no challenge, or its nonce doesn't go on from the client's.
///
/// ```rust
/// use scram_sha256::{Identity, client_first, replies_to};
///
/// // The exchange of RFC 7677, section 3.
/// let who = Identity {
///     user: b"user",
///     password: b"pencil",
///     nonce: b"rOprNGfwEbeRWgbNEkqO",
/// };
/// let first = client_first(rt.alloc(), who).expect(&rt, "room");
/// assert!(rt; first.as_slice() == b"n,,n=user,r=rOprNGfwEbeRWgbNEkqO".as_slice());
/// let server =
///     b"r=rOprNGfwEbeRWgbNEkqO%hvYDpWUa2RaTCAfuxFIlj)hNlF$k0,s=W22ZaJ0SNY7soEsUEjb6gQ==,i=4096";
/// let replies = replies_to(rt.alloc(), who, server).expect(&rt, "replies");
/// assert!(rt;
///     replies
///         .last
///         .ends_with(b",p=dHzbZapWIk4jUhN+Ute9ytag9zjfMHgsqmmiz7AndVQ=")
/// );
/// assert!(rt;
///     replies.wanted.as_slice() == b"v=6rriTRBi23WpRR/wtup+mMhUZUn/dB5nLTJRsjl95G4=".as_slice()
/// );
/// ```
#[tactic(auto, unfolding(crate::specs::Exchange::replies))]
pub fn replies_to(alloc: Global, who: Identity, first: &[u8]) -> Result<Replies, ScramFault>
    ensures { Answers replies_of result (exchange.replies who.entry.user.now who.entry.password.now who.entry.nonce.now first.now) }
{
    let asked = read_challenge(alloc, first)?;
    answer(alloc, who, first, &asked)
}

fn answer(
    alloc: Global,
    who: Identity,
    first: &[u8],
    asked: &Challenge,
) -> Result<Replies, ScramFault>
    requires { 1 ≤ asked.now.rounds }
    ensures { Answers replies_of result (exchange.replies_to who.entry.user.now who.entry.password.now who.entry.nonce.now first.now (challenge_of asked.now)) }
{
    if !asked.nonce.starts_with(who.nonce) || asked.nonce.len() <= who.nonce.len() {
        return Err(ScramFault::Refused);
    }
    let key = salted_password(who.password, &asked.salt, asked.rounds);
    let said = said_before(alloc, who, first, asked)?;
    Ok(Replies {
        last: client_last(alloc, &key, &said, asked)?,
        wanted: server_last(alloc, &key, &said)?,
    })
}

/// All that was said before the proof.
fn said_before(
    alloc: Global,
    who: Identity,
    first: &[u8],
    asked: &Challenge,
) -> Result<Vec<u8>, AllocError>
    ensures { IfOk result (λ text. text.items ≡ exchange.said who.entry.user.now who.entry.nonce.now first.now (challenge_of asked.now)) }
{
    let mut text = Vec::new(alloc);
    push_first_bare(who, &mut text)?;
    text.extend_from_slice(b",")?;
    text.extend_from_slice(first)?;
    text.extend_from_slice(b",c=biws,r=")?;
    text.extend_from_slice(asked.nonce)?;
    Ok(text)
}

#[tactic(auto, unfolding(crate::specs::Exchange::proof))]
fn client_proof(key: &[u8; 32], said: &[u8]) -> [u8; 32]
    ensures { result ≡ exchange.proof key.now said.now }
{
    let client_key = hmac_sha256(key, b"Client Key");
    let stored = Sha256::digest(&client_key);
    xored(&client_key, &hmac_sha256(&stored, said))
}

fn client_last(
    alloc: Global,
    key: &[u8; 32],
    said: &[u8],
    asked: &Challenge,
) -> Result<Vec<u8>, AllocError>
    ensures { IfOk result (λ text. text.items ≡ exchange.client_last key.now said.now (challenge_of asked.now)) }
{
    let proof = STANDARD.encode(alloc, &client_proof(key, said))?;
    let mut text = Vec::new(alloc);
    text.extend_from_slice(b"c=biws,r=")?;
    text.extend_from_slice(asked.nonce)?;
    text.extend_from_slice(b",p=")?;
    text.extend_from_slice(proof.as_bytes())?;
    Ok(text)
}

fn server_last(alloc: Global, key: &[u8; 32], said: &[u8]) -> Result<Vec<u8>, AllocError>
    ensures { IfOk result (λ text. text.items ≡ exchange.server_last key.now said.now) }
{
    let server_key = hmac_sha256(key, b"Server Key");
    let signature = STANDARD.encode(alloc, &hmac_sha256(&server_key, said))?;
    let mut text = Vec::new(alloc);
    text.extend_from_slice(b"v=")?;
    text.extend_from_slice(signature.as_bytes())?;
    Ok(text)
}
