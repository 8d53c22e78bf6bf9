//! Bytes of a message, as hexadecimal digits.
ghost use Rattle.std.specs.Prelude.{◌≡◌, ◌≤◌, ◌<◌, ◌+◌, ◌*◌, ◌++◌, true, length};
ghost use Rattle.std.specs.List.{list_all};
ghost use Rattle.token_text.specs.Reading.{Reads, Puts};
ghost use Rattle.token_text.specs.Texts.{hex_form, is_hex_digit, are_hex_digits, hex_digit, hex_digits};
ghost use Rattle.token_text.specs.Steps.{hex_value, hex_bytes};

use crate::faults::TokenFault;
use crate::writing::{Line, put};
use arrayvec::ArrayVec;
use mpi_base::Payload;

fn is_digit(byte: u8) -> bool
    ensures { result ≡ is_hex_digit byte }
{
    matches!(byte, b'0'..=b'9' | b'a'..=b'f')
}

fn all_digits(text: &[u8]) -> bool
    ensures { result ≡ list_all is_hex_digit text.now }
{
    text.iter().all(|byte| is_digit(*byte))
}

fn are_digits(token: &[u8]) -> bool
    ensures { result ≡ are_hex_digits token.now }
{
    !token.is_empty() && token.len() % 2 == 0 && all_digits(token)
}

fn value(digit: u8) -> u8
    requires form { is_hex_digit digit ≡ true }
    ensures value { result ≡ hex_value digit }
    ensures small { result < 16 }
{
    if digit < 58 { digit - 48 } else { digit - 87 }
}

/// The bytes that digits stand for, two for each.
fn bytes(text: &[u8]) -> ArrayVec<u8, 256>
    requires form { are_hex_digits text.now ≡ true }
    requires short { length text.now ≤ 512 }
    ensures { result.items ≡ hex_bytes text.now }
{
    let mut bytes = ArrayVec::new();
    for place in 0..text.len() / 2 {
        bytes.push(16 * value(text[2 * place]) + value(text[2 * place + 1]));
    }
    bytes
}

/// Reads the bytes of a message.
#[tactic(auto, using(crate::proofs::Hex::hex_half))]
pub fn read_hex(token: &[u8]) -> Result<Payload, TokenFault>
    ensures { Reads hex_form token.now result }
{
    if token == b"-".as_slice() {
        return Payload::new(&[]).ok_or(TokenFault::TooLong);
    }
    if !are_digits(token) {
        return Err(TokenFault::NotOfForm);
    }
    if token.len() > 512 {
        return Err(TokenFault::TooLong);
    }
    match Payload::new(bytes(token).as_slice()) {
        Some(payload) => Ok(payload),
        None => Err(TokenFault::TooLong),
    }
}

fn digit(value: u8) -> u8
    requires { value < 16 }
    ensures { result ≡ hex_digit value }
{
    if value < 10 { 48 + value } else { 87 + value }
}

#[tactic(auto, using(crate::proofs::Hex::pairs_on))]
fn put_digits(out: &mut Line, bytes: &[u8])
    requires room { length out.old.items + 2 * length bytes.now ≤ 2048 }
    ensures added { out.new.items ≡ out.old.items ++ hex_digits bytes.now }
    ensures short { length out.new.items ≤ length out.old.items + 2 * length bytes.now }
{
    for byte in bytes {
        put(out, &[digit(*byte / 16), digit(*byte % 16)]);
    }
}

/// Adds the bytes of a message.
pub fn put_hex(out: &mut Line, payload: &Payload)
    requires room { length out.old.items + 512 ≤ 2048 }
    ensures { Puts hex_form 512 payload.now out.old.items out.new.items }
{
    match payload.bytes() {
        [] => put(out, b"-"),
        bytes => put_digits(out, bytes),
    }
}
