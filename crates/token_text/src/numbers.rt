//! Numbers in decimal digits.
ghost use Rattle.std.specs.Prelude.{◌≡◌, ◌≤◌, ◌+◌, length};
ghost use Rattle.token_text.specs.Reading.{Reads, Puts};
ghost use Rattle.token_text.specs.Numbers.{is_unpadded, number_form, num_form, int_form};
ghost use Rattle.token_text.specs.Steps.{digits_on};

use crate::faults::TokenFault;
use crate::writing::{Line, put};
use itoa::Buffer;

/// The value of decimal digits; None where another byte is among them, or the value is too great.
#[tactic(auto, using(crate::proofs::Decimals::digit_steps))]
fn digits(most: u64, text: &[u8]) -> Option<u64>
    ensures { result ≡ digits_on most 0 text.now }
{
    let mut number: u64 = 0;
    for byte in text {
        if !byte.is_ascii_digit() {
            return None;
        }
        let next = u128::from(number) * 10 + u128::from(*byte - b'0');
        if next > u128::from(most) {
            return None;
        }
        number = next as u64;
    }
    Some(number)
}

fn has_no_padding(token: &[u8]) -> bool
    ensures { result ≡ is_unpadded token.now }
{
    !matches!(token, [] | [b'0', _, ..])
}

/// Reads a number of at most a greatest value.
#[tactic(auto, using(crate::proofs::Decimals::digits_good, crate::proofs::Decimals::digits_bad))]
pub fn read_number(most: u64, token: &[u8]) -> Result<u64, TokenFault>
    ensures { Reads (number_form most) token.now result }
{
    if !has_no_padding(token) {
        return Err(TokenFault::NotOfForm);
    }
    match digits(most, token) {
        Some(number) => Ok(number),
        None => Err(TokenFault::NotOfForm),
    }
}

/// Reads a number of at most 2,147,483,647.
pub fn read_num(token: &[u8]) -> Result<u32, TokenFault>
    ensures { Reads num_form token.now result }
{
    Ok(read_number(2_147_483_647, token)? as u32)
}

/// Reads a number with or without a sign.
pub fn read_int(token: &[u8]) -> Result<i32, TokenFault>
    ensures { Reads int_form token.now result }
{
    match token {
        [b'-', size @ ..] => match read_number(2_147_483_648, size)? {
            0 => Err(TokenFault::NotOfForm),
            size => Ok(-1 - (size - 1) as i32),
        },
        _ => Ok(read_num(token)? as i32),
    }
}

/// Adds a number.
pub fn put_number(out: &mut Line, number: u64)
    requires room { length out.old.items + 20 ≤ 2048 }
    ensures { Puts (number_form 18446744073709551615) 20 number out.old.items out.new.items }
{
    put(out, Buffer::new().format(number).as_bytes());
}

/// Adds a number of 32 bits.
pub fn put_num(out: &mut Line, number: u32)
    requires room { length out.old.items + 10 ≤ 2048 }
    ensures { Puts num_form 10 number out.old.items out.new.items }
{
    put(out, Buffer::new().format(number).as_bytes());
}

/// Adds a number with or without a sign.
pub fn put_int(out: &mut Line, number: i32)
    requires room { length out.old.items + 11 ≤ 2048 }
    ensures { Puts int_form 11 number out.old.items out.new.items }
{
    put(out, Buffer::new().format(number).as_bytes());
}
