//! Addresses and digests as text, in fixed buffers.
ghost use Rattle.std.specs.Prelude.{◌≡◌, ℕ, List, ◌+◌, ◌*◌, ◌/◌, ◌%◌, ◌<◌, ◌≤◌, [], ◌∷◌, ◌++◌, length, take, IsAscii};
ghost use Rattle.std.specs.Fmt.{decimal};
ghost use Rattle.change_core.specs.Address.{IsAddress, address_text};
ghost use Rattle.change_core.specs.Digest.{IsDigest, digest_digits};
ghost use Rattle.change_core.specs.Printing.{upto};

use crate::addresses::Address;
use crate::digests::Digest;
use std::marker::Model;

/// The number of bytes of the longest address, `255.255.255.255:65535`.
const ADDRESS_BYTES: usize = 21;

/// The number of digits of a digest.
const DIGEST_BYTES: usize = 64;

/// The one text of an address, as `Address::text` gives it, in a buffer of 21 bytes: it takes no memory. Contracts see its
/// bytes.
#[derive(Drop)]
pub struct AddressText {
    bytes: [u8; ADDRESS_BYTES],
    len: usize,
}

impl Model for AddressText {
    ghost Value = { List ℕ };

    ghost view = { λ t. take t.len t.bytes };

    ghost invariant = { λ t. (t.len ≤ 21) × IsAscii (take t.len t.bytes) };
}

impl AddressText {
    /// The text of the address: four numbers joined by '.', then ':' and the port, at most 21 bytes.
    pub fn of(address: Address) -> Self
        ensures text { result ≡ address_text address }
        ensures len { length result ≤ 21 }
        ensures valid { IsAddress address }
    {
        let mut bytes = [0; ADDRESS_BYTES];
        let len = put_address(&mut bytes, address);
        AddressText { bytes, len }
    }

    /// The text, lent.
    pub fn as_str(&self) -> &str
        ensures { result.now ≡ self.now }
    {
        unsafe { std::str::from_utf8_unchecked(&self.bytes[..self.len]) }
    }
}

/// Writes a byte after the first `len`, and returns the new length. The length is not a field of the buffer, so that it
/// stays in a register.
#[inline(always)]
fn put(bytes: &mut [u8; ADDRESS_BYTES], len: usize, byte: u8) -> usize
    requires room { len < 21 }
    ensures text { take result bytes.new ≡ take len bytes.old ++ byte ∷ [] }
    ensures len { result ≡ len + 1 }
{
    bytes[len] = byte;
    len + 1
}

/// Puts the last digit of a number, unless that is 0: the digits of a number, one after another.
#[inline(always)]
#[tactic(auto, using(crate::proofs::DecimalTexts::upto_step, crate::proofs::DecimalTexts::upto_none))]
fn put_digit(bytes: &mut [u8; ADDRESS_BYTES], len: usize, number: u16) -> usize
    requires room { len < 21 }
    ensures digits { (prefix : List ℕ) → take len bytes.old ≡ prefix ++ upto (number / 10)
        → take result bytes.new ≡ prefix ++ upto number }
    ensures len { result ≤ len + 1 }
{
    if number == 0 {
        return len;
    }
    put(bytes, len, 48 + (number % 10) as u8)
}

/// Puts a number below 256 in decimal.
#[inline(always)]
fn put_octet(bytes: &mut [u8; ADDRESS_BYTES], len: usize, number: u8) -> usize
    requires room { len + 3 ≤ 21 }
    ensures text { take result bytes.new ≡ take len bytes.old ++ decimal number }
    ensures len { result ≤ len + 3 }
{
    let number = u16::from(number);
    let hundreds = put_digit(bytes, len, number / 100);
    let tens = put_digit(bytes, hundreds, number / 10);
    put(bytes, tens, 48 + (number % 10) as u8)
}

/// Puts a port in decimal.
#[inline(always)]
fn put_port(bytes: &mut [u8; ADDRESS_BYTES], len: usize, number: u16) -> usize
    requires room { len + 5 ≤ 21 }
    ensures text { take result bytes.new ≡ take len bytes.old ++ decimal number }
    ensures len { result ≤ len + 5 }
{
    let first = put_digit(bytes, len, number / 10_000);
    let second = put_digit(bytes, first, number / 1_000);
    let third = put_digit(bytes, second, number / 100);
    let fourth = put_digit(bytes, third, number / 10);
    put(bytes, fourth, 48 + (number % 10) as u8)
}

/// Puts a number below 256 in decimal, and the byte that ends it.
#[inline(always)]
fn put_part(bytes: &mut [u8; ADDRESS_BYTES], len: usize, number: u8, end: u8) -> usize
    requires room { len + 4 ≤ 21 }
    ensures text { take result bytes.new ≡ take len bytes.old ++ (decimal number ++ end ∷ []) }
    ensures len { result ≤ len + 4 }
{
    let octet = put_octet(bytes, len, number);
    put(bytes, octet, end)
}

/// Puts an address's text at the front: four numbers joined by dots, a colon and the port.
#[inline(always)]
fn put_address(bytes: &mut [u8; ADDRESS_BYTES], address: Address) -> usize
    ensures text { take result bytes.new ≡ address_text address }
    ensures len { result ≤ 21 }
    ensures valid { IsAddress address }
{
    let ip = address.ip();
    let port = address.port();
    let first = put_part(bytes, 0, (ip / 16_777_216 % 256) as u8, b'.');
    let second = put_part(bytes, first, (ip / 65_536 % 256) as u8, b'.');
    let third = put_part(bytes, second, (ip / 256 % 256) as u8, b'.');
    let fourth = put_part(bytes, third, (ip % 256) as u8, b':');
    put_port(bytes, fourth, port)
}

/// The one text of a digest, as `Digest::text` gives it, in a buffer of 64 bytes: it takes no memory. Contracts see its
/// bytes.
#[derive(Drop)]
pub struct DigestText {
    bytes: [u8; DIGEST_BYTES],
}

impl Model for DigestText {
    ghost Value = { List ℕ };

    ghost view = { λ t. t.bytes };

    ghost invariant = { λ t. IsAscii t.bytes };
}

impl DigestText {
    /// The text of the digest: 64 lower-case hexadecimal digits.
    pub fn of(digest: &Digest) -> Self
        ensures text { result ≡ digest_digits digest.now.bytes }
        ensures valid { IsDigest digest.now.bytes }
    {
        let bytes = digits_of(&digest.bytes());
        DigestText { bytes }
    }

    /// The text, lent.
    pub fn as_str(&self) -> &str
        ensures { result.now ≡ self.now }
    {
        unsafe { std::str::from_utf8_unchecked(&self.bytes) }
    }
}

/// Two lower-case hexadecimal digits for each of 32 bytes.
fn digits_of(bytes: &[u8]) -> [u8; DIGEST_BYTES]
    requires { length bytes.now ≡ 32 }
    ensures digits { result ≡ digest_digits bytes.now }
    ensures ascii { IsAscii result }
    ensures valid { IsDigest bytes.now }
{
    let mut digits = [0; DIGEST_BYTES];
    let Ok(()) = hex::encode_to_slice(bytes, &mut digits) else {
        unreachable!();
    };
    digits
}
