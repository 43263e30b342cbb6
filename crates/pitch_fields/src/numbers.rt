//! Little-endian numbers of two, four and eight bytes, read and written in place.

ghost use Rattle.std.specs.Prelude.{◌≡◌, ◌+◌, ◌≤◌, length};
ghost use Rattle.byteorder.specs.Endian.{little_bytes};
ghost use Rattle.pitch_fields.specs.Fields.{number_at, put_at};

use byteorder::{ByteOrder, LittleEndian};

/// The little-endian number of the 2 bytes from `at`.
#[inline]
pub fn get_u16(bytes: &[u8], at: usize) -> u16
    requires { at + 2 ≤ length bytes.now }
    ensures { result ≡ number_at 2 at bytes.now }
{
    LittleEndian::read_u16(&bytes[at..])
}

/// The little-endian number of the 4 bytes from `at`.
#[inline]
pub fn get_u32(bytes: &[u8], at: usize) -> u32
    requires { at + 4 ≤ length bytes.now }
    ensures { result ≡ number_at 4 at bytes.now }
{
    LittleEndian::read_u32(&bytes[at..])
}

/// The little-endian number of the 8 bytes from `at`.
#[inline]
pub fn get_u64(bytes: &[u8], at: usize) -> u64
    requires { at + 8 ≤ length bytes.now }
    ensures { result ≡ number_at 8 at bytes.now }
{
    LittleEndian::read_u64(&bytes[at..])
}

/// Writes a little-endian number into the 2 bytes from `at`, and no other byte.
#[inline]
pub fn put_u16(bytes: &mut [u8], at: usize, value: u16)
    requires { at + 2 ≤ length bytes.old }
    ensures { bytes.new ≡ put_at bytes.old at (little_bytes 2 value) }
{
    LittleEndian::write_u16(&mut bytes[at..at + 2], value);
}

/// Writes a little-endian number into the 4 bytes from `at`, and no other byte.
#[inline]
pub fn put_u32(bytes: &mut [u8], at: usize, value: u32)
    requires { at + 4 ≤ length bytes.old }
    ensures { bytes.new ≡ put_at bytes.old at (little_bytes 4 value) }
{
    LittleEndian::write_u32(&mut bytes[at..at + 4], value);
}

/// Writes a little-endian number into the 8 bytes from `at`, and no other byte.
#[inline]
pub fn put_u64(bytes: &mut [u8], at: usize, value: u64)
    requires { at + 8 ≤ length bytes.old }
    ensures { bytes.new ≡ put_at bytes.old at (little_bytes 8 value) }
{
    LittleEndian::write_u64(&mut bytes[at..at + 8], value);
}
