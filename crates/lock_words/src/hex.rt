//! Numbers in hexadecimal digits.
ghost use Rattle.std.specs.Prelude.{◌≡◌, ◌+◌, ◌<◌, ◌≤◌, ◌++◌, length};
ghost use Rattle.lock_words.specs.Numbers.{glyph, hex_digits, hex_text};

use byte_streams::Outbox;

fn glyph(digit: u64) -> u8
    requires { digit < 16 }
    ensures { result ≡ glyph digit }
{
    if digit < 10 {
        b'0' + digit as u8
    } else {
        b'a' + (digit as u8 - 10)
    }
}

fn add_digits(out: &mut Outbox, number: u64, most: u32)
    requires { length out.old + most ≤ 4096 }
    ensures text { out.new ≡ out.old ++ hex_digits most number }
    ensures short { length out.new ≤ length out.old + most }
{
    if most == 0 {
        return;
    }
    if number >= 16 {
        add_digits(out, number / 16, most - 1);
    }
    out.add(&[glyph(number % 16)]);
}

/// Adds `0x` and the number's digits, of which there are at most 16.
pub(crate) fn add_hex(out: &mut Outbox, number: u64)
    requires { length out.old + 18 ≤ 4096 }
    ensures text { out.new ≡ out.old ++ hex_text number }
    ensures short { length out.new ≤ length out.old + 18 }
{
    out.add(b"0x");
    add_digits(out, number, 16);
}
