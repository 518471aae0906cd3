// Numbers in decimal and bytes in hexadecimal. They are put by hand, since each byte is proved and `std`'s formatting has no clause.
ghost use Rattle.std.specs.Prelude.{◌+◌, ◌≤◌, ◌<◌, ◌≡◌, length};
ghost use Rattle.writing.specs.inner.Puts.{longest, PutsOn};
ghost use Rattle.listing.specs.Printed.{decimal, hex_digit, hex_digits, hexadecimal};

use writing::sheet::Sheet;

// Puts a number in decimal: the digits of its tenth where it has some, then the last one.
pub fn put_number(sheet: &mut Sheet, n: usize)
    requires { sheet.old.at + length (decimal n) ≤ longest }
    ensures { PutsOn sheet.old (decimal n) sheet.new }
{
    if n >= 10 {
        put_number(sheet, n / 10);
    }
    sheet.put(&[b'0' + (n % 10) as u8]);
}

// A hexadecimal digit, a capital where it is a letter.
fn digit(n: u8) -> u8
    requires { n < 16 }
    ensures { result ≡ hex_digit n }
{
    if n < 10 { b'0' + n } else { b'A' + (n - 10) }
}

// Puts a byte in hexadecimal: two digits.
fn put_byte(sheet: &mut Sheet, b: u8)
    requires { sheet.old.at + 2 ≤ longest }
    ensures { PutsOn sheet.old (hex_digits b) sheet.new }
{
    sheet.put(&[digit(b / 16), digit(b % 16)]);
}

// Puts bytes in hexadecimal.
pub fn put_bytes(sheet: &mut Sheet, bytes: &[u8])
    requires { sheet.old.at + length (hexadecimal bytes.now) ≤ longest }
    ensures { PutsOn sheet.old (hexadecimal bytes.now) sheet.new }
{
    for &byte in bytes {
        put_byte(sheet, byte);
    }
}
