// Which bytes stand where.

ghost use Rattle.std.specs.Prelude.{◌≡◌, ◌<◌, ◌==◌, IsTrue, slice_index};
ghost use Rattle.ctw_lex.specs.Chars.{is_blank, is_atom_byte, is_string_byte, is_hex, hex_value};

/// Whether a byte is a blank: a space, a tab, a carriage return or a line feed.
pub fn is_blank_byte(b: u8) -> bool
    ensures { result ≡ is_blank b }
{
    b == b' ' || b == b'\t' || b == b'\r' || b == b'\n'
}

/// Whether a byte may stand in an atom.
pub fn is_part_of_atom(b: u8) -> bool
    ensures { result ≡ is_atom_byte b }
{
    match b {
        b'a'..=b'z' | b'A'..=b'Z' | b'0'..=b'9' => true,
        b'!' | b'#' | b'$' | b'%' | b'&' | b'\'' | b'*' | b'+' | b'-' | b'.' | b'/' | b':' => true,
        b'<' | b'=' | b'>' | b'?' | b'@' | b'\\' | b'^' | b'_' | b'`' | b'|' | b'~' => true,
        _ => false,
    }
}

/// Whether a byte stands for itself in a string.
pub fn is_part_of_string(b: u8) -> bool
    ensures { result ≡ is_string_byte b }
{
    b >= 32 && b != 127 && b != b'"' && b != b'\\'
}

/// Whether a byte is a hexadecimal digit of either case.
pub fn is_hex_digit(b: u8) -> bool
    ensures { result ≡ is_hex b }
{
    match b {
        b'0'..=b'9' | b'A'..=b'F' | b'a'..=b'f' => true,
        _ => false,
    }
}

/// What a hexadecimal digit counts.
pub fn hex_digit_value(b: u8) -> u8
    requires { IsTrue (is_hex b) }
    ensures value { result ≡ hex_value b }
    ensures small { result < 16 }
{
    if b <= b'9' {
        b - b'0'
    } else if b <= b'F' {
        b - 55
    } else {
        b - 87
    }
}

/// Whether bytes begin with this one.
pub fn begins_with(bytes: &[u8], b: u8) -> bool
    requires { 0 < b }
    ensures { result ≡ (slice_index bytes.now 0 == b) }
{
    !bytes.is_empty() && bytes[0] == b
}
