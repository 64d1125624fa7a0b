// The bytes of a text as characters, and what of them is shown.

// Does a character begin with the byte, in UTF-8?
pub(crate) fn begins_character(byte: u8) -> bool {
    byte & 0xc0 != 0x80
}

pub(crate) fn is_blank(byte: u8) -> bool {
    matches!(byte, b' ' | b'\t')
}

pub(crate) fn ends_line(byte: u8) -> bool {
    matches!(byte, b'\n' | b'\r')
}

// How many columns the bytes take: one for each character.
pub(crate) fn columns(bytes: &[u8]) -> usize {
    bytes.iter().filter(|byte| begins_character(**byte)).count()
}

// Control characters would disturb a terminal, so `?` stands for each.
pub(crate) fn shown(c: char) -> char {
    if c.is_control() { '?' } else { c }
}
