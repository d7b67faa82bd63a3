use std::alloc::{AllocError, Global};

/// The question of a row `NAME: QUESTION => ANSWER`, whose name may be missing.
pub fn question(row: &str) -> &str {
    let front = row.split_once(" => ").map_or(row, |(front, _)| front);
    front
        .split_once(": ")
        .map_or(front, |(_, question)| question)
}

/// The answer of a row `NAME: QUESTION => ANSWER`; nothing where it has none.
pub fn answer(row: &str) -> &str {
    row.split_once(" => ").map_or("", |(_, answer)| answer)
}

/// The value of a hexadecimal digit; None for any other character.
fn digit(character: u8) -> Option<u8> {
    match character {
        b'0'..=b'9' => Some(character - b'0'),
        b'A'..=b'F' => Some(character - b'A' + 10),
        _ => None,
    }
}

/// The bytes that a text spells by pairs of capital hexadecimal digits; other characters are passed over.
pub fn bytes_of(alloc: Global, text: &str) -> Result<Vec<u8>, AllocError> {
    let mut bytes = Vec::new(alloc);
    let mut high = None;
    for character in text.as_bytes() {
        if let Some(low) = digit(*character) {
            match high {
                None => high = Some(low),
                Some(first) => {
                    bytes.push((first << 4) | low)?;
                    high = None;
                }
            }
        }
    }
    Ok(bytes)
}
