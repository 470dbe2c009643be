/// A sort of bytes.
#[derive(Clone, Copy)]
pub enum Sort {
    Space,
    Printable,
    Capital,
    Digit,
    /// What stands in names.
    OfName,
    /// A digit of a message.
    OfMessage,
}

fn is_of(byte: u8, sort: Sort) -> bool {
    match sort {
        Sort::Space => byte == b' ',
        Sort::Printable => is_printable(byte),
        Sort::Capital => byte.is_ascii_uppercase(),
        Sort::Digit => byte.is_ascii_digit(),
        Sort::OfName => byte.is_ascii_lowercase() || byte.is_ascii_digit() || byte == b'_',
        Sort::OfMessage => byte.is_ascii_digit() || b'a' <= byte && byte <= b'f',
    }
}

pub fn is_printable(byte: u8) -> bool {
    b' ' <= byte && byte <= b'~'
}

/// The place of the first byte that is of a sort, or of the first one that isn't.
pub fn first_that(text: &[u8], is: bool, sort: Sort) -> Option<usize> {
    for (at, byte) in text.iter().enumerate() {
        if is_of(*byte, sort) == is {
            return Some(at);
        }
    }
    None
}
