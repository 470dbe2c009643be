use zk_base::{NoMemory, put, put_decimal};

/// Appends a piece so many times: the count, a space, and the piece. Without a count it appends none.
pub fn put_times(text: &mut Vec<u8>, times: &str) -> Result<(), NoMemory> {
    let (count, piece) = times.split_once(' ').unwrap_or(("", times));
    for number in 0..count.parse::<u32>().unwrap_or(0) {
        put_spelled(text, piece.as_bytes(), u64::from(number))?;
    }
    Ok(())
}

/// Appends a piece in which `%` stands for the number, and `\n`, `\r` and `\t` for a line feed, a return and a tab.
pub fn put_spelled(text: &mut Vec<u8>, piece: &[u8], number: u64) -> Result<(), NoMemory> {
    let mut escaped = false;
    for byte in piece {
        match (escaped, *byte) {
            (false, b'\\') => {}
            (false, b'%') => put_decimal(text, number)?,
            (true, b'n') => put(text, b"\n")?,
            (true, b'r') => put(text, b"\r")?,
            (true, b't') => put(text, b"\t")?,
            _ => put(text, &[*byte])?,
        }
        escaped = !escaped && *byte == b'\\';
    }
    Ok(())
}
