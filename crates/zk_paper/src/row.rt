ghost use Rattle.std.specs.Prelude.{◌≡◌, ◌+◌, ◌-◌, ◌/◌, ◌%◌, ◌<◌, ◌≤◌, [], ◌∷◌, ◌++◌, length, decimal};
ghost use Rattle.zk_paper.specs.Rows.{row_room};

use std::marker::Model;

/// How many bytes a row has room for.
pub const ROOM: usize = 1024;

/// Bytes in place.
#[derive(Drop)]
pub struct Row {
    // The bytes, then whatever stood there before.
    bytes: [u8; ROOM],
    len: usize,
}

impl Model for Row {
    ghost use Rattle.std.specs.Prelude.{ℕ, List, take, length, ◌≤◌, ◌≡◌};
    ghost use Rattle.zk_paper.specs.Rows.{row_room};

    ghost Value = { List ℕ };

    ghost view = { λ r. take r.len r.bytes };

    ghost invariant = { λ r. (length r.bytes ≡ row_room) × (r.len ≤ row_room) };
}

impl Row {
    /// No byte.
    pub fn new() -> Row
        ensures { result ≡ [] }
    {
        Row {
            bytes: [0; ROOM],
            len: 0,
        }
    }

    /// How many more bytes fit.
    #[inline(always)]
    pub fn room(&self) -> usize
        ensures room { result ≡ row_room - length self.now }
        ensures within { length self.now ≤ row_room }
    {
        ROOM - self.len
    }

    /// The bytes.
    pub fn bytes(&self) -> &[u8]
        ensures { result.now ≡ self.now }
    {
        &self.bytes[..self.len]
    }

    /// No byte is left.
    pub fn clear(&mut self)
        ensures { self.new ≡ [] }
    {
        self.len = 0;
    }

    /// Appends bytes. Most words are short, and their ends are moved at once, one over the other.
    #[inline(always)]
    pub fn put(&mut self, bytes: &[u8])
        requires { length self.old + length bytes.now ≤ row_room }
        ensures { self.new ≡ self.old ++ bytes.now }
    {
        match bytes.len() {
            0..4 => self.put_each(bytes),
            4..8 => self.put_ends(bytes, 4),
            8..17 => self.put_ends(bytes, 8),
            _ => self.put_all(bytes),
        }
    }

    /// Appends bytes by two moves, of the first and of the last ones.
    #[inline(always)]
    fn put_ends(&mut self, bytes: &[u8], count: usize)
        requires room { length self.old + length bytes.now ≤ row_room }
        requires within { count ≤ length bytes.now }
        requires whole { length bytes.now ≤ count + count }
        ensures { self.new ≡ self.old ++ bytes.now }
    {
        let at = self.len;
        let rest = bytes.len() - count;
        self.bytes[at..at + count].copy_from_slice(&bytes[..count]);
        self.bytes[at + rest..at + rest + count].copy_from_slice(&bytes[rest..]);
        self.len = at + bytes.len();
    }

    /// Appends bytes one by one.
    #[inline(always)]
    fn put_each(&mut self, bytes: &[u8])
        requires room { length self.old + length bytes.now ≤ row_room }
        ensures { self.new ≡ self.old ++ bytes.now }
    {
        match bytes {
            [] => {}
            [first] => self.push(*first),
            [first, second] => {
                self.push(*first);
                self.push(*second);
            }
            [first, second, third] => {
                self.push(*first);
                self.push(*second);
                self.push(*third);
            }
            _ => self.put_all(bytes),
        }
    }

    /// Appends many bytes.
    #[inline(never)]
    fn put_all(&mut self, bytes: &[u8])
        requires { length self.old + length bytes.now ≤ row_room }
        ensures { self.new ≡ self.old ++ bytes.now }
    {
        let end = self.len + bytes.len();
        self.bytes[self.len..end].copy_from_slice(bytes);
        self.len = end;
    }

    /// Appends a byte.
    #[inline(always)]
    pub fn push(&mut self, byte: u8)
        requires { length self.old < row_room }
        ensures { self.new ≡ self.old ++ byte ∷ [] }
    {
        let at = self.len;
        self.bytes[at] = byte;
        self.len = at + 1;
    }

    /// Appends a number below a million in decimal digits.
    pub fn put_small(&mut self, number: u64)
        requires small { number < 1000000 }
        requires room { length self.old + 6 ≤ row_room }
        ensures { self.new ≡ self.old ++ decimal number }
    {
        if number < 100 {
            self.put_two(number);
            return;
        }
        if number < 10_000 {
            self.put_two(number / 100);
            self.put_pair(number % 100);
            return;
        }
        self.put_two(number / 10_000);
        self.put_pair(number / 100 % 100);
        self.put_pair(number % 100);
    }

    /// Appends a number of one or two digits.
    #[inline(always)]
    fn put_two(&mut self, number: u64)
        requires few { number < 100 }
        requires room { length self.old + 2 ≤ row_room }
        ensures text { self.new ≡ self.old ++ decimal number }
        ensures short { length self.new ≤ length self.old + 2 }
    {
        if number < 10 {
            self.put_figure(number);
            return;
        }
        self.put_pair(number);
    }

    /// Appends two digits.
    #[inline(always)]
    fn put_pair(&mut self, number: u64)
        requires few { number < 100 }
        requires room { length self.old + 2 ≤ row_room }
        ensures text { self.new ≡ self.old ++ decimal (number / 10) ++ decimal (number % 10) }
        ensures short { length self.new ≡ length self.old + 2 }
    {
        self.put_figure(number / 10);
        self.put_figure(number % 10);
    }

    /// Appends a digit.
    #[inline(always)]
    #[tactic(auto, using(crate::proofs::Figures::one_figure))]
    fn put_figure(&mut self, digit: u64)
        requires digit { digit < 10 }
        requires room { length self.old < row_room }
        ensures text { self.new ≡ self.old ++ decimal digit }
        ensures short { length self.new ≡ length self.old + 1 }
    {
        self.push(b'0' + digit as u8);
    }
}
