ghost use Rattle.std.specs.Prelude.{◌≡◌, [], ◌∷◌, ◌++◌, decimal, length, ◌≤◌, ◌+◌, OnOk, OnErr};
ghost use Rattle.zk_base.specs.Fronts.{StaysInFront};
ghost use Rattle.zk_paper.specs.Rows.{row_room};

use crate::row::Row;
use itoa::Buffer;
use std::marker::Model;
use zk_base::{NoMemory, put};

/// A text that is printed behind another. Its last bytes stand in a row in place.
#[derive(Drop)]
pub struct Paper {
    // What stood there, and what was put behind it but for the row.
    whole: Vec<u8>,
    // How much stood there.
    before: usize,
    row: Row,
}

impl Model for Paper {
    ghost use Rattle.std.specs.Prelude.{take, drop, ◌++◌, ◌≤◌, length};
    ghost use Rattle.zk_paper.specs.Sheets.{Sheet};

    ghost Value = { Sheet };

    ghost view = { λ p. record {
      front = take p.before p.whole.items;
      put = drop p.before p.whole.items ++ p.row;
    } };

    ghost invariant = { λ p. p.before ≤ length p.whole.items };
}

impl Paper {
    /// The paper on which what is put stands behind these bytes.
    pub fn behind(whole: Vec<u8>) -> Paper
        ensures front { result.front ≡ whole.items }
        ensures put { result.put ≡ [] }
    {
        let before = whole.len();
        Paper {
            whole,
            before,
            row: Row::new(),
        }
    }

    /// What stood there with what was put behind it, and alone where memory is short.
    #[tactic(auto, using(crate::proofs::Sheets::sheet_whole))]
    pub fn whole(mut self) -> (Vec<u8>, Result<(), NoMemory>)
        ensures ok { OnOk result.1 (result.0.items ≡ self.front ++ self.put) }
        ensures err { OnErr result.1 (result.0.items ≡ self.front) }
    {
        let put = empty(&mut self.whole, &mut self.row);
        if put.is_err() {
            self.whole.truncate(self.before);
        }
        (self.whole, put)
    }

    /// What stood there alone.
    pub fn front(mut self) -> Vec<u8>
        ensures { result.items ≡ self.front }
    {
        self.whole.truncate(self.before);
        self.whole
    }

    /// Appends bytes.
    pub fn put(&mut self, bytes: &[u8]) -> Result<(), NoMemory>
        ensures text { OnOk result (self.new.put ≡ self.old.put ++ bytes.now) }
        ensures front { self.new.front ≡ self.old.front }
    {
        if self.row.room() < bytes.len() {
            return self.put_apart(bytes);
        }
        self.row.put(bytes);
        Ok(())
    }

    /// Appends bytes for which the row has no room.
    #[cold]
    #[inline(never)]
    fn put_apart(&mut self, bytes: &[u8]) -> Result<(), NoMemory>
        ensures text { OnOk result (self.new.put ≡ self.old.put ++ bytes.now) }
        ensures front { self.new.front ≡ self.old.front }
    {
        empty(&mut self.whole, &mut self.row)?;
        put(&mut self.whole, bytes)
    }

    /// Appends a byte.
    #[inline(always)]
    #[tactic(auto, using(crate::proofs::Sheets::sheet_more))]
    pub fn push(&mut self, byte: u8) -> Result<(), NoMemory>
        ensures text { OnOk result (self.new.put ≡ self.old.put ++ byte ∷ []) }
        ensures front { self.new.front ≡ self.old.front }
    {
        make_room(&mut self.whole, &mut self.row, 1)?;
        self.row.push(byte);
        Ok(())
    }

    /// Appends a byte and then bytes.
    #[tactic(auto, using(crate::proofs::Sheets::sheet_more))]
    pub fn put_behind(&mut self, byte: u8, bytes: &[u8]) -> Result<(), NoMemory>
        ensures text { OnOk result (self.new.put ≡ self.old.put ++ byte ∷ bytes.now) }
        ensures front { self.new.front ≡ self.old.front }
    {
        if self.row.room() <= bytes.len() {
            return self.put_behind_apart(byte, bytes);
        }
        self.row.push(byte);
        self.row.put(bytes);
        Ok(())
    }

    /// Appends a byte and then bytes for which the row has no room.
    #[cold]
    #[inline(never)]
    fn put_behind_apart(&mut self, byte: u8, bytes: &[u8]) -> Result<(), NoMemory>
        ensures text { OnOk result (self.new.put ≡ self.old.put ++ byte ∷ bytes.now) }
        ensures front { self.new.front ≡ self.old.front }
    {
        self.push(byte)?;
        self.put(bytes)
    }

    /// Appends a number in decimal digits.
    #[tactic(auto, using(crate::proofs::Sheets::sheet_more))]
    pub fn put_number(&mut self, number: u64) -> Result<(), NoMemory>
        ensures text { OnOk result (self.new.put ≡ self.old.put ++ decimal number) }
        ensures front { self.new.front ≡ self.old.front }
    {
        if 1_000_000 <= number {
            return self.put_large(number);
        }
        make_room(&mut self.whole, &mut self.row, 6)?;
        self.row.put_small(number);
        Ok(())
    }

    /// Appends bytes, a byte, and a number in decimal digits.
    pub fn put_numbered(&mut self, bytes: &[u8], byte: u8, number: u64) -> Result<(), NoMemory>
        ensures text { OnOk result (self.new.put ≡ self.old.put ++ bytes.now ++ byte ∷ decimal number) }
        ensures front { self.new.front ≡ self.old.front }
    {
        let room = self.row.room();
        if room < 7 || room - 7 < bytes.len() || 1_000_000 <= number {
            return self.put_numbered_apart(bytes, byte, number);
        }
        self.row.put(bytes);
        self.row.push(byte);
        self.row.put_small(number);
        Ok(())
    }

    /// Appends them where the row may have no room for them.
    #[cold]
    #[inline(never)]
    fn put_numbered_apart(&mut self, bytes: &[u8], byte: u8, number: u64) -> Result<(), NoMemory>
        ensures text { OnOk result (self.new.put ≡ self.old.put ++ bytes.now ++ byte ∷ decimal number) }
        ensures front { self.new.front ≡ self.old.front }
    {
        self.put(bytes)?;
        self.push(byte)?;
        self.put_number(number)
    }

    #[cold]
    #[inline(never)]
    fn put_large(&mut self, number: u64) -> Result<(), NoMemory>
        ensures text { OnOk result (self.new.put ≡ self.old.put ++ decimal number) }
        ensures front { self.new.front ≡ self.old.front }
    {
        let mut buffer = Buffer::new();
        self.put(buffer.format(number).as_bytes())
    }
}

/// So many more bytes fit into the row.
#[inline(always)]
fn make_room(whole: &mut Vec<u8>, row: &mut Row, most: usize) -> Result<(), NoMemory>
    requires { most ≤ row_room }
    ensures room { OnOk result (length row.new + most ≤ row_room) }
    ensures same { whole.new.items ++ row.new ≡ whole.old.items ++ row.old }
    ensures front { StaysInFront whole.old.items whole.new.items }
{
    if row.room() < most {
        return empty(whole, row);
    }
    Ok(())
}

/// What stood in the row stands in the list.
#[cold]
#[inline(never)]
fn empty(whole: &mut Vec<u8>, row: &mut Row) -> Result<(), NoMemory>
    ensures room { OnOk result (row.new ≡ []) }
    ensures same { whole.new.items ++ row.new ≡ whole.old.items ++ row.old }
    ensures front { StaysInFront whole.old.items whole.new.items }
{
    put(whole, row.bytes())?;
    row.clear();
    Ok(())
}
