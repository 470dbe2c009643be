ghost use Rattle.std.specs.Prelude.{◌<◌, length, IfSome};

use std::alloc::Global;
use zk_base::{NoMemory, put, put_decimal};
use zk_line::put_call;
use zk_scenario::{Call, Decl};
use zk_words::Pieces;

/// A text that goes on piece by piece. A write that memory refused is remembered, and told at the end.
#[derive(Drop)]
pub struct Text {
    bytes: Vec<u8>,
    refused: bool,
}

impl Text {
    pub fn new(alloc: Global) -> Text {
        Text {
            bytes: Vec::new(alloc),
            refused: false,
        }
    }

    pub fn put(&mut self, bytes: &[u8]) {
        let put = put(&mut self.bytes, bytes);
        self.remember(put);
    }

    pub fn put_number(&mut self, number: u64) {
        let put = put_decimal(&mut self.bytes, number);
        self.remember(put);
    }

    pub fn put_call(&mut self, decls: &[Decl], call: &Call) {
        let put = put_call(&mut self.bytes, decls, call);
        self.remember(put);
    }

    fn remember(&mut self, put: Result<(), NoMemory>) {
        if put.is_err() {
            self.refused = true;
        }
    }

    /// The whole text, if no write was refused.
    pub fn whole(self) -> Result<Vec<u8>, NoMemory> {
        if self.refused {
            return Err(NoMemory);
        }
        Ok(self.bytes)
    }
}

/// Words with places in braces, cut behind each place.
pub type Template = Pieces<'static, b'}'>;

/// A piece of a template: words, and the name of the place behind them. It is empty where there is none.
#[derive(Clone, Copy)]
pub struct Piece {
    pub words: &'static [u8],
    pub place: &'static [u8],
}

pub fn next_piece(template: &mut Template) -> Option<Piece>
    ensures { IfSome result (λ piece. length template.new < length template.old) }
{
    let mut halves: Pieces<'static, b'{'> = Pieces::of(template.next()?);
    Some(Piece {
        words: halves.next().unwrap_or(&[]),
        place: halves.next().unwrap_or(&[]),
    })
}
