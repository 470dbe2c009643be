ghost use Rattle.std.specs.Prelude.{◌≡◌, Some, None, if◌then◌else◌};
ghost use Rattle.zk_base.specs.Messages.{is_message};

use std::marker::Model;

/// The longest message, in bytes.
pub const LONGEST_MESSAGE: usize = 64;

/// A message: 1 to 64 bytes, kept in place, so that it is copied without memory.
#[derive(Clone, Copy, Debug)]
pub struct Msg {
    // The message, then zeros.
    bytes: [u8; LONGEST_MESSAGE],
    // How many of them are the message: one byte, so that a message takes 65.
    len: u8,
}

impl Model for Msg {
    ghost use Rattle.std.specs.Prelude.{ℕ, List, take, length};
    ghost use Rattle.zk_base.specs.Messages.{is_message};
    ghost use Rattle.zk_base.specs.Limits.{longest_message};
    ghost use Rattle.zk_base.specs.Padded.{padded, IsPadded};
    ghost use Rattle.zk_base.specs.Padding.{padded-take, length-padded};

    ghost Value = { List ℕ };

    ghost view = { λ m. take m.len m.bytes };

    ghost invariant = { λ m. IsPadded longest_message is_message m.bytes m.len };

    ghost inverse = { λ v. record { bytes = padded longest_message v; len = length v } };

    ghost inverse_ok = { λ m held. λ i. record {
      bytes = padded-take longest_message is_message m.bytes m.len held i;
      len = length-padded longest_message is_message m.bytes m.len held i;
    } };
}

impl Msg {
    /// The message of these bytes. There is none where they are fewer than 1 or more than 64.
    pub fn new(bytes: &[u8]) -> Option<Msg>
        ensures { result ≡ (if is_message bytes.now then Some bytes.now else None) }
    {
        if !is_message(bytes) {
            return None;
        }
        let mut kept = [0; LONGEST_MESSAGE];
        kept[..bytes.len()].copy_from_slice(bytes);
        Some(Msg {
            bytes: kept,
            len: bytes.len() as u8,
        })
    }

    /// Its bytes: 1 to 64 of them.
    pub fn bytes(&self) -> &[u8]
        ensures { result.now ≡ self.now }
    {
        &self.bytes[..self.len as usize]
    }
}

impl PartialEq for Msg {
    ghost use Rattle.std.specs.Prelude.{◌==◌};
    ghost use Rattle.std.specs.Cmp.{partial_equiv_from_equiv, nat_eq_equiv};
    ghost use Rattle.std.specs.Cmp.Lexicographic.{pointwise, lists_equiv};

    ghost eq = { pointwise ◌==◌ };

    ghost laws = { partial_equiv_from_equiv (lists_equiv nat_eq_equiv) };

    fn eq(&self, other: &Msg) -> bool {
        self.bytes() == other.bytes()
    }
}

impl Eq for Msg {
    ghost use Rattle.std.specs.Cmp.{nat_eq_equiv};
    ghost use Rattle.std.specs.Cmp.Lexicographic.{lists_equiv};

    ghost laws = { lists_equiv nat_eq_equiv };
}

/// Whether so many bytes are a message.
fn is_message(bytes: &[u8]) -> bool
    ensures { result ≡ is_message bytes.now }
{
    1 <= bytes.len() && bytes.len() <= LONGEST_MESSAGE
}
