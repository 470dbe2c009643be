ghost use Rattle.std.specs.Prelude.{◌≡◌, Some, None, if◌then◌else◌, length, codes};
ghost use Rattle.std.specs.List.{list_all, list_any};
ghost use Rattle.zk_base.specs.Names.{is_name, is_spelled, is_reserved, is_name_byte, is_lower};

use std::marker::Model;

/// The longest name, in bytes.
pub const LONGEST_NAME: usize = 16;

/// The name of an object: a lower-case letter and then at most 15 lower-case letters, digits and `_`.
///
/// The words `work`, `clock`, `table`, `wait`, `again` and `nomsg` are no names, since a trace has them in places where
/// a name can stand.
#[derive(Clone, Copy, Debug)]
pub struct Name {
    // The name, then zeros.
    bytes: [u8; LONGEST_NAME],
    // How many of them are the name: one byte, so that a name takes 17.
    len: u8,
}

impl Model for Name {
    ghost use Rattle.std.specs.Prelude.{◌≡◌, ℕ, List, take, length};
    ghost use Rattle.zk_base.specs.Names.{is_name};
    ghost use Rattle.zk_base.specs.Limits.{longest_name};
    ghost use Rattle.zk_base.specs.Padded.{padded, IsPadded};
    ghost use Rattle.zk_base.specs.Padding.{padded-take, length-padded};

    ghost Value = { List ℕ };

    ghost view = { λ n. take n.len n.bytes };

    ghost invariant = { λ n. IsPadded longest_name is_name n.bytes n.len };

    ghost inverse = { λ v. record { bytes = padded longest_name v; len = length v } };

    ghost inverse_ok = { λ n held. λ i. record {
      bytes = padded-take longest_name is_name n.bytes n.len held i;
      len = length-padded longest_name is_name n.bytes n.len held i;
    } };
}

impl Name {
    /// The name that these bytes are.
    pub fn new(text: &[u8]) -> Option<Name>
        ensures { result ≡ (if is_name text.now then Some text.now else None) }
    {
        if !is_name(text) {
            return None;
        }
        let mut bytes = [0; LONGEST_NAME];
        bytes[..text.len()].copy_from_slice(text);
        Some(Name {
            bytes,
            len: text.len() as u8,
        })
    }

    /// The name as it is spelled: 1 to 16 bytes.
    pub fn bytes(&self) -> &[u8]
        ensures { result.now ≡ self.now }
    {
        &self.bytes[..self.len as usize]
    }
}

impl PartialEq for Name {
    ghost use Rattle.std.specs.Prelude.{◌==◌};
    ghost use Rattle.std.specs.Cmp.{partial_equiv_from_equiv, nat_eq_equiv};
    ghost use Rattle.std.specs.Cmp.Lexicographic.{pointwise, lists_equiv};

    ghost eq = { pointwise ◌==◌ };

    ghost laws = { partial_equiv_from_equiv (lists_equiv nat_eq_equiv) };

    fn eq(&self, other: &Name) -> bool {
        self.bytes() == other.bytes()
    }
}

impl Eq for Name {
    ghost use Rattle.std.specs.Cmp.{nat_eq_equiv};
    ghost use Rattle.std.specs.Cmp.Lexicographic.{lists_equiv};

    ghost laws = { lists_equiv nat_eq_equiv };
}

/// Whether these bytes are a name.
pub fn is_name(text: &[u8]) -> bool
    ensures { result ≡ is_name text.now }
{
    is_spelled(text) && !is_reserved(text)
}

/// Whether these bytes are spelled as a name, be it a reserved word or not.
pub fn is_spelled(text: &[u8]) -> bool
    ensures { result ≡ is_spelled text.now }
{
    match text {
        [first, rest @ ..] => is_lower(*first) && rest.len() < LONGEST_NAME && are_name_bytes(rest),
        [] => false,
    }
}

fn is_reserved(text: &[u8]) -> bool
    ensures { result ≡ is_reserved text.now }
{
    text == b"work".as_slice()
        || text == b"clock".as_slice()
        || text == b"table".as_slice()
        || text == b"wait".as_slice()
        || text == b"again".as_slice()
        || text == b"nomsg".as_slice()
}

fn are_name_bytes(text: &[u8]) -> bool
    ensures { result ≡ list_all is_name_byte text.now }
{
    text.iter().all(|b| is_name_byte(*b))
}

fn is_name_byte(byte: u8) -> bool
    ensures { result ≡ is_name_byte byte }
{
    is_lower(byte) || byte.is_ascii_digit() || byte == b'_'
}

fn is_lower(byte: u8) -> bool
    ensures { result ≡ is_lower byte }
{
    byte.is_ascii_lowercase()
}
