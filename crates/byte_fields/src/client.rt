ghost use Rattle.std.specs.Prelude.{◌≡◌, ◌≤◌, ◌↔◌, length, IsTrue, IfSome, IfNone, Some, nat_eq, refl};
ghost use Rattle.std.specs.Ordering.{nat_cmp};
ghost use Rattle.std.specs.Cmp.{partial_equiv_from_equiv};
ghost use Rattle.std.specs.Cmp.Lexicographic.{pointwise, slice_cmp, nat_list_eq_equiv, nat_list_cmp_total, texts_po, texts_ties};
ghost use Rattle.byte_fields.specs.ClientName.{IsClientName, is_name_byte};

use std::cmp::Ordering;
use std::marker::Model;

const CLIENT_SIZE: usize = 32;

/// A client's name: 1 to 32 bytes of letters, digits, `_` and `-`. Names are in the order of their bytes.
pub struct Client {
    bytes: [u8; 32],
    len: usize,
}

impl Model for Client {
    ghost use Rattle.std.specs.Prelude.{◌≡◌, ◌≤◌, ◌-◌, ◌++◌, List, ℕ, length, take, drop, replicate};

    ghost Value = { List ℕ };

    ghost use Rattle.byte_fields.specs.ClientFields.{client_again};

    ghost view = { λ k. take k.len k.bytes };

    ghost invariant = { λ k. (k.len ≤ 32) × (length k.bytes ≡ 32) × (drop k.len k.bytes ≡ replicate (32 - k.len) 0) };

    ghost inverse = { λ v. record { bytes = v ++ replicate (32 - length v) 0; len = length v } };

    ghost inverse_ok = { client_again };
}

impl Clone for Client {
    ghost use Rattle.std.specs.Prelude.{◌≡◌, ⊤};

    ghost is_clone = { λ s r. r ≡ s };

    ghost is_infallible = { λ _. ⊤ };

    fn clone(&self) -> Result<Client, std::alloc::AllocError> {
        Ok(*self)
    }
}

impl Copy for Client {}

impl PartialEq for Client {
    ghost eq = { pointwise nat_eq };

    ghost laws = { partial_equiv_from_equiv nat_list_eq_equiv };

    fn eq(&self, other: &Client) -> bool {
        self.as_bytes() == other.as_bytes()
    }
}

impl Eq for Client {
    ghost laws = { nat_list_eq_equiv };
}

impl PartialOrd for Client {
    ghost partial_cmp = { λ x y. Some (slice_cmp nat_cmp x y) };

    ghost laws = { texts_po };

    fn partial_cmp(&self, other: &Client) -> Option<Ordering> {
        Some(self.cmp(other))
    }
}

impl Ord for Client {
    ghost cmp = { slice_cmp nat_cmp };

    ghost total = { nat_list_cmp_total };

    ghost matches_partial_cmp = { λ x y. refl };

    ghost matches_eq = { texts_ties };

    fn cmp(&self, other: &Client) -> Ordering {
        self.as_bytes().cmp(other.as_bytes())
    }
}

fn is_name_byte(byte: u8) -> bool
    ensures { result ≡ is_name_byte byte }
{
    matches!(byte, b'a'..=b'z' | b'A'..=b'Z' | b'0'..=b'9' | b'_' | b'-')
}

impl Client {
    /// The client that a text names: `None` exactly where it is no client's name.
    pub fn from_text(text: &str) -> Option<Client>
        ensures some { IfSome result (λ client. (client ≡ text.now) × IsClientName text.now) }
        ensures none { IfNone result (¬ (IsClientName text.now)) }
    {
        let text = text.as_bytes();
        if text.is_empty() || text.len() > CLIENT_SIZE {
            return None;
        }
        if !text.iter().all(|byte| is_name_byte(*byte)) {
            return None;
        }
        let mut bytes = [0u8; CLIENT_SIZE];
        bytes[..text.len()].copy_from_slice(text);
        Some(Client {
            bytes,
            len: text.len(),
        })
    }

    pub fn as_bytes(&self) -> &[u8]
        ensures { result.now ≡ self.now }
    {
        &self.bytes[..self.len]
    }

    pub fn is_same(&self, other: &Client) -> bool
        ensures { IsTrue result ↔ (self.now ≡ other.now) }
    {
        self.as_bytes() == other.as_bytes()
    }
}
