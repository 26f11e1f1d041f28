//! Short texts that lie in the value itself.
ghost use Rattle.std.specs.Prelude.{◌≡◌, ℕ, ◌-◌, ◌≤◌, ◌++◌, Some, IsUtf8, length, drop, replicate};
ghost use Rattle.std.specs.Prelude.{refl};
ghost use Rattle.std.specs.Option.{SomeIff};
ghost use Rattle.std.specs.Ordering.{nat_cmp, eq_by_cmp};
ghost use Rattle.std.specs.Cmp.{partial_equiv_from_equiv, partial_order_from_total};
ghost use Rattle.std.specs.Cmp.{eq_by_cmp_equiv};
ghost use Rattle.std.specs.Cmp.Lexicographic.{slice_cmp, nat_list_cmp_total};

use std::cmp::Ordering;
use std::marker::Model;
use std::str;

/// At most `CAP` bytes of UTF-8, filled up with zeros. A contract sees the bytes of the text.
#[derive(Clone, Copy)]
pub struct Text<const CAP: usize> {
    bytes: [u8; CAP],
    size: usize,
}

impl<const CAP: usize> Model for Text<CAP> {
    ghost use Rattle.std.specs.Prelude.{List, ℕ, ◌≡◌, ◌-◌, ◌≤◌, ◌++◌, length, take, drop};
    ghost use Rattle.std.specs.Prelude.{replicate, IsUtf8};
    ghost use Rattle.room_types.specs.Texts.{text_back, size_back};

    ghost Value = { List ℕ };

    ghost view = { λ t. take t.size t.bytes };

    ghost invariant = { λ t. (t.size ≤ CAP) × (length t.bytes ≡ CAP) ×
        (drop t.size t.bytes ≡ replicate (CAP - t.size) 0) × ∥ IsUtf8 (take t.size t.bytes) ∥₁ };

    ghost inverse = { λ text. record {
      bytes = text ++ replicate (CAP - length text) 0;
      size = length text;
    } };

    ghost inverse_ok = { λ t h i. record {
      bytes = text_back CAP t.size t.bytes h.0 h.1 h.2 i;
      size = size_back CAP t.size t.bytes h.0 h.1 i;
    } };
}

impl<const CAP: usize> Text<CAP> {
    /// The text; none where it has more than `CAP` bytes.
    pub fn new(text: &str) -> Option<Self>
        ensures { SomeIff result (length text.now ≤ CAP) text.now }
    {
        let text = text.as_bytes();
        if text.len() > CAP {
            return None;
        }
        let mut bytes = [0; CAP];
        bytes[..text.len()].copy_from_slice(text);
        Some(Text {
            bytes,
            size: text.len(),
        })
    }

    /// The text.
    pub fn as_str(&self) -> &str
        ensures text { result.now ≡ self.now }
        ensures fits { length self.now ≤ CAP }
    {
        str::from_utf8(self.as_bytes()).unwrap()
    }

    /// The bytes of the text. Texts are compared by them.
    pub fn as_bytes(&self) -> &[u8]
        ensures bytes { result.now ≡ self.now }
        ensures fits { length self.now ≤ CAP }
        ensures utf8 { IsUtf8 self.now }
    {
        &self.bytes[..self.size]
    }
}

impl<const CAP: usize> PartialEq for Text<CAP> {
    ghost eq = { eq_by_cmp (slice_cmp nat_cmp) };

    ghost laws = { partial_equiv_from_equiv (eq_by_cmp_equiv nat_list_cmp_total) };

    fn eq(&self, other: &Self) -> bool {
        self.as_bytes() == other.as_bytes()
    }
}

impl<const CAP: usize> Eq for Text<CAP> {
    ghost laws = { eq_by_cmp_equiv nat_list_cmp_total };
}

impl<const CAP: usize> PartialOrd for Text<CAP> {
    ghost partial_cmp = { λ s t. Some (slice_cmp nat_cmp s t) };

    ghost laws = { partial_order_from_total nat_list_cmp_total };

    fn partial_cmp(&self, other: &Self) -> Option<Ordering> {
        Some(self.cmp(other))
    }
}

impl<const CAP: usize> Ord for Text<CAP> {
    ghost cmp = { slice_cmp nat_cmp };

    ghost total = { nat_list_cmp_total };

    ghost matches_partial_cmp = { λ s t. refl };

    ghost matches_eq = { λ s t. refl };

    fn cmp(&self, other: &Self) -> Ordering {
        self.as_bytes().cmp(other.as_bytes())
    }
}
