// Short names, which are kept in an array; copies take no memory. One type for all forms.
ghost use Rattle.std.specs.Prelude.{◌≡◌, None, Some, refl, bytes_eq, IfOk, OnOk};
ghost use Rattle.std.specs.Cmp.{partial_equiv_from_equiv};
ghost use Rattle.std.specs.Cmp.Lexicographic.{slice_cmp, nat_list_eq_equiv, nat_list_cmp_total, texts_ties, texts_po};
ghost use Rattle.std.specs.Ordering.{nat_cmp};
ghost use Rattle.actor_names.specs.Names.{HasForm};
ghost use Rattle.actor_names.specs.Reads.{ReadsInPlace};

use crate::error::NameError;
use crate::name::NameForm;
use std::cmp::Ordering;
use std::marker::{Model, PhantomData};

/// A form of names of at most 64 bytes.
pub trait ShortForm: NameForm + Copy {
    ghost use Rattle.std.specs.Prelude.{◌≡◌, ◌≤◌, ℕ, List, None, length};

    ghost is_short: { (text : List ℕ) → Self.fault text ≡ None → length text ≤ 64 };
}

/// A name of one form. Copies take no memory.
#[derive(Clone, Copy, Debug)]
pub struct ShortName<F: ShortForm> {
    // The bytes past `len` are 0.
    bytes: [u8; 64],
    len: usize,
    form: PhantomData<F>,
}

impl<F: ShortForm> Model for ShortName<F> {
    ghost use Rattle.std.specs.Prelude.{List, ℕ, take, length};
    ghost use Rattle.actor_names.specs.Names.{HasForm};
    ghost use Rattle.actor_names.specs.Padding.{padded, IsPadded};
    ghost use Rattle.std.proofs.Common.{length-take-le, arith, refl};

    ghost Value = { List ℕ };

    ghost view = { λ a. take a.len a.bytes };

    ghost invariant = { λ a. IsPadded a.len a.bytes × HasForm F.fault (take a.len a.bytes) };

    ghost inverse = { λ text. record { bytes = padded text; len = length text; form = record {} } };

    ghost inverse_ok = { λ a h. rw (h.0.zeros, length-take-le a.len a.bytes (omega arith)) refl };
}

impl<F: ShortForm> ShortName<F> {
    // The name with these bytes.
    pub(crate) fn from_bytes(text: &[u8]) -> ShortName<F>
        requires { F.fault text.now ≡ None }
        ensures { result ≡ text.now }
    {
        let mut bytes = [0; 64];
        bytes[..text.len()].copy_from_slice(text);
        ShortName {
            bytes,
            len: text.len(),
            form: PhantomData,
        }
    }

    // Reads a name; takes no memory.
    pub(crate) fn read(text: &[u8]) -> Result<ShortName<F>, NameError>
        ensures value { IfOk result (λ name. name ≡ text.now) }
        ensures sound { OnOk result (F.fault text.now ≡ None) }
        ensures refused { ReadsInPlace (F.fault text.now) result }
    {
        match F::fault(text) {
            Some(fault) => Err(fault),
            None => Ok(ShortName::from_bytes(text)),
        }
    }

    /// The name's bytes, which have its form.
    pub fn as_slice(&self) -> &[u8]
        ensures value { result.now ≡ self.now }
        ensures form { HasForm F.fault result.now }
    {
        &self.bytes[..self.len]
    }

    /// An equal name.
    pub fn copy(&self) -> ShortName<F>
        ensures { result ≡ self.now }
    {
        *self
    }
}

impl<F: ShortForm> PartialEq for ShortName<F> {
    ghost eq = { bytes_eq };

    ghost laws = { partial_equiv_from_equiv nat_list_eq_equiv };

    fn eq(&self, other: &ShortName<F>) -> bool {
        self.as_slice() == other.as_slice()
    }
}

impl<F: ShortForm> Eq for ShortName<F> {
    ghost laws = { nat_list_eq_equiv };
}

impl<F: ShortForm> PartialOrd for ShortName<F> {
    ghost partial_cmp = { λ a b. Some (slice_cmp nat_cmp a b) };

    ghost laws = { texts_po };

    fn partial_cmp(&self, other: &ShortName<F>) -> Option<Ordering> {
        Some(self.cmp(other))
    }
}

impl<F: ShortForm> Ord for ShortName<F> {
    ghost cmp = { slice_cmp nat_cmp };

    ghost total = { nat_list_cmp_total };

    ghost matches_partial_cmp = { λ a b. refl };

    ghost matches_eq = { texts_ties };

    fn cmp(&self, other: &ShortName<F>) -> Ordering {
        // Most keys that are compared share their space and their type, and equality is the faster test.
        if self == other {
            return Ordering::Equal;
        }
        self.as_slice().cmp(&other.as_slice())
    }
}
