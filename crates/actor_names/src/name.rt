// Names that are kept as their bytes, one type for all forms.
ghost use Rattle.std.specs.Prelude.{◌≡◌, None, Some, refl, bytes_eq, IfOk, OnOk};
ghost use Rattle.std.specs.Cmp.{partial_equiv_from_equiv};
ghost use Rattle.std.specs.Cmp.Lexicographic.{slice_cmp, nat_list_eq_equiv, nat_list_cmp_total, texts_ties, texts_po};
ghost use Rattle.std.specs.Ordering.{nat_cmp};
ghost use Rattle.actor_names.specs.Names.{HasForm};
ghost use Rattle.actor_names.specs.Reads.{ReadsInMemory};

use crate::error::NameError;
use lists_and_limits::OutOfMemory;
use std::alloc::Global;
use std::cmp::Ordering;
use std::marker::{Model, PhantomData};

/// A form of names: which texts are names of the form.
pub trait NameForm {
    ghost use Rattle.std.specs.Prelude.{◌≡◌, ℕ, List, Option};
    ghost use Rattle.actor_names.specs.declared.error.NameError.{NameError};

    ghost fault: { List ℕ → Option NameError };

    /// Why a text isn't a name of the form; None if it is one.
    fn fault(text: &[u8]) -> Option<NameError>
        ensures { result ≡ fault text.now };
}

/// A name of one form.
#[derive(Debug, Drop)]
pub struct Name<F: NameForm> {
    bytes: Vec<u8>,
    form: PhantomData<F>,
}

impl<F: NameForm> Model for Name<F> {
    ghost use Rattle.std.specs.Prelude.{List, ℕ};
    ghost use Rattle.actor_names.specs.Names.{HasForm};

    ghost Value = { List ℕ };

    ghost view = { λ a. a.bytes.items };

    ghost invariant = { λ a. HasForm F.fault a.bytes.items };
}

impl<F: NameForm> Name<F> {
    // The name with these bytes.
    #[tactic(auto, unfolding(crate::specs::Names::HasForm))]
    pub(crate) fn from_bytes(alloc: Global, bytes: &[u8]) -> Result<Name<F>, OutOfMemory>
        requires { F.fault bytes.now ≡ None }
        ensures { IfOk result (λ name. name ≡ bytes.now) }
    {
        match Vec::from_slice(alloc, bytes) {
            Ok(bytes) => Ok(Name {
                bytes,
                form: PhantomData,
            }),
            Err(_) => Err(OutOfMemory),
        }
    }

    // Reads a name. A fault is reported before any memory is allocated.
    pub(crate) fn read(alloc: Global, text: &[u8]) -> Result<Name<F>, NameError>
        ensures value { IfOk result (λ name. name ≡ text.now) }
        ensures sound { OnOk result (F.fault text.now ≡ None) }
        ensures refused { ReadsInMemory (F.fault text.now) result }
    {
        match F::fault(text) {
            Some(fault) => Err(fault),
            None => Ok(Name::from_bytes(alloc, text)?),
        }
    }

    /// The name's bytes, which have its form.
    pub fn as_slice(&self) -> &[u8]
        ensures value { result.now ≡ self.now }
        ensures form { HasForm F.fault result.now }
    {
        self.bytes.as_slice()
    }

    /// An equal name.
    #[tactic(auto, unfolding(crate::specs::Names::HasForm))]
    pub fn copy(&self, alloc: Global) -> Result<Name<F>, OutOfMemory>
        ensures { IfOk result (λ copy. copy ≡ self.now) }
    {
        Name::from_bytes(alloc, self.as_slice())
    }
}

impl<F: NameForm> PartialEq for Name<F> {
    ghost eq = { bytes_eq };

    ghost laws = { partial_equiv_from_equiv nat_list_eq_equiv };

    fn eq(&self, other: &Name<F>) -> bool {
        self.as_slice() == other.as_slice()
    }
}

impl<F: NameForm> Eq for Name<F> {
    ghost laws = { nat_list_eq_equiv };
}

impl<F: NameForm> PartialOrd for Name<F> {
    ghost partial_cmp = { λ a b. Some (slice_cmp nat_cmp a b) };

    ghost laws = { texts_po };

    fn partial_cmp(&self, other: &Name<F>) -> Option<Ordering> {
        Some(self.cmp(other))
    }
}

impl<F: NameForm> Ord for Name<F> {
    ghost cmp = { slice_cmp nat_cmp };

    ghost total = { nat_list_cmp_total };

    ghost matches_partial_cmp = { λ a b. refl };

    ghost matches_eq = { texts_ties };

    fn cmp(&self, other: &Name<F>) -> Ordering {
        // Most keys that are compared share their space and their type, and equality is the faster test.
        if self == other {
            return Ordering::Equal;
        }
        self.as_slice().cmp(&other.as_slice())
    }
}
