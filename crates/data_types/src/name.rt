//! A text that contracts see as its bytes.

ghost use Rattle.std.specs.Prelude.{◌≡◌, ◌<◌, ◌==◌, refl, Some, [], ◌∷◌, ◌++◌, OnOk, OnErr, IfOk, length, slice_get, nat_eq, string_bytes};
ghost use Rattle.std.specs.Cmp.Lexicographic.{pointwise, slice_cmp, nat_list_eq_equiv, nat_list_cmp_total, texts_ties, texts_po};
ghost use Rattle.std.specs.Cmp.{partial_equiv_from_equiv};
ghost use Rattle.std.specs.Ordering.{nat_cmp};

use std::alloc::{AllocError, Global};
use std::cmp::Ordering;
use std::hash::{Hash, Hasher};
use std::marker::Model;
use std::rc::Rc;

/// A text that contracts see as its bytes. Copies share what they hold.
#[derive(Debug, Drop)]
pub struct Name {
    alloc: Global,
    // `None` for the empty text, which takes no memory.
    text: Option<Rc<String>>,
}

impl Model for Name {
    ghost use Rattle.std.specs.Prelude.{List, ℕ};
    ghost use Rattle.data_types.specs.Shared.{shared_bytes};

    ghost Value = { List ℕ };

    ghost view = { λ n. shared_bytes n.text };
}

impl Name {
    /// The empty text. It takes no memory until something is pushed.
    pub fn new(alloc: Global) -> Self
        ensures { result ≡ [] }
    {
        Name { alloc, text: None }
    }

    /// A name of a copy of this text.
    pub fn from_text(alloc: Global, text: &str) -> Result<Self, AllocError>
        ensures { IfOk result (λ n. n ≡ text.now) }
    {
        if text.is_empty() {
            return Ok(Name::new(alloc));
        }
        Name::from_string(alloc, String::from_str(alloc, text)?)
    }

    /// A name of what the text has, whose bytes are not copied.
    pub fn from_string(alloc: Global, text: String) -> Result<Self, AllocError>
        ensures { IfOk result (λ n. n ≡ string_bytes text) }
    {
        let text = Some(Rc::new(alloc, text)?);
        Ok(Name { alloc, text })
    }

    pub fn as_str(&self) -> &str
        ensures { result.now ≡ self.now }
    {
        match &self.text {
            Some(text) => text.as_ref().as_str(),
            None => "",
        }
    }

    /// The number of bytes.
    pub fn len(&self) -> usize
        ensures { result ≡ length self.now }
    {
        self.as_str().len()
    }

    pub fn is_empty(&self) -> bool
        ensures { result ≡ (length self.now == 0) }
    {
        self.as_str().is_empty()
    }

    /// The byte at an index, from 0.
    pub fn at(&self, index: usize) -> u8
        requires { index < length self.now }
        ensures { slice_get self.now index ≡ Some result }
    {
        self.as_slice()[index]
    }

    /// The bytes of the text.
    pub fn as_slice(&self) -> &[u8]
        ensures { result.now ≡ self.now }
    {
        self.as_str().as_bytes()
    }

    /// Adds a text at the end.
    pub fn push_str(&mut self, text: &str) -> Result<(), AllocError>
        ensures ok { OnOk result (self.new ≡ self.old ++ text.now) }
        ensures err { OnErr result (self.new ≡ self.old) }
    {
        match &mut self.text {
            Some(shared) => Rc::make_mut(shared)?.push_str(text),
            None => {
                let own = Name::from_text(self.alloc, text)?;
                self.text = own.text;
                Ok(())
            }
        }
    }

    /// An equal name that shares the bytes of this one.
    pub fn copy(&self) -> Result<Name, AllocError>
        ensures { IfOk result (λ n. n ≡ self.now) }
    {
        let text = match &self.text {
            Some(text) => Some(text.clone()?),
            None => None,
        };
        Ok(Name {
            alloc: self.alloc,
            text,
        })
    }
}

impl PartialEq for Name {
    ghost eq = { λ x y. pointwise nat_eq x y };

    ghost laws = { partial_equiv_from_equiv nat_list_eq_equiv };

    fn eq(&self, other: &Self) -> bool {
        self.as_str() == other.as_str()
    }
}

impl Eq for Name {
    ghost laws = { nat_list_eq_equiv };
}

impl PartialOrd for Name {
    ghost partial_cmp = { λ x y. Some (slice_cmp nat_cmp x y) };

    ghost laws = { texts_po };

    fn partial_cmp(&self, other: &Self) -> Option<Ordering> {
        Some(self.cmp(other))
    }
}

/// By bytes; a proper prefix comes first.
impl Ord for Name {
    ghost cmp = { λ x y. slice_cmp nat_cmp x y };

    ghost total = { nat_list_cmp_total };

    ghost matches_partial_cmp = { λ x y. refl };

    ghost matches_eq = { λ x y. texts_ties x y };

    fn cmp(&self, other: &Self) -> Ordering {
        self.as_str().cmp(other.as_str())
    }
}

impl Hash for Name {
    ghost use Rattle.std.specs.Hash as fed;
    ghost use Rattle.std.specs.Cmp.Rules.{hashing};
    ghost use Rattle.std.proofs.Common.{rules};

    ghost hash_input = { λ s. fed.str s };

    ghost respects_eq = { Prim.search (hashing, rules) };

    fn hash<H: Hasher>(&self, state: &mut H) {
        self.as_str().hash(state);
    }
}
