//! The errors of a body: each key that breaks a rule, with one message. They ascend by key.
ghost use Rattle.std.specs.Prelude.{◌≡◌, ◌↔◌, [], IfOk, IsTrue, OnOk, OnErr};
ghost use Rattle.portal_base.specs.KeyErrors.{has_error, with_error, error_if, with_errors};
ghost use Rattle.portal_base.specs.KeyErrors.{kind_message, read_value, found_value};
ghost use Rattle.portal_base.specs.Kinds.{short_text_at};
ghost use Rattle.std.specs.Option.{option_copied};

use crate::json_value::Json;
use crate::kinds::{KindFault, short_text_at};
use crate::ordered::{Ordered, insert};
use crate::seq::Seq;
use crate::text::Text;
use std::alloc::{AllocError, Global};
use std::cmp::Ordering;
use std::marker::Model;

/// The errors of a body. Each key that breaks a rule has one message, that of the first rule that it breaks. A contract
/// sees the list of keys and messages, which ascends by the bytes of the keys.
#[derive(Drop)]
pub struct KeyErrors {
    errors: Vec<(Text, Text)>,
}

impl Model for KeyErrors {
    ghost use Rattle.std.specs.Prelude.{List};
    ghost use Rattle.portal_base.specs.KeyErrors.{KeyError, key_error_cmp};
    ghost use Rattle.portal_base.specs.Ordered.{IsAscending};

    ghost Value = { List KeyError };

    ghost view = { λ f. f.errors.items };

    ghost invariant = { λ f. IsAscending key_error_cmp f.errors.items };
}

impl Ordered for (Text, Text) {
    ghost use Rattle.portal_base.specs.KeyErrors.{key_error_cmp, key_error_cmp_total};

    ghost order = { key_error_cmp };

    ghost total = { key_error_cmp_total };

    /// The order by the first text.
    fn compare(&self, other: &(Text, Text)) -> Ordering {
        self.0.cmp(&other.0)
    }
}

impl KeyErrors {
    ghost use Rattle.portal_base.specs.KeyErrors.{key_error_cmp};
    ghost use Rattle.portal_base.specs.Ordered.{IsAscending};

    /// No error yet. It takes no memory.
    pub fn new(alloc: Global) -> KeyErrors
        ensures { result ≡ [] }
    {
        KeyErrors {
            errors: Vec::new(alloc),
        }
    }

    pub fn is_empty(&self) -> bool
        ensures { IsTrue result ↔ (self.now ≡ []) }
    {
        self.errors.is_empty()
    }

    /// Adds the error of a key, unless the key has one. If memory runs out nothing changes.
    pub fn add_error(&mut self, key: Text, message: Text) -> Result<(), AllocError>
        ensures ok { OnOk result (self.new ≡ with_error key message self.old) }
        ensures err { OnErr result (self.new ≡ self.old) }
    {
        if has_error(self.errors.as_slice(), key.as_str()) {
            return Ok(());
        }
        insert(&mut self.errors, (key, message))?;
        Ok(())
    }

    /// Returns the value that was read, or adds the error of its key and returns none. If memory runs out nothing
    /// changes.
    pub fn check<T: Drop>(
        &mut self,
        alloc: Global,
        key: &'static str,
        read: Result<T, KindFault>,
    ) -> Result<Option<T>, AllocError>
        ensures value { IfOk result (λ found. found ≡ read_value read) }
        ensures ok { OnOk result (self.new ≡ error_if key.now (kind_message read) self.old) }
        ensures err { OnErr result (self.new ≡ self.old) }
    {
        match read {
            Ok(value) => Ok(Some(value)),
            Err(fault) => {
                let message = fault.message(alloc)?;
                self.add_error(Text::from_static(key), message)?;
                Ok(None)
            }
        }
    }

    /// Reads the text of a key, of at most `longest` bytes of UTF-8. The result is none if the key is absent, or if it
    /// breaks a rule: then its error is added. If memory runs out nothing changes.
    pub fn short_text<'a>(
        &mut self,
        alloc: Global,
        body: &'a Json,
        key: &'static str,
        longest: usize,
    ) -> Result<Option<&'a Text>, AllocError>
        ensures text { IfOk result (λ text. option_copied text
            ≡ found_value (short_text_at longest key.now body.now)) }
        ensures ok { OnOk result
            (self.new ≡ error_if key.now (kind_message (short_text_at longest key.now body.now)) self.old) }
        ensures err { OnErr result (self.new ≡ self.old) }
    {
        match short_text_at(body, key, longest) {
            Ok(text) => Ok(text),
            Err(fault) => {
                let message = fault.message(alloc)?;
                self.add_error(Text::from_static(key), message)?;
                Ok(None)
            }
        }
    }

    /// Adds these errors in order. If memory runs out some of them may have been added.
    pub fn add_errors(&mut self, errors: Seq<(Text, Text)>) -> Result<(), AllocError>
        ensures { OnOk result (self.new ≡ with_errors errors self.old) }
    {
        for (key, message) in errors.into_vec() {
            self.add_error(key, message)?;
        }
        Ok(())
    }

    /// The errors, by key.
    pub fn into_list(self) -> Seq<(Text, Text)>
        ensures same { result ≡ self }
        ensures by_key { IsAscending key_error_cmp result }
    {
        Seq::from(self.errors)
    }
}

/// Whether the key has an error.
fn has_error(errors: &[(Text, Text)], key: &str) -> bool
    ensures { result ≡ has_error key.now errors.now }
{
    errors.iter().any(|error| error.0.as_str() == key)
}
