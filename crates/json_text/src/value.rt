// Values, and look-ups in them.
ghost use Rattle.std.specs.Prelude.{◌≡◌, ◌≤◌, false, is_some, option_map, IfOk, Err};
ghost use Rattle.json_text.specs.Reading.{Reads, HasNoReading};
ghost use Rattle.json_text.specs.Texts.{text_of};
ghost use Rattle.json_text.specs.Values.{count_in, has_other_number, integer_in, is_array, is_null, is_object, item_at, member_at, natural_in, text_in, truth_in};
ghost use Rattle.json_text.specs.declared.error.JsonError.TheVariants.{NotJson};

use crate::error::JsonError;
use crate::other_number::any_float;
use serde_json::Value;
use std::alloc::{AllocError, Global};
use std::marker::Model;

/// A value, which owns its memory.
#[derive(Drop)]
pub struct Json {
    value: Value,
}

/// A value inside a `Json`.
#[derive(Drop)]
pub struct JsonRef<'a> {
    value: &'a Value,
}

impl Model for Json {
    ghost use Rattle.json_text.specs.Values.{JsonValue};
    ghost use Rattle.json_text.specs.Codes.{value_code};

    ghost Value = { JsonValue };

    ghost coded = { value_code };

    ghost use Rattle.json_text.specs.Views.{value_of, IsShallow};

    ghost view = { λ a. value_of a.value };

    ghost invariant = { λ a. IsShallow a.value };
}

impl<'a> Model for JsonRef<'a> {
    ghost use Rattle.json_text.specs.Values.{JsonValue};
    ghost use Rattle.json_text.specs.Codes.{value_code};

    ghost Value = { JsonValue };

    ghost coded = { value_code };

    ghost use Rattle.json_text.specs.Views.{value_of, IsShallow};

    ghost view = { λ a. value_of a.value.now };

    ghost invariant = { λ a. IsShallow a.value.now };
}

impl Json {
    /// Reads a body, which may have white space around its value. The value takes up to about twenty-five times the
    /// body's length in memory as long as it lives.
    pub fn read(alloc: Global, body: &[u8]) -> Result<Json, JsonError>
        ensures read { IfOk result (λ v. Reads body.now v) }
        ensures refused { result ≡ Err NotJson → HasNoReading body.now }
    {
        match Value::from_slice(alloc, body) {
            Ok(value) => Ok(Json { value }),
            Err(error) => {
                if error.is_memory() {
                    Err(JsonError::OutOfMemory)
                } else {
                    Err(JsonError::NotJson)
                }
            }
        }
    }

    /// The value, for look-ups.
    pub fn as_ref(&self) -> JsonRef<'_>
        ensures { result ≡ self.now }
    {
        JsonRef { value: &self.value }
    }
}

impl<'a> JsonRef<'a> {
    /// Whether it is null.
    #[tactic(auto, using(crate::proofs::Found::null_found))]
    pub fn is_null(&self) -> bool
        ensures { result ≡ is_null self.now }
    {
        self.value.is_null()
    }

    /// Whether it is an array.
    #[tactic(auto, using(crate::proofs::Found::array_found))]
    pub fn is_array(&self) -> bool
        ensures { result ≡ is_array self.now }
    {
        self.value.is_array()
    }

    /// Whether it is an object.
    #[tactic(auto, using(crate::proofs::Found::object_found))]
    pub fn is_object(&self) -> bool
        ensures { result ≡ is_object self.now }
    {
        self.value.is_object()
    }

    /// Its truth value; `None` if it isn't one.
    #[tactic(auto, using(crate::proofs::Found::truth_found))]
    pub fn as_bool(&self) -> Option<bool>
        ensures { result ≡ truth_in self.now }
    {
        self.value.as_bool()
    }

    /// Its text, without escapes; `None` if it isn't a text.
    #[tactic(auto, using(crate::proofs::Found::text_found))]
    pub fn as_str(&self) -> Option<&'a str>
        ensures { option_map (λ s. s.now) result ≡ text_in self.now }
    {
        self.value.as_str()
    }

    /// Its number, if that is an integer from 0 to 2^64 - 1.
    #[tactic(auto, using(crate::proofs::Found::natural_found))]
    pub fn as_u64(&self) -> Option<u64>
        ensures { result ≡ natural_in self.now }
    {
        self.value.as_u64()
    }

    /// Its number, if that is an integer from -2^63 to 2^63 - 1.
    #[tactic(auto, using(crate::proofs::Found::integer_found))]
    pub fn as_i64(&self) -> Option<i64>
        ensures { result ≡ integer_in self.now }
    {
        self.value.as_i64()
    }

    /// How many items it has, if it is an array.
    pub fn item_count(&self) -> Option<usize>
        ensures { result ≡ count_in self.now }
    {
        match self.value.as_array() {
            Some(items) => Some(items.len()),
            None => None,
        }
    }

    /// The item at an index, counted from 0, if it is an array that has one there.
    pub fn item(&self, index: usize) -> Option<JsonRef<'a>>
        ensures { result ≡ item_at index self.now }
    {
        match self.value.get(index) {
            Some(value) => Some(JsonRef { value }),
            None => None,
        }
    }

    /// The value of the member with this key, if it is an object that has one.
    pub fn member(&self, key: &str) -> Option<JsonRef<'a>>
        ensures { result ≡ member_at key.now self.now }
    {
        match self.value.get(key) {
            Some(value) => Some(JsonRef { value }),
            None => None,
        }
    }

    /// Whether some number in it, however deep, is neither an `i64` nor a `u64`.
    #[tactic(auto, using(crate::proofs::Found::float_found))]
    pub fn has_other_number(&self) -> bool
        ensures { result ≡ has_other_number self.now }
    {
        any_float(self.value)
    }

    /// Its text without white space, with members in byte order of key.
    pub fn to_text(&self, alloc: Global) -> Result<Vec<u8>, AllocError>
        requires { has_other_number self.now ≡ false }
        ensures text { IfOk result (λ b. b.items ≡ text_of self.now) }
        ensures reads_back { IfOk result (λ b. Reads b.items self.now) }
    {
        let bytes = self.value.to_vec(alloc)?;
        Ok(bytes)
    }
}
