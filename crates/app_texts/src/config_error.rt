// Why a configuration can't be taken.
ghost use Rattle.std.specs.Prelude.{◌≡◌};
ghost use Rattle.app_texts.specs.Answers.{Names};

use crate::config_key::ConfigKey;
use std::alloc::Global;
use std::fmt;
use std::marker::Model;
use thiserror::Error;

/// The name of a key; contracts see its bytes.
#[derive(Debug, Drop)]
pub struct KeyText {
    text: String,
}

impl Model for KeyText {
    ghost use Rattle.std.specs.Prelude.{List, ℕ};
    ghost use Rattle.std.specs.String.{string_bytes};

    ghost Value = { List ℕ };

    ghost view = { λ a. string_bytes a.text };
}

impl KeyText {
    ghost use Rattle.std.specs.String.{string_bytes};

    /// The name that this string is. It takes no memory.
    pub fn from_string(text: String) -> KeyText
        ensures { result ≡ string_bytes text }
    {
        KeyText { text }
    }

    /// The name.
    pub fn as_str(&self) -> &str
        ensures { result.now ≡ self.now }
    {
        self.text.as_str()
    }

    /// The string. It takes no memory.
    pub fn into_string(self) -> String
        ensures { string_bytes result ≡ self }
    {
        let KeyText { text } = self;
        text
    }
}

impl fmt::Display for KeyText {
    fn fmt<W: fmt::Write>(&self, f: &mut fmt::Formatter<W>) -> fmt::Result {
        let text = self.text.as_str();
        write!(f, "{text}")
    }
}

/// Why a configuration can't be taken, in the order in which it is tested.
#[derive(Debug, Drop, Error)]
pub enum ConfigError {
    /// The body isn't a JSON object.
    #[error("no JSON object")]
    NotJson,
    /// The value under this key has another form than the key wants.
    #[error("bad value under {name}")]
    BadKey { name: KeyText },
    /// There are `n` different types, more than 32.
    #[error("{n} types")]
    TooManyTypes { n: u64 },
    /// There was no memory for the answer.
    #[error("out of memory")]
    OutOfMemory,
}

// Why a value can't be taken: it hasn't the form that this key wants, or there was no memory for it.
#[derive(Clone, Copy)]
pub(crate) enum KeyFault {
    Form(ConfigKey),
    Memory,
}

// The error with the key's name.
pub(crate) fn config_error(alloc: Global, fault: KeyFault) -> ConfigError
    ensures { Names fault result }
{
    match fault {
        KeyFault::Memory => ConfigError::OutOfMemory,
        KeyFault::Form(key) => bad_key(alloc, key),
    }
}

// The error that names this key.
fn bad_key(alloc: Global, key: ConfigKey) -> ConfigError
    ensures { Names (KeyFault.Form key) result }
{
    match String::from_str(alloc, key.name()) {
        Ok(text) => ConfigError::BadKey {
            name: KeyText::from_string(text),
        },
        Err(_) => ConfigError::OutOfMemory,
    }
}
