// What is printed of a start that ended.
ghost use Rattle.std.specs.Prelude.{◌≡◌, ◌++◌, OnOk};
ghost use Rattle.sidecar_start.specs.Ends.{number_line, word_line, config_line, end_line};

use crate::end::StartEnd;
use app_texts::ConfigError;
use itoa::Buffer;
use std::alloc::AllocError;

/// Appends a line that ends with a number.
fn push_number(text: &mut Vec<u8>, front: &[u8], n: u64) -> Result<(), AllocError>
    ensures { OnOk result (text.new.items ≡ text.old.items ++ number_line front.now n) }
{
    let mut buffer = Buffer::new();
    text.extend_from_slice(front)?;
    text.extend_from_slice(buffer.format(n).as_bytes())?;
    text.extend_from_slice(b"\n")
}

/// Appends a line that ends with a word.
fn push_word(text: &mut Vec<u8>, front: &[u8], word: &str) -> Result<(), AllocError>
    ensures { OnOk result (text.new.items ≡ text.old.items ++ word_line front.now word.now) }
{
    text.extend_from_slice(front)?;
    text.extend_from_slice(word.as_bytes())?;
    text.extend_from_slice(b"\n")
}

/// Appends the line that says why a configuration can't be taken.
fn tell_config(error: &ConfigError, text: &mut Vec<u8>) -> Result<(), AllocError>
    ensures { OnOk result (text.new.items ≡ text.old.items ++ config_line error.now) }
{
    match error {
        ConfigError::NotJson => text.extend_from_slice(b"application not-json\n"),
        ConfigError::BadKey { name } => push_word(text, b"application bad-key ", name.as_str()),
        ConfigError::TooManyTypes { n } => { push_number(text, b"application too-many-types ", *n) }
        ConfigError::OutOfMemory => Ok(()),
    }
}

/// Appends the line that is printed of the end: one for a refusal of the store and for what the application answered,
/// none for a failed dial and for want of memory.
pub fn tell_end(end: &StartEnd, text: &mut Vec<u8>) -> Result<(), AllocError>
    ensures { OnOk result (text.new.items ≡ text.old.items ++ end_line end.now) }
{
    match end {
        StartEnd::DialFault => Ok(()),
        StartEnd::StoreRefused { code } => push_number(text, b"store-refused ", u64::from(*code)),
        StartEnd::AppStatus { status } => {
            push_number(text, b"application status ", u64::from(*status))
        }
        StartEnd::AppUnreadable => text.extend_from_slice(b"application unreadable\n"),
        StartEnd::AppConfig { error } => tell_config(error, text),
        StartEnd::OutOfMemory => Ok(()),
    }
}
