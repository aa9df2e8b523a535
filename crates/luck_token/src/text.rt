// What is tested of a text before it is read: its version, and that it is UTF-8.
ghost use Rattle.std.specs.Prelude.{◌≡◌};
ghost use Rattle.luck_token.specs.Text.{read_text};

use crate::version::{LuaVersion, Rules, UnknownVersion};
use luck_utf8::utf8;
use luck_utf8::utf8::IllFormed;

#[derive(Clone, Copy, Debug, PartialEq, Eq)]
pub enum TextError {
    UnknownVersion,
    // the place of the first ill-formed sequence
    NotUtf8(usize),
}

impl From<UnknownVersion> for TextError {
    ghost use Rattle.luck_token.specs.declared.text.TextError.TheVariants as error;

    ghost from_gives = { λ _ e. e ≡ error.UnknownVersion };

    fn from(_unknown: UnknownVersion) -> Self {
        TextError::UnknownVersion
    }
}

impl From<IllFormed> for TextError {
    ghost use Rattle.luck_token.specs.declared.text.TextError.TheVariants as error;

    ghost from_gives = { λ ill_formed e. e ≡ error.NotUtf8 ill_formed.at };

    fn from(ill_formed: IllFormed) -> Self {
        TextError::NotUtf8(ill_formed.at)
    }
}

// The rules of the version, for a text that is UTF-8.
pub fn read_text(version: u32, text: &[u8]) -> Result<Rules, TextError>
    ensures { result ≡ read_text version text.now }
{
    let version = LuaVersion::try_from(version)?;
    utf8::validate(text)?;
    Ok(version.rules())
}
