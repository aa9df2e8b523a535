// Versions, by their numbers: 1 to 5 are Lua 5.1 to 5.5, 6 is Luau. The rules by version are one constant table.
ghost use Rattle.std.specs.Prelude.{◌≡◌};
ghost use Rattle.luck_token.specs.Version.{is_version, rules_of};
ghost use Rattle.luck_token.specs.Versions.{number_of, IsVersionOf};

// A row of the table, one entry per rule, by luck's names without `has_`.
#[repr(C)]
#[derive(Clone, Copy, Default)]
pub struct Rules {
    pub strict_escapes: bool,
    // `\x` and, with luck's has_whitespace_escape, `\z`
    pub hex_escape: bool,
    pub unicode_escape: bool,
    pub lfcr_line_break: bool,
    pub extended_unicode_escape: bool,
    pub unicode_escape_digit_limit: bool,
    pub hex_float_format: bool,
    // and has_pointer_format
    pub checked_format_modifiers: bool,
    pub star_format: bool,
    // and has_checked_date_format
    pub strict_gsub_replacement: bool,
    pub date_format_options: bool,
}

// luck's LuaVersion.
#[derive(Clone, Copy, Debug, PartialEq, Eq)]
pub enum LuaVersion {
    Lua51,
    Lua52,
    Lua53,
    Lua54,
    Lua55,
    Luau,
}

// A number that is no version's.
#[derive(Clone, Copy, Debug, PartialEq, Eq)]
pub struct UnknownVersion;

impl TryFrom<u32> for LuaVersion {
    type Error = UnknownVersion;

    ghost try_from_gives = { IsVersionOf };

    #[tactic(auto, unfolding(crate::specs::Version::is_version))]
    fn try_from(number: u32) -> Result<Self, UnknownVersion> {
        match number {
            1 => Ok(LuaVersion::Lua51),
            2 => Ok(LuaVersion::Lua52),
            3 => Ok(LuaVersion::Lua53),
            4 => Ok(LuaVersion::Lua54),
            5 => Ok(LuaVersion::Lua55),
            6 => Ok(LuaVersion::Luau),
            _ => Err(UnknownVersion),
        }
    }
}

// One row per version.
const RULES: [Rules; 6] = [
    Rules {
        strict_escapes: false,
        hex_escape: false,
        unicode_escape: false,
        lfcr_line_break: true,
        extended_unicode_escape: false,
        unicode_escape_digit_limit: false,
        hex_float_format: false,
        checked_format_modifiers: false,
        star_format: false,
        strict_gsub_replacement: false,
        date_format_options: false,
    },
    Rules {
        strict_escapes: true,
        hex_escape: true,
        unicode_escape: false,
        lfcr_line_break: true,
        extended_unicode_escape: false,
        unicode_escape_digit_limit: false,
        hex_float_format: true,
        checked_format_modifiers: false,
        star_format: false,
        strict_gsub_replacement: true,
        date_format_options: true,
    },
    Rules {
        strict_escapes: true,
        hex_escape: true,
        unicode_escape: true,
        lfcr_line_break: true,
        extended_unicode_escape: false,
        unicode_escape_digit_limit: false,
        hex_float_format: true,
        checked_format_modifiers: false,
        star_format: false,
        strict_gsub_replacement: true,
        date_format_options: true,
    },
    Rules {
        strict_escapes: true,
        hex_escape: true,
        unicode_escape: true,
        lfcr_line_break: true,
        extended_unicode_escape: true,
        unicode_escape_digit_limit: false,
        hex_float_format: true,
        checked_format_modifiers: true,
        star_format: false,
        strict_gsub_replacement: true,
        date_format_options: true,
    },
    Rules {
        strict_escapes: true,
        hex_escape: true,
        unicode_escape: true,
        lfcr_line_break: true,
        extended_unicode_escape: true,
        unicode_escape_digit_limit: false,
        hex_float_format: true,
        checked_format_modifiers: true,
        star_format: false,
        strict_gsub_replacement: true,
        date_format_options: true,
    },
    Rules {
        strict_escapes: false,
        hex_escape: true,
        unicode_escape: true,
        lfcr_line_break: false,
        extended_unicode_escape: false,
        unicode_escape_digit_limit: true,
        hex_float_format: false,
        checked_format_modifiers: false,
        star_format: true,
        strict_gsub_replacement: true,
        date_format_options: false,
    },
];

impl LuaVersion {
    // The row of a version, read once by each entry. An index that is known when this is compiled makes the row a constant:
    // with one that is not, the whole table would be built at each call.
    #[tactic(auto, unfolding(crate::specs::Version::is_version, crate::specs::Version::versions, crate::specs::Version::has, crate::specs::Version::rules_of, luck_text::specs::Bytes::among))]
    pub fn rules(self) -> Rules
        ensures { result ≡ rules_of (number_of self) }
    {
        match self {
            LuaVersion::Lua51 => RULES[0],
            LuaVersion::Lua52 => RULES[1],
            LuaVersion::Lua53 => RULES[2],
            LuaVersion::Lua54 => RULES[3],
            LuaVersion::Lua55 => RULES[4],
            LuaVersion::Luau => RULES[5],
        }
    }
}

pub fn is_version(version: u32) -> bool
    ensures { result ≡ is_version version }
{
    LuaVersion::try_from(version).is_ok()
}

// The rules by number, as C asks for them. A number that is no version has none of them.
#[tactic(auto, unfolding(crate::specs::Version::has, crate::specs::Version::rules_of))]
pub fn rules_of(version: u32) -> Rules
    ensures { result ≡ rules_of version }
{
    match LuaVersion::try_from(version) {
        Ok(version) => version.rules(),
        Err(UnknownVersion) => Rules::default(),
    }
}
