// The items of a pattern.
ghost use Rattle.std.specs.Prelude.{◌+◌, ◌<◌, length, ◌≡◌, IfSome};
ghost use Rattle.luck_text.specs.Bytes.{byte_at};
ghost use Rattle.luck_pattern.specs.Reading.{set_end};
ghost use Rattle.luck_pattern.specs.Items.{repeat_of};
ghost use Rattle.lstr_item.specs.Inner.{closing_of, AtSet, AtEscape, AtFrontier, repeat_as, is_once, has_to_fit, is_greedy, repeat_read, ItemAt};

use crate::error::LuaError;

// What stands after a single: nothing, `?`, `*`, `+` or `-`.
#[derive(Clone, Copy, Debug, PartialEq, Eq)]
pub enum Repeat {
    Once,
    Optional,
    Star,
    Plus,
    Minus,
}

impl Repeat {
    // Whether a single stands without a repeat.
    pub fn is_once(self) -> bool
        ensures { result ≡ is_once (repeat_as self) }
    {
        matches!(self, Repeat::Once)
    }

    // Whether the single has to fit, without a repeat or with `+`: before `?`, `*` and `-` it is passed over.
    pub fn has_to_fit(self) -> bool
        ensures { result ≡ has_to_fit (repeat_as self) }
    {
        matches!(self, Repeat::Once | Repeat::Plus)
    }

    // Whether it takes as many bytes as it can, with `*` or `+`.
    pub fn is_greedy(self) -> bool
        ensures { result ≡ is_greedy (repeat_as self) }
    {
        matches!(self, Repeat::Star | Repeat::Plus)
    }
}

// What stands at a place of a pattern, with the place after it.
#[derive(Clone, Copy, Debug, PartialEq, Eq)]
pub enum Item {
    End,
    EndAnchor,
    Raises(LuaError),
    StartCapture(usize),
    PositionCapture(usize),
    EndCapture(usize),
    BackReference(u8, usize),
    // a single, with the place of its suffix, where its repeat may stand
    Single(usize, Repeat),
    Balance(u8, u8, usize),
    // the place of the set's `[`, and the place after the set
    Frontier(usize, usize),
}

// The closing `]` of the set whose `[` stands at `opening`: one member is taken after `[` or `[^`, even a `]`, and `%` takes one more byte.
pub fn set_end(pattern: &[u8], opening: usize) -> Option<usize>
    requires { opening < length pattern.now }
    ensures { (result ≡ closing_of (set_end pattern.now opening)) × IfSome result (λ closing. (opening < closing) × (closing < length pattern.now)) }
{
    let mut at = opening + 1;
    if at < pattern.len() {
        if pattern[at] == b'^' {
            at += 1;
        }
    }
    let first = at;
    // a member is one byte, or two from `%` on: no counted index
    while at < pattern.len() {
        match pattern[at] {
            b']' => {
                if first < at {
                    return Some(at);
                }
                at += 1;
            }
            b'%' => {
                if pattern.len() - at == 1 {
                    return None;
                }
                at += 2;
            }
            _ => at += 1,
        }
    }
    None
}

// A single, with the repeat that may stand at its suffix.
fn repeated(pattern: &[u8], suffix: usize) -> Item
    ensures { result ≡ repeat_read suffix (repeat_of (byte_at pattern.now suffix)) }
{
    if suffix < pattern.len() {
        return match pattern[suffix] {
            b'?' => Item::Single(suffix, Repeat::Optional),
            b'*' => Item::Single(suffix, Repeat::Star),
            b'+' => Item::Single(suffix, Repeat::Plus),
            b'-' => Item::Single(suffix, Repeat::Minus),
            _ => Item::Single(suffix, Repeat::Once),
        };
    }
    Item::Single(suffix, Repeat::Once)
}

// The set whose `[` stands at `at`.
fn read_set(pattern: &[u8], at: usize) -> Item
    requires { AtSet pattern.now at }
    ensures { ItemAt pattern.now at result }
{
    match set_end(pattern, at) {
        Some(closing) => repeated(pattern, closing + 1),
        None => Item::Raises(LuaError::MissingBracket),
    }
}

// The `%f` whose `%` stands at `at`.
fn read_frontier(pattern: &[u8], at: usize) -> Item
    requires { AtFrontier pattern.now at }
    ensures { ItemAt pattern.now at result }
{
    let opening = at + 2;
    if opening < pattern.len() {
        if pattern[opening] == b'[' {
            return match set_end(pattern, opening) {
                Some(closing) => Item::Frontier(opening, closing + 1),
                None => Item::Raises(LuaError::MissingBracket),
            };
        }
    }
    Item::Raises(LuaError::MissingSet)
}

// The escape whose `%` stands at `at`.
fn read_escape(pattern: &[u8], at: usize) -> Item
    requires { AtEscape pattern.now at }
    ensures { ItemAt pattern.now at result }
{
    if pattern.len() - at == 1 {
        return Item::Raises(LuaError::EndsWithPercent);
    }
    let next = at + 1;
    let escape = pattern[next];
    match escape {
        b'0'..=b'9' => Item::BackReference(escape - b'0', at + 2),
        b'b' => {
            if pattern.len() - at < 4 {
                return Item::Raises(LuaError::MissingArguments);
            }
            Item::Balance(pattern[at + 2], pattern[at + 3], at + 4)
        }
        b'f' => read_frontier(pattern, at),
        _ => repeated(pattern, at + 2),
    }
}

// The item at a place of a pattern.
pub fn read(pattern: &[u8], at: usize) -> Item
    ensures { ItemAt pattern.now at result }
{
    if pattern.len() <= at {
        return Item::End;
    }
    let next = at + 1;
    match pattern[at] {
        b'(' => {
            if next < pattern.len() {
                if pattern[next] == b')' {
                    return Item::PositionCapture(at + 2);
                }
            }
            Item::StartCapture(next)
        }
        b')' => Item::EndCapture(next),
        b'%' => read_escape(pattern, at),
        b'[' => read_set(pattern, at),
        b'$' => {
            if next == pattern.len() {
                return Item::EndAnchor;
            }
            repeated(pattern, next)
        }
        _ => repeated(pattern, next),
    }
}
