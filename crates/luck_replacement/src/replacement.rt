// The check of a gsub replacement.
ghost use Rattle.std.specs.Prelude.{◌≡◌};
ghost use Rattle.luck_answer.specs.Answer.{walked_of, answer_of};
ghost use Rattle.luck_replacement.specs.Replacement.{pieces, pieces_walk, check_replacement};
ghost use Rattle.luck_replacement.specs.Limit.{as_count};

use crate::limit::Limit;
use luck_answer::format_pattern::{CheckError, PatternError};
use luck_text::blocks;
use luck_text::scan::{Class, Digit};
use luck_token::text;

// So many plain bytes are looked at one by one before whole blocks of them are.
const RUN: usize = 32;

// The walk over the pieces. `run` is where the plain bytes begin that were looked at one by one.
#[tactic(auto, using(crate::proofs::Replacements::turns))]
fn scan_pieces(text: &[u8], limit: Limit, is_strict: bool) -> Result<usize, PatternError>
    ensures { walked_of result ≡ pieces_walk is_strict (as_count limit) (pieces text.now) 0 }
{
    let mut at = 0;
    let mut run = 0;
    // A turn passes over a byte, an escape or blocks.
    while at < text.len() {
        if text[at] != b'%' {
            if at - run == RUN {
                at = blocks::blocks_end(text, at, b'%');
                run = at;
                continue;
            }
            at += 1;
            continue;
        }
        if text.len() - at == 1 {
            if is_strict {
                return Err(PatternError::LonePercent { offset: at });
            }
            return Ok(0);
        }
        let next = at + 1;
        let escaped = text[next];
        if limit.is_refused(escaped, is_strict) {
            if Digit.has(escaped) {
                return Err(PatternError::CaptureIndexOutOfRange { offset: next });
            }
            return Err(PatternError::BadReplacementEscape { offset: next });
        }
        at += 2;
        run = at;
    }
    Ok(0)
}

// The walk over a text that is UTF-8. Where nothing can be refused, it reads no byte.
pub fn scan_replacement(
    text: &[u8],
    captures: Option<usize>,
    is_strict: bool,
) -> Result<usize, PatternError>
    ensures { walked_of result ≡ pieces_walk is_strict captures (pieces text.now) 0 }
{
    let limit = Limit::of(captures);
    if limit.can_refuse(is_strict) {
        return scan_pieces(text, limit, is_strict);
    }
    Ok(0)
}

#[tactic(auto, using(luck_answer::proofs::Texts::checks), unfolding(crate::specs::Replacement::check_replacement))]
pub fn validate_gsub_replacement(
    version: u32,
    captures: Option<usize>,
    text: &[u8],
) -> Result<usize, CheckError>
    ensures { answer_of result ≡ check_replacement version captures text.now }
{
    let rules = text::read_text(version, text)?;
    Ok(scan_replacement(text, captures, rules.strict_gsub_replacement)?)
}
