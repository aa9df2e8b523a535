// The answer of decoding.
ghost use Rattle.std.specs.Prelude.{◌≡◌};
ghost use Rattle.luck_token.specs.Decode.{decoding};
ghost use Rattle.luck_structs.specs.Answers.{decoded_answer};

use luck_token::string::DecodeError;
use luck_token::text::TextError;

// luck_decoded
#[repr(C)]
#[derive(Clone, Copy, Debug, PartialEq, Eq)]
pub struct Decoded {
    pub number: u32,
    pub offset: usize,
    pub written: usize,
}

impl From<Result<usize, DecodeError>> for Decoded {
    ghost use Rattle.luck_token.specs.Decode.{numbered};
    ghost use Rattle.luck_structs.specs.Answers.{decoded_answer};

    ghost from_gives = { λ decoded d. decoded_answer d ≡ numbered decoded };

    #[tactic(auto, unfolding(luck_token::specs::Decode::numbered))]
    fn from(decoded: Result<usize, DecodeError>) -> Self {
        match decoded {
            Ok(written) => Decoded {
                number: 0,
                offset: 0,
                written,
            },
            Err(DecodeError::Text(TextError::UnknownVersion)) => refused(25, 0),
            Err(DecodeError::Text(TextError::NotUtf8(place))) => refused(23, place),
            Err(DecodeError::Undecodable) => refused(24, 0),
            Err(DecodeError::OutputTooShort) => refused(26, 0),
        }
    }
}

// A refused text has no value.
fn refused(number: u32, offset: usize) -> Decoded
    ensures { decoded_answer result ≡ decoding number offset 0 }
{
    Decoded {
        number,
        offset,
        written: 0,
    }
}
