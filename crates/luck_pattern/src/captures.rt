// The captures of a pattern so far, and which of them are open.
ghost use Rattle.std.specs.Prelude.{◌<◌, ◌≤◌, ◌^◌};

// How many captures there are, and a bit for each that is open.
#[derive(Clone, Copy)]
pub struct Captures {
    count: u32,
    word: u32,
    ghost at_most_32: { count ≤ 32 },
    ghost of_the_count: { word < 2 ^ count },
}

impl Captures {
    ghost use Rattle.std.specs.Prelude.{◌≡◌, [], length};
    ghost use Rattle.luck_pattern.specs.Captures.{is_closed, all_closed, close_latest};
    ghost use Rattle.luck_pattern.specs.Inner.{flags, flags_left, open_one};

    #[tactic(auto, unfolding(crate::specs::Inner::flags_of_word))]
    pub fn none() -> Self
        ensures { flags result ≡ [] }
    {
        Captures { count: 0, word: 0 }
    }

    #[tactic(auto, using(crate::proofs::Flags::flags_length))]
    pub fn count(self) -> usize
        ensures { result ≡ length (flags self) }
    {
        self.count as usize
    }

    // With one more, the latest, unless there are as many as Lua allows.
    #[tactic(auto, using(crate::proofs::Flags::opened, crate::proofs::Flags::full))]
    pub fn opened(self) -> Option<Captures>
        ensures { flags_left result ≡ open_one (flags self) }
    {
        if 32 <= self.count {
            return None;
        }
        Some(Captures {
            count: self.count + 1,
            word: self.word + (1u32 << self.count),
        })
    }

    // After the latest open one, the highest bit, is closed.
    #[tactic(auto, using(crate::proofs::Flags::latest_closed, crate::proofs::Flags::flags_none))]
    pub fn latest_closed(self) -> Option<Captures>
        ensures { flags_left result ≡ close_latest (flags self) }
    {
        let latest = self.word.checked_ilog2()?;
        Some(Captures {
            count: self.count,
            word: self.word - (1u32 << latest),
        })
    }

    // Whether capture `digit` was seen and is closed.
    #[tactic(auto, using(crate::proofs::Flags::closings))]
    pub fn is_closed(self, digit: u32) -> bool
        ensures { result ≡ is_closed (flags self) digit }
    {
        0 < digit && digit <= self.count && (self.word >> (digit - 1)) % 2 == 0
    }

    #[tactic(auto, using(crate::proofs::Flags::flags_all))]
    pub fn none_open(self) -> bool
        ensures { result ≡ all_closed (flags self) }
    {
        self.word == 0
    }
}
