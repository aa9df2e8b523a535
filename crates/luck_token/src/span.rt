// Spans of a source, in `u32`, which caps a source at 4 GB.
ghost use Rattle.std.specs.Prelude.{◌≡◌, min};
ghost use Rattle.luck_token.specs.Span.{u32_max, span_of, shifted_by};

#[repr(C)]
#[derive(Clone, Copy)]
pub struct Span {
    pub start: u32,
    pub end: u32,
}

// Narrows an index to an offset, saturating instead of wrapping.
fn index_to_offset(index: usize) -> u32
    ensures { result ≡ min index u32_max }
{
    u32::try_from(index).unwrap_or(u32::MAX)
}

impl Span {
    #[tactic(auto, unfolding(crate::specs::Span::span_of))]
    pub fn from_indices(start: usize, end: usize) -> Self
        ensures { result ≡ span_of start end }
    {
        Span {
            start: index_to_offset(start),
            end: index_to_offset(end),
        }
    }

    // This span moved `offset` bytes later, saturating at the 4 GB cap.
    #[tactic(auto, unfolding(crate::specs::Span::shifted_by))]
    pub fn shifted(self, offset: u32) -> Self
        ensures { result ≡ shifted_by self offset }
    {
        let start = self.start as usize + offset as usize;
        let end = self.end as usize + offset as usize;
        Span::from_indices(start, end)
    }
}
