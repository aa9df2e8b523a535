// What an attempt reads and does not change, lstrlib.c's MatchState.

#[derive(Clone, Copy)]
pub struct MatchState<'a> {
    pub classes: &'a [u8; 512],
    pub subject: &'a [u8],
    pub pattern: &'a [u8],
    // the most steps that the trial may take
    pub budget: u32,
}
