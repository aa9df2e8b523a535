// The trial of gsub.
ghost use Rattle.std.specs.Prelude.{◌≡◌, [], ◌≤◌, length};
ghost use Rattle.luck_pattern.specs.Items.{items};
ghost use Rattle.lstr_item.specs.Match.{match};
ghost use Rattle.lstr_gsub.specs.Gsub.{output_after, report, report_of, anchored_round, rounds, gsub};
ghost use Rattle.lstr_class.specs.Inner.{class_in};
ghost use Rattle.lstr_gsub.specs.Inner.{writer_by, Reported};

use lstr_attempt::{attempt, lead};
use lstr_class::class;
use lstr_item::capture::Pair;
use lstr_item::state::MatchState;
use lstr_match::outcome;
use lstr_match::outcome::Ending;
use lstr_write::matched::Match;
use lstr_write::replace;
use lstr_write::stop::Stopped;
use luck_token::version;

// luck_trial of include/luck.h. Number 0 is done; a kind from 1 to 10 goes with 29, and 0 with every other number.
#[repr(C)]
#[derive(Clone, Copy)]
pub struct Trial {
    pub number: u32,
    pub kind: u32,
    pub written: usize,
    pub replacements: usize,
    pub steps: u32,
}

impl Trial {
    ghost use Rattle.std.specs.Prelude.{◌≡◌};
    ghost use Rattle.lstr_gsub.specs.Inner.{stopped_as, wrote_as};

    // Of a trial that an attempt stops.
    fn stopped(stop: outcome::Stop, written: usize, replacements: usize, steps: u32) -> Trial
        ensures { result ≡ stopped_as stop written replacements steps }
    {
        Trial {
            number: stop.number() as u32,
            kind: stop.kind() as u32,
            written,
            replacements,
            steps,
        }
    }

    // Of a trial that ends with a writing.
    fn wrote(wrote: Result<usize, Stopped>, replacements: usize, steps: u32) -> Trial
        ensures { result ≡ wrote_as wrote replacements steps }
    {
        match wrote {
            Ok(written) => Trial {
                number: 0,
                kind: 0,
                written,
                replacements,
                steps,
            },
            Err(stopped) => Trial {
                number: stopped.stop.number() as u32,
                kind: stopped.stop.kind() as u32,
                written: stopped.at,
                replacements,
                steps,
            },
        }
    }
}

// The rounds over the subject: at each place an attempt, whose match is replaced unless it ends where the last one did.
fn run_rounds(state: &MatchState, replacement: &[u8], is_strict: bool, output: &mut [u8]) -> Trial
    ensures { Reported result output.old output.new
        (rounds (class_in state.now.classes.now) state.now.subject.now state.now.budget (length output.old) (writer_by is_strict replacement.now state.now.subject.now (length output.old)) (items state.now.pattern.now 0) 0 None [] 0 0) }
{
    let lead = lead::lead_of(state.pattern);
    let mut kept = [Pair { start: 0, len: 0 }; 32];
    let mut place = 0;
    // the end of the last match
    let mut last: Option<usize> = None;
    let mut written = 0;
    let mut replacements = 0;
    let mut steps = 0;
    // a round ends where its match does, or a byte further: no counted range
    'rounds: loop {
        let attempt = attempt::attempt_at(state, lead, place, steps, &mut kept);
        steps = attempt.steps;
        match attempt.ending {
            Ending::Stopped(stop) => return Trial::stopped(stop, written, replacements, steps),
            Ending::Matched { end, count } if last != Some(end) => {
                replacements += 1;
                let found = Match {
                    subject: state.subject,
                    place,
                    end,
                    captures: &kept[..count as usize],
                };
                match replace::add_pieces(&found, replacement, is_strict, output, written) {
                    Ok(now) => written = now,
                    Err(stopped) => return Trial::wrote(Err(stopped), replacements, steps),
                }
                place = end;
                last = Some(end);
                continue 'rounds;
            }
            Ending::Matched { .. } => {}
            Ending::Failed => {}
        }
        // no replacement: behind the `match`, since in its last arm this makes `%d+` a quarter slower
        if state.subject.len() <= place {
            return Trial::wrote(Ok(written), replacements, steps);
        }
        match replace::append_byte(output, written, state.subject[place]) {
            Ok(now) => written = now,
            Err(stopped) => return Trial::wrote(Err(stopped), replacements, steps),
        }
        place += 1;
    }
}

// The one attempt of an anchored pattern; the rest of the subject is copied.
fn run_anchored(state: &MatchState, replacement: &[u8], is_strict: bool, output: &mut [u8]) -> Trial
    requires { 1 ≤ length state.now.pattern.now }
    ensures { Reported result output.old output.new
        (anchored_round state.now.subject.now (length output.old) (writer_by is_strict replacement.now state.now.subject.now (length output.old)) (match (class_in state.now.classes.now) state.now.subject.now state.now.budget (items state.now.pattern.now 1) 0 1 [] 0)) }
{
    let mut kept = [Pair { start: 0, len: 0 }; 32];
    let attempt = attempt::attempt(state, 1, 0, 0, &mut kept);
    let steps = attempt.steps;
    match attempt.ending {
        Ending::Stopped(stop) => Trial::stopped(stop, 0, 0, steps),
        Ending::Failed => Trial::wrote(replace::append(output, 0, state.subject), 0, steps),
        Ending::Matched { end, count } => {
            let found = Match {
                subject: state.subject,
                place: 0,
                end,
                captures: &kept[..count as usize],
            };
            match replace::add_pieces(&found, replacement, is_strict, output, 0) {
                Ok(written) => Trial::wrote(
                    replace::append(output, written, &state.subject[end..]),
                    1,
                    steps,
                ),
                Err(stopped) => Trial::wrote(Err(stopped), 1, steps),
            }
        }
    }
}

// The trial: gsub of a pattern and a replacement on a subject, under a version, within a budget of steps, into a lent output.
pub fn gsub(
    version: u32,
    pattern: &[u8],
    replacement: &[u8],
    subject: &[u8],
    budget: u32,
    output: &mut [u8],
) -> Trial
    ensures answer { report_of result ≡ report (gsub version pattern.now replacement.now subject.now budget (length output.old)) }
    ensures output { output.new ≡ output_after output.old (gsub version pattern.now replacement.now subject.now budget (length output.old)) }
{
    if !version::is_version(version) {
        return Trial {
            number: 25,
            kind: 0,
            written: 0,
            replacements: 0,
            steps: 0,
        };
    }
    let classes = class::classes(version);
    let is_strict = version::rules_of(version).strict_gsub_replacement;
    let state = MatchState {
        classes: &classes,
        subject,
        pattern,
        budget,
    };
    if 0 < pattern.len() && pattern[0] == b'^' {
        return run_anchored(&state, replacement, is_strict, output);
    }
    run_rounds(&state, replacement, is_strict, output)
}
