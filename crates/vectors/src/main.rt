// Replays stored answers, one file for each kind, and prints how many ran and how many differ. Each line is compared with
// what `stdout` holds, so a file that is short of records is noticed as well as an answer that differs.
#![tactic(auto)]

use std::io::Print;
use std::rt::Files;
use stored_answers::checks::Checks;
use stored_answers::literal_checks::LiteralChecks;
use stored_answers::replay;
use stored_literals::literals::Literals;
use stored_questions::real_lua::RealLua;
use stored_records::records::Records;
use stored_trials::trials::Trials;

fn main(rt: HostRuntime) {
    luck_answers(&rt);
    document_answers(&rt);
    real_lua_answers(&rt);
    wrong_answers(&rt);
    no_answers(&rt);
}

// Files whose records are of one kind, each with its name.
fn run_all<R: Records>(rt: &(impl Files + Print), files: &[(&str, &str)]) {
    for &(name, path) in files {
        replay::run::<R>(rt, name.as_bytes(), path.as_bytes());
    }
}

// Answers of luck.
fn luck_answers(rt: &(impl Files + Print)) {
    run_all::<Literals>(rt, &[("literals", "literals.bin")]);
    run_all::<Checks>(
        rt,
        &[
            ("formats", "formats.bin"),
            ("patterns", "patterns.bin"),
            ("packs", "packs.bin"),
            ("packsizes", "packsizes.bin"),
            ("replacements", "replacements.bin"),
            ("dates", "dates.bin"),
        ],
    );
    run_all::<LiteralChecks>(rt, &[("checked literals", "checked_literals.bin")]);
}

// Answers that were written by hand from document 01.
fn document_answers(rt: &(impl Files + Print)) {
    run_all::<Checks>(rt, &[("rows of document 01", "rows.bin")]);
    run_all::<LiteralChecks>(rt, &[("its literals", "literal_rows.bin")]);
    run_all::<Trials>(rt, &[("its trials", "trial_rows.bin")]);
}

// Answers of Lua 5.1 to 5.4. All that is known to differ stands in a file of its own, whose records must all differ.
fn real_lua_answers(rt: &(impl Files + Print)) {
    run_all::<RealLua>(
        rt,
        &[
            ("real formats", "real_formats.bin"),
            ("real patterns", "real_patterns.bin"),
            ("real packs", "real_packs.bin"),
            ("real packsizes", "real_packsizes.bin"),
            ("real replacements", "real_replacements.bin"),
            ("real dates", "real_dates.bin"),
        ],
    );
    run_all::<Trials>(
        rt,
        &[
            ("real gsub, 1", "real_gsub_1.bin"),
            ("real gsub, 2", "real_gsub_2.bin"),
            ("real gsub, 3", "real_gsub_3.bin"),
            ("real gsub, 4", "real_gsub_4.bin"),
            ("real gsub, 5", "real_gsub_5.bin"),
        ],
    );
    run_all::<RealLua>(rt, &[("real, known to differ", "real_known.bin")]);
}

// A few records that are right, and others that are wrong in one field each: the lines show that a difference is told.
fn wrong_answers(rt: &(impl Files + Print)) {
    run_all::<Literals>(rt, &[("wrong literals", "wrong.bin")]);
    run_all::<Checks>(rt, &[("wrong checks", "wrong_checks.bin")]);
    run_all::<LiteralChecks>(
        rt,
        &[("wrong checked literals", "wrong_checked_literals.bin")],
    );
    run_all::<RealLua>(rt, &[("wrong real", "wrong_real.bin")]);
    run_all::<Trials>(rt, &[("wrong trials", "wrong_trials.bin")]);
}

// What can't be replayed: the lines say why.
fn no_answers(rt: &(impl Files + Print)) {
    run_all::<Checks>(
        rt,
        &[
            ("cut off", "cut_off.bin"),
            ("missing", "missing.bin"),
            ("a folder", "."),
            ("without end", "/dev/zero"),
        ],
    );
}
