// A row of the listing, and its line of totals.
ghost use Rattle.std.specs.Prelude.{◌≡◌, ◌<◌, min};
ghost use Rattle.luck_answer.specs.Answer.{check_answer};
ghost use Rattle.luck_line.specs.Row.{column, last_column, four_columns, seven_columns, listing_row, answer_row, most_shown, totals_row};

use luck_answer::answer::Answer;

// The bytes of a row and of the line of totals, their newlines included.
pub const ROW: usize = 19;

pub const TOTALS: usize = 15;

// The largest total that is shown: it stands for that many or more.
pub const MOST_SHOWN: u32 = 9999999;

// The digit at a power of ten, or a blank in the place of a leading zero.
fn column(power: u64, n: u64) -> u8
    requires { 0 < power }
    ensures { result ≡ column power n }
{
    if n < power {
        return b' ';
    }
    b'0' + (n / power % 10) as u8
}

fn last_column(n: u64) -> u8
    ensures { result ≡ last_column n }
{
    b'0' + (n % 10) as u8
}

// The columns are written out, here and below: a loop would have to count the powers of ten by hand.
fn four_columns(number: u64) -> [u8; 4]
    ensures { result ≡ four_columns number }
{
    [
        column(1000, number),
        column(100, number),
        column(10, number),
        last_column(number),
    ]
}

fn seven_columns(n: u64) -> [u8; 7]
    ensures { result ≡ seven_columns n }
{
    [
        column(1000000, n),
        column(100000, n),
        column(10000, n),
        column(1000, n),
        column(100, n),
        column(10, n),
        last_column(n),
    ]
}

// Number, offset and count in 4, 7 and 7 columns.
fn row_of(number: u64, offset: u64, count: u64) -> [u8; ROW]
    ensures { result ≡ listing_row number offset count }
{
    let mut row = [b'\n'; ROW];
    row[0..4].copy_from_slice(&four_columns(number));
    row[4..11].copy_from_slice(&seven_columns(offset));
    row[11..18].copy_from_slice(&seven_columns(count));
    row
}

pub fn of_answer(answer: Answer) -> [u8; ROW]
    ensures { result ≡ answer_row (check_answer answer) }
{
    row_of(
        answer.number as u64,
        answer.offset as u64,
        answer.count as u64,
    )
}

fn shown(total: u32) -> u64
    ensures { result ≡ min total most_shown }
{
    total.min(MOST_SHOWN) as u64
}

// Lines read and lines refused in 7 columns each.
pub fn of_totals(read: u32, refused: u32) -> [u8; TOTALS]
    ensures { result ≡ totals_row read refused }
{
    let read = shown(read);
    let refused = shown(refused);
    let mut row = [b'\n'; TOTALS];
    row[0..7].copy_from_slice(&seven_columns(read));
    row[7..14].copy_from_slice(&seven_columns(refused));
    row
}
