//! Moments as text. A moment counts the seconds since the first of 1970, with no leap seconds.
ghost use Rattle.std.specs.Prelude.{◌≡◌, ◌+◌, ◌*◌, ◌/◌, ◌<◌, ◌≤◌, ◌↔◌, ℕ, pos, IsAscii, Some};
ghost use Rattle.httpdate.specs.Date.{parse_secs};
ghost use Rattle.httpdate.specs.Text.{two_digits, four_digits};
ghost use Rattle.jiff.specs.Words.{epoch_day};
ghost use Rattle.mt_ident.specs.Dates.{IsHttpDate, date_of_day, http_date_text, iso_time_text};

use httpdate::HttpDate;
use jiff::ToSpan;
use jiff::civil::Date;
use mt_base::LAST_MOMENT;

/// The seconds of a day.
const DAY: u64 = 86_400;

/// The seconds of an hour.
const HOUR: u64 = 3_600;

/// The seconds of a minute.
const MINUTE: u64 = 60;

/// A date of the Gregorian calendar. Months and days count from 1.
#[derive(Clone, Copy)]
struct CivilDate {
    year: u16,
    month: u8,
    day: u8,
}

/// A moment as HTTP's fields are written (RFC 9110, section 5.6.7): `Sun, 06 Nov 1994 08:49:37 GMT`.
pub fn http_date(moment: u64) -> [u8; 29]
    requires { moment ≤ LAST_MOMENT }
    ensures text { result ≡ http_date_text moment }
    ensures ascii { IsAscii result }
{
    HttpDate::from_unix_secs(moment).unwrap().to_bytes()
}

/// The moment that a date of HTTP's fields shows, in any of its three forms, with no blanks round it.
/// `None` exactly where it shows none up to [`LAST_MOMENT`]: also where case or the day of the week is wrong.
pub fn read_http_date(text: &[u8]) -> Option<u64>
    ensures value { result ≡ parse_secs text.now }
    ensures exact { (moment : ℕ) → (result ≡ Some moment) ↔ IsHttpDate moment text.now }
{
    match HttpDate::parse_ascii(text) {
        Ok(date) => Some(date.unix_secs()),
        Err(_) => None,
    }
}

/// A moment in ISO 8601's form to the millisecond: `1994-11-06T08:49:37.000Z`.
pub fn iso_time(moment: u64) -> [u8; 24]
    requires { moment ≤ LAST_MOMENT }
    ensures text { result ≡ iso_time_text moment }
    ensures ascii { IsAscii result }
{
    let CivilDate { year, month, day } = date_of((moment / DAY) as u32);
    let [y0, y1, y2, y3] = four_digits(year);
    let [m0, m1] = two_digits(month);
    let [d0, d1] = two_digits(day);
    let [h0, h1] = two_digits((moment % DAY / HOUR) as u8);
    let [n0, n1] = two_digits((moment % HOUR / MINUTE) as u8);
    let [s0, s1] = two_digits((moment % MINUTE) as u8);
    [
        y0, y1, y2, y3, b'-', m0, m1, b'-', d0, d1, b'T', h0, h1, b':', n0, n1, b':', s0, s1, b'.',
        b'0', b'0', b'0', b'Z',
    ]
}

// The date so many days after 1 January 1970.
fn date_of(days: u32) -> CivilDate
    requires { days ≤ LAST_MOMENT / DAY }
    ensures date { result ≡ date_of_day days }
    ensures year { result.year < 10_000 }
    ensures month { result.month ≤ 12 }
    ensures day { result.day ≤ 31 }
{
    let date = jiff_date(days);
    CivilDate {
        year: date.year().unsigned_abs(),
        month: date.month().unsigned_abs(),
        day: date.day().unsigned_abs(),
    }
}

// The same, as jiff has it.
fn jiff_date(days: u32) -> Date
    requires { days ≤ LAST_MOMENT / DAY }
    ensures { epoch_day result ≡ pos days }
{
    let start = jiff::civil::date(1970, 1, 1);
    start.checked_add((days as i64).days()).unwrap()
}

// A number below 100 in two digits.
fn two_digits(n: u8) -> [u8; 2]
    requires { n < 100 }
    ensures { result ≡ two_digits n }
{
    [b'0' + n / 10, b'0' + n % 10]
}

// A number below 10,000 in four digits.
fn four_digits(n: u16) -> [u8; 4]
    requires { n < 10000 }
    ensures { result ≡ four_digits n }
{
    let [a, b] = two_digits((n / 100) as u8);
    let [c, d] = two_digits((n % 100) as u8);
    [a, b, c, d]
}
