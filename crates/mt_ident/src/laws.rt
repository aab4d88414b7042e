//! Laws of the texts: what is written is read again, and a day has one date.
ghost use Rattle.std.specs.Prelude.{◌≡◌, ◌<◌, ◌≤◌, ◌^◌, ℕ, Some};
ghost use Rattle.httpdate.specs.Calendar.{IsCivilDate, days_from_civil};
ghost use Rattle.mt_ident.specs.declared.dates.CivilDate.{CivilDate};
ghost use Rattle.mt_ident.specs.Dates.{date_of_day};
ghost use Rattle.std.specs.Cmp.Lexicographic.{slice_cmp};
ghost use Rattle.std.specs.Ordering.{nat_cmp};
ghost use Rattle.std.specs.declared.cmp.Ordering.TheVariants.{Less};
ghost use Rattle.mt_ident.specs.Identifiers.{IsKind, identifier_text};

use crate::dates::{http_date, read_http_date};
use crate::digests::{md5_read, md5_text};
use crate::identifiers::{uuid_number, uuid_text};
use mt_base::LAST_MOMENT;

/// An identifier's text is read as its number.
pub fn identifier_again(kind: u8, number: u64) -> Option<u64>
    requires kind { IsKind kind }
    requires number { number < 2 ^ 62 }
    ensures { result ≡ Some number }
{
    uuid_number(kind, &uuid_text(kind, number))
}

/// Identifiers of one kind rise with their numbers, in the order of their bytes.
pub fn identifiers_rise()
    ensures { (kind n m : ℕ) → IsKind kind → n < m → m < 2 ^ 62 → slice_cmp nat_cmp (identifier_text kind n) (identifier_text kind m) ≡ Less }
{}

/// A digest's text is read as the digest.
pub fn digest_again(digest: &[u8; 16]) -> Option<[u8; 16]>
    ensures { result ≡ Some digest.now }
{
    md5_read(&md5_text(digest))
}

/// The HTTP date of a moment is read as the moment.
pub fn http_date_again(moment: u64) -> Option<u64>
    requires { moment ≤ LAST_MOMENT }
    ensures { result ≡ Some moment }
{
    read_http_date(&http_date(moment))
}

/// The date of a day is the one date of the calendar that lies so many days after 1 January 1970.
pub fn one_date_a_day()
    ensures civil { (days : ℕ) → days < 2_932_897 → let d = date_of_day days in IsCivilDate d.year d.month d.day }
    ensures counted { (days : ℕ) → let d = date_of_day days in days_from_civil d.year d.month d.day ≡ days }
    ensures unique { (d : CivilDate) → IsCivilDate d.year d.month d.day → date_of_day (days_from_civil d.year d.month d.day) ≡ d }
{}
