// The head of a report, against the soup's box and the digits.
ghost use Rattle.std.specs.Prelude.{◌≡◌, ◌↔◌, IsTrue, ℕ, Option};
ghost use Rattle.cert_check.specs.Faults.{IsHeader};

use report_text::Report;
use soup::Soup;

/// Whether the report is for the soup's box and the digits asked for.
pub fn is_header(soup: &Soup, report: &Report, digits: Option<u32>) -> bool
    ensures { IsTrue result ↔ IsHeader soup.now report.now digits }
{
    if report.side != soup.side {
        return false;
    }
    if report.shift != soup.shift {
        return false;
    }
    report.digits == digits
}
