// A date in front of a text: YYYY-MM-DD and one space.
ghost use Rattle.dates.specs.Texts.{DatingOf};

use crate::date::Date;
use crate::digits::read_number;

// The date in front of a text, whether there is such a day or not. What is behind it begins at byte 11.
pub fn read_date(text: &[u8]) -> Option<Date>
    ensures { DatingOf text.now result }
{
    let [_, _, _, _, b'-', _, _, b'-', _, _, b' ', ..] = text else {
        return None;
    };
    let year = read_number(&text[..4])?;
    let month = read_number(&text[5..7])?;
    let day = read_number(&text[8..10])?;
    Some(Date { year, month, day })
}
