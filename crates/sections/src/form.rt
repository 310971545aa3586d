// A form behind its marks, of which the sections are read.
ghost use Rattle.std.specs.Prelude.{◌≤◌};
ghost use Rattle.sheet.specs.Limits.{most_marks};

use crate::fields::Fields;
use refusals::Refusal;

// What is left of a stored form of so many marks. 01 calls it so, and the forms of running times too, which `times` has.
#[derive(Clone, Copy)]
pub struct Form<'a> {
    pub marks: usize,
    pub fields: Fields<'a>,
    ghost few: { marks ≤ most_marks },
}

impl<'a> Form<'a> {
    ghost use Rattle.sections.specs.Parts.{MarksRead};

    // The form behind its marks, which are its first byte; an error is that there is none, or that no sheet may have so many.
    pub fn open(bytes: &'a [u8]) -> Result<Form<'a>, Refusal>
        ensures { MarksRead bytes.now result }
    {
        let [marks, rest @ ..] = bytes else {
            return Err(Refusal::Unreadable(0));
        };
        let marks = usize::from(*marks);
        if !sheet::marks_ok(marks) {
            return Err(Refusal::Marks);
        }
        let size = bytes.len();
        let fields = Fields { size, rest };
        Ok(Form { marks, fields })
    }
}
