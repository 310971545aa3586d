// Reading a PLA text of one output: any bytes, of any length. Each line is heard, and judged by what the lines before it have said.
#![tactic(auto)]

ghost use Rattle.sheet.specs.Limits.{most_marks, entries};
ghost use Rattle.stored.specs.Told.{read_as};
ghost use Rattle.pla.specs.Answers.{ReadsPla};

mod said;

use said::Said;
use sheet::{Refused, Sheet};

// The sheet whose class is the union of the cubes, and which holds nothing.
pub fn read(text: &[u8]) -> Result<Sheet, Refused>
    ensures { ReadsPla most_marks entries text.now (read_as result) }
{
    let mut said = Said::nothing();
    // A refusal tells the offset of its line, so the loop counts offsets; an iterator over the lines would count them beside.
    let mut at: usize = 0;
    while at < text.len() {
        let line = &text[at..];
        let heard = pla_lines::read(line, said.inputs);
        if !said.judge(at, heard)? {
            return said.comes_to(text.len());
        }
        at += pla_lines::size(line) + 1;
    }
    said.comes_to(text.len())
}
