// `refused K A`, laid on a page or in a lent area.
ghost use Rattle.std.specs.Prelude.{◌++◌, ◌+◌, ◌≤◌, length};
ghost use Rattle.ground.specs.Areas.{Wrote};
ghost use Rattle.ground.specs.Texts.{ascii};
ghost use Rattle.print.specs.Texts.{decimal};
ghost use Rattle.machine.specs.Machine.{refusal as refusal_text};
ghost use Rattle.print.specs.Pages.{Puts, HasRoom};
ghost use Rattle.machine.specs.AtHand.{refusal_room};

use print::Page;

// A word, a number, what stands between, a number and a newline.
pub fn put_both(page: &mut Page, word: &[u8], x: u64, between: &[u8], y: u64)
    requires { HasRoom page.old (length word.now + length between.now + 41) }
    ensures { Puts page.old page.new (word.now ++ decimal x ++ between.now ++ decimal y ++ ascii "\n") }
{
    page.put(word);
    page.put_number(x);
    page.put(between);
    page.put_number(y);
    page.put_byte(b'\n');
}

// `refused K A`: the number of a line, and that of its refusal, side by side here alone.
pub fn put_refusal(page: &mut Page, number: u64, answer: u64)
    requires { HasRoom page.old refusal_room }
    ensures { Puts page.old page.new (refusal_text number answer) }
{
    put_both(page, b"refused ", number, b" ", answer);
}

// A refusal in front of a lent area; answers its length.
pub fn refusal(out: &mut [u8], number: u64, answer: u64) -> usize
    requires { refusal_room ≤ length out.old }
    ensures { Wrote out.old 0 (refusal_text number answer) result out.new }
{
    let mut page = Page::new(out);
    put_refusal(&mut page, number, answer);
    page.len
}
