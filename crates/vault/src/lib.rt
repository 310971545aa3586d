// What each entry for C does, as a call of this library: it reads the lent sheet, makes one call on it, and writes what is left. Entries that differ in a call
// alone stay apart, since the C interface names each (`vault_c`).
#![tactic(auto)]

ghost use Rattle.classes.specs.declared.Standing.TheVariants.{In, Out, Either};
ghost use Rattle.sheet.specs.Limits.{most_marks, entries};
ghost use Rattle.sheet.specs.Record.{outside_counts, either_counts, held_seconds};
ghost use Rattle.sheet.specs.Answers.{open_of, open_under_of, ClassSize};
ghost use Rattle.changes.specs.Calls.{did_of};
ghost use Rattle.changes.specs.declared.Call.TheVariants.{Change, Receive, Withdraw};
ghost use Rattle.stored.specs.Answers.{ReadsBy};
ghost use Rattle.stored.specs.declared.Layout.TheVariants.{First};
ghost use Rattle.listing.specs.Listing.{Listed};
ghost use Rattle.totals.specs.Totals.{Totalled};
ghost use Rattle.pla.specs.Answers.{ReadsPla, WritesPla};
ghost use Rattle.times.specs.Answers.{Answered};
ghost use Rattle.lent.specs.Entries.{Put, ChangesBy, Changes, Tells, Judges, Lends, Compared, KeptAt, same};

use changes::Call;
use checking::Verdict;
use classes::Standing;
use lent::Reply;
use sheet::Sheet;
use times::Reading;

// A sheet of so many marks.
pub fn vault_open(marks: u64, out: &mut [u8]) -> Reply
    ensures { Put (open_of most_marks entries marks) out.old result out.new }
{
    lent::written(Sheet::open(marks as usize), out).into()
}

// A sheet of so many marks under a carrier profile, a byte for each of its groups.
pub fn vault_open_profile(marks: u64, groups: &[u8], out: &mut [u8]) -> Reply
    ensures { Put (open_under_of most_marks entries marks groups.now) out.old result out.new }
{
    lent::written(Sheet::open_under(marks as usize, groups), out).into()
}

// Into the class.
pub fn vault_enter(sheet: &[u8], combination: u64, out: &mut [u8]) -> Reply
    ensures { Changes (λ s. did_of most_marks s (Change In combination)) sheet.now out.old result out.new }
{
    lent::change(sheet, Call::Change(Standing::In, combination as usize), out).into()
}

// Out of the class.
pub fn vault_leave(sheet: &[u8], combination: u64, out: &mut [u8]) -> Reply
    ensures { Changes (λ s. did_of most_marks s (Change Out combination)) sheet.now out.old result out.new }
{
    lent::change(
        sheet,
        Call::Change(Standing::Out, combination as usize),
        out,
    )
    .into()
}

// Neither in the class nor out of it: no can could have the combination.
pub fn vault_make_either(sheet: &[u8], combination: u64, out: &mut [u8]) -> Reply
    ensures { Changes (λ s. did_of most_marks s (Change Either combination)) sheet.now out.old result out.new }
{
    lent::change(
        sheet,
        Call::Change(Standing::Either, combination as usize),
        out,
    )
    .into()
}

// A receipt.
pub fn vault_receive(sheet: &[u8], combination: u64, seconds: u64, out: &mut [u8]) -> Reply
    ensures { Changes (λ s. did_of most_marks s (Receive combination seconds)) sheet.now out.old result out.new }
{
    lent::change(sheet, Call::Receive(combination as usize, seconds), out).into()
}

// A withdrawal.
pub fn vault_withdraw(sheet: &[u8], combination: u64, seconds: u64, out: &mut [u8]) -> Reply
    ensures { Changes (λ s. did_of most_marks s (Withdraw combination seconds)) sheet.now out.old result out.new }
{
    lent::change(sheet, Call::Withdraw(combination as usize, seconds), out).into()
}

// What was read, written again.
pub fn vault_copy(sheet: &[u8], out: &mut [u8]) -> Reply
    ensures { Changes same sheet.now out.old result out.new }
{
    lent::written(reading::read(sheet), out).into()
}

// What was read of 01's form, written in today's.
pub fn vault_from_form1(old: &[u8], out: &mut [u8]) -> Reply
    ensures { ChangesBy (ReadsBy First most_marks entries old.now) same out.old result out.new }
{
    lent::written(reading::read_first(old), out).into()
}

// What a PLA text draws, written in its stored form.
pub fn vault_read_pla(text: &[u8], out: &mut [u8]) -> Reply
    ensures { ChangesBy (ReadsPla most_marks entries text.now) same out.old result out.new }
{
    lent::written(pla_reading::read(text), out).into()
}

// The shortest list of the class.
pub fn vault_list(sheet: &[u8], area: &mut [u8]) -> Reply
    ensures { Lends (Listed most_marks) sheet.now area.old result area.new }
{
    lent::list(sheet, area).into()
}

// The shortest list of the class, as a PLA text.
pub fn vault_write_pla(sheet: &[u8], out: &mut [u8]) -> Reply
    ensures { Lends (WritesPla most_marks) sheet.now out.old result out.new }
{
    lent::write_pla(sheet, out).into()
}

// How many combinations are in the class.
pub fn vault_class_size(sheet: &[u8]) -> Reply
    ensures { Tells (ClassSize most_marks) sheet.now result }
{
    lent::class_size(sheet).into()
}

// The seconds held in the class.
pub fn vault_total(sheet: &[u8]) -> Reply
    ensures { Tells (Totalled most_marks) sheet.now result }
{
    lent::total(sheet).into()
}

// The outside count of a line.
pub fn vault_outside(sheet: &[u8], line: u64) -> Reply
    ensures { Tells (KeptAt outside_counts line) sheet.now result }
{
    lent::outside(sheet, line).into()
}

// The either count of a line.
pub fn vault_either(sheet: &[u8], line: u64) -> Reply
    ensures { Tells (KeptAt either_counts line) sheet.now result }
{
    lent::either(sheet, line).into()
}

// The held seconds of a line.
pub fn vault_held(sheet: &[u8], line: u64) -> Reply
    ensures { Tells (KeptAt held_seconds line) sheet.now result }
{
    lent::held(sheet, line).into()
}

// Which of two lent lists is before the other: 0 the first, also if they are equal, 1 the second.
pub fn vault_before(first: &[u8], second: &[u8]) -> Reply
    ensures { Compared first.now second.now result }
{
    Reply::from(Ok(u64::from(lists::is_before(second, first))))
}

// Whether a lent list fits the class, and else its first fault.
pub fn vault_check_list(sheet: &[u8], list: &[u8]) -> Verdict
    ensures { Judges sheet.now list.now result }
{
    lent::judge(sheet, list)
}

// A running time, with its form.
pub fn vault_read_time(text: &[u8]) -> Reading
    ensures { Answered text.now result }
{
    times::answer(text)
}
