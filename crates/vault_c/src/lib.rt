// The library for C programs: include/vault.h says what each entry does. An entry is the call of `vault` that has its name and its clauses.
#![tactic(auto)]

ghost use Rattle.classes.specs.declared.Standing.TheVariants.{In, Out, Either};
ghost use Rattle.sheet.specs.Limits.{most_marks, entries};
ghost use Rattle.sheet.specs.Record.{outside_counts, either_counts, held_seconds};
ghost use Rattle.sheet.specs.Answers.{open_of, open_under_of, ClassSize};
ghost use Rattle.changes.specs.Calls.{did_of};
ghost use Rattle.changes.specs.declared.Call.TheVariants.{Change, Receive, Withdraw};
ghost use Rattle.stored.specs.Answers.{ReadsBy};
ghost use Rattle.stored.specs.declared.Layout.TheVariants.{First};
ghost use Rattle.listing.specs.Listing.{Listed};
ghost use Rattle.totals.specs.Totals.{Totalled};
ghost use Rattle.pla.specs.Answers.{ReadsPla, WritesPla};
ghost use Rattle.times.specs.Answers.{Answered};
ghost use Rattle.lent.specs.Entries.{Put, ChangesBy, Changes, Tells, Judges, Lends, Compared, KeptAt, same};

use checking::Verdict;
use lent::Reply;
use times::Reading;

// A sheet of so many marks.
#[unsafe(no_mangle)]
pub extern "C" fn vault_open(marks: u64, out: &mut [u8]) -> Reply
    ensures { Put (open_of most_marks entries marks) out.old result out.new }
{
    vault::vault_open(marks, out)
}

// A sheet of so many marks under a carrier profile, a byte for each of its groups.
#[unsafe(no_mangle)]
pub extern "C" fn vault_open_profile(marks: u64, groups: &[u8], out: &mut [u8]) -> Reply
    ensures { Put (open_under_of most_marks entries marks groups.now) out.old result out.new }
{
    vault::vault_open_profile(marks, groups, out)
}

// Into the class.
#[unsafe(no_mangle)]
pub extern "C" fn vault_enter(sheet: &[u8], combination: u64, out: &mut [u8]) -> Reply
    ensures { Changes (λ s. did_of most_marks s (Change In combination)) sheet.now out.old result out.new }
{
    vault::vault_enter(sheet, combination, out)
}

// Out of the class.
#[unsafe(no_mangle)]
pub extern "C" fn vault_leave(sheet: &[u8], combination: u64, out: &mut [u8]) -> Reply
    ensures { Changes (λ s. did_of most_marks s (Change Out combination)) sheet.now out.old result out.new }
{
    vault::vault_leave(sheet, combination, out)
}

// Neither in the class nor out of it: no can could have the combination.
#[unsafe(no_mangle)]
pub extern "C" fn vault_make_either(sheet: &[u8], combination: u64, out: &mut [u8]) -> Reply
    ensures { Changes (λ s. did_of most_marks s (Change Either combination)) sheet.now out.old result out.new }
{
    vault::vault_make_either(sheet, combination, out)
}

// A receipt.
#[unsafe(no_mangle)]
pub extern "C" fn vault_receive(
    sheet: &[u8],
    combination: u64,
    seconds: u64,
    out: &mut [u8],
) -> Reply
    ensures { Changes (λ s. did_of most_marks s (Receive combination seconds)) sheet.now out.old result out.new }
{
    vault::vault_receive(sheet, combination, seconds, out)
}

// A withdrawal.
#[unsafe(no_mangle)]
pub extern "C" fn vault_withdraw(
    sheet: &[u8],
    combination: u64,
    seconds: u64,
    out: &mut [u8],
) -> Reply
    ensures { Changes (λ s. did_of most_marks s (Withdraw combination seconds)) sheet.now out.old result out.new }
{
    vault::vault_withdraw(sheet, combination, seconds, out)
}

// What was read, written again.
#[unsafe(no_mangle)]
pub extern "C" fn vault_copy(sheet: &[u8], out: &mut [u8]) -> Reply
    ensures { Changes same sheet.now out.old result out.new }
{
    vault::vault_copy(sheet, out)
}

// What was read of 01's form, written in today's.
#[unsafe(no_mangle)]
pub extern "C" fn vault_from_form1(old: &[u8], out: &mut [u8]) -> Reply
    ensures { ChangesBy (ReadsBy First most_marks entries old.now) same out.old result out.new }
{
    vault::vault_from_form1(old, out)
}

// What a PLA text draws, written in its stored form.
#[unsafe(no_mangle)]
pub extern "C" fn vault_read_pla(text: &[u8], out: &mut [u8]) -> Reply
    ensures { ChangesBy (ReadsPla most_marks entries text.now) same out.old result out.new }
{
    vault::vault_read_pla(text, out)
}

// The shortest list of the class.
#[unsafe(no_mangle)]
pub extern "C" fn vault_list(sheet: &[u8], area: &mut [u8]) -> Reply
    ensures { Lends (Listed most_marks) sheet.now area.old result area.new }
{
    vault::vault_list(sheet, area)
}

// The shortest list of the class, as a PLA text.
#[unsafe(no_mangle)]
pub extern "C" fn vault_write_pla(sheet: &[u8], out: &mut [u8]) -> Reply
    ensures { Lends (WritesPla most_marks) sheet.now out.old result out.new }
{
    vault::vault_write_pla(sheet, out)
}

// How many combinations are in the class.
#[unsafe(no_mangle)]
pub extern "C" fn vault_class_size(sheet: &[u8]) -> Reply
    ensures { Tells (ClassSize most_marks) sheet.now result }
{
    vault::vault_class_size(sheet)
}

// The seconds held in the class.
#[unsafe(no_mangle)]
pub extern "C" fn vault_total(sheet: &[u8]) -> Reply
    ensures { Tells (Totalled most_marks) sheet.now result }
{
    vault::vault_total(sheet)
}

// The outside count of a line.
#[unsafe(no_mangle)]
pub extern "C" fn vault_outside(sheet: &[u8], line: u64) -> Reply
    ensures { Tells (KeptAt outside_counts line) sheet.now result }
{
    vault::vault_outside(sheet, line)
}

// The either count of a line.
#[unsafe(no_mangle)]
pub extern "C" fn vault_either(sheet: &[u8], line: u64) -> Reply
    ensures { Tells (KeptAt either_counts line) sheet.now result }
{
    vault::vault_either(sheet, line)
}

// The held seconds of a line.
#[unsafe(no_mangle)]
pub extern "C" fn vault_held(sheet: &[u8], line: u64) -> Reply
    ensures { Tells (KeptAt held_seconds line) sheet.now result }
{
    vault::vault_held(sheet, line)
}

// Which of two lent lists is before the other: 0 the first, also if they are equal, 1 the second.
#[unsafe(no_mangle)]
pub extern "C" fn vault_before(first: &[u8], second: &[u8]) -> Reply
    ensures { Compared first.now second.now result }
{
    vault::vault_before(first, second)
}

// Whether a lent list fits the class, and else its first fault.
#[unsafe(no_mangle)]
pub extern "C" fn vault_check_list(sheet: &[u8], list: &[u8]) -> Verdict
    ensures { Judges sheet.now list.now result }
{
    vault::vault_check_list(sheet, list)
}

// A running time, with its form.
#[unsafe(no_mangle)]
pub extern "C" fn vault_read_time(text: &[u8]) -> Reading
    ensures { Answered text.now result }
{
    vault::vault_read_time(text)
}
