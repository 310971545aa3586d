// The fields of a form, one behind the other.
ghost use Rattle.std.specs.Prelude.{◌≡◌, ◌^◌, ◌≤◌, ◌<◌, length, OnErr};
ghost use Rattle.stored.specs.Fields.{number_in};

use refusals::Refusal;

// What is left of a form of so many bytes, field by field. The size is that of all the form: places count from its beginning, which `rest` does not tell.
#[derive(Clone, Copy)]
pub struct Fields<'a> {
    pub size: usize,
    pub rest: &'a [u8],
    ghost within: { length rest.now ≤ size },
}

// The number in some bytes, low byte first.
fn number_in(bytes: &[u8]) -> usize
    requires { length bytes.now ≤ 4 }
    ensures number { result ≡ number_in bytes.now }
    ensures small { result < 256 ^ length bytes.now }
{
    let mut n = 0;
    // In a loop, since a call of its own for each byte took an eighth of the time of an entry for C; by the number, since what is passed is the bytes from it
    // on, which a reversed iterator has given in another order.
    for i in (0..bytes.len()).rev() {
        n = n * 256 + usize::from(bytes[i]);
    }
    n
}

impl<'a> Fields<'a> {
    ghost use Rattle.sections.specs.Places.{offset_of, FieldRead};

    // The place where the next field stands.
    pub fn place(&self) -> usize
        ensures { result ≡ offset_of self.now }
    {
        self.size - self.rest.len()
    }

    // The next field, of k bytes, if its number is `low` to `high`; an error is at the field, or at the end where the bytes end early.
    pub fn field(&mut self, k: usize, low: usize, high: usize) -> Result<usize, Refusal>
        requires { k ≤ 4 }
        ensures read { FieldRead self.old k low high self.new result }
        ensures kept { OnErr result (self.new ≡ self.old) }
    {
        let Some((field, rest)) = self.rest.split_at_checked(k) else {
            return Err(Refusal::Unreadable(self.size));
        };
        let number = number_in(field);
        if number < low || high < number {
            return Err(Refusal::Unreadable(self.place()));
        }
        self.rest = rest;
        Ok(number)
    }
}
