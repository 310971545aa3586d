// What the lines of a PLA text have said so far, and what one more line makes of it.
ghost use Rattle.std.specs.Prelude.{◌≡◌, ◌+◌, ◌<◌, ◌≤◌, ◌^◌, false, IfOk, OnErr};
ghost use Rattle.sheet.specs.Limits.{most_marks};
ghost use Rattle.stored.specs.Told.{read_as};
ghost use Rattle.pla.specs.Reading.{nothing_said};
ghost use Rattle.pla.specs.Sayings.{inputs, output, count, cube};
ghost use Rattle.pla_reading.specs.Parts.{Keeps, Hearable, Makes, MakesOf, Judged, Comes, next_of, judged_of, miscount};

use pla_lines::Heard;
use profiles::Profile;
use refusals::Refusal;
use sheet::{Refused, Sheet};

// A `.p` line: its number and its offset.
#[derive(Clone, Copy, Debug, PartialEq, Eq)]
pub struct Counted {
    pub number: u64,
    pub at: usize,
}

// The inputs, 0 before `.i`, as pla's `Said` has them and a line is heard by; whether `.o 1` has come; the `.p` line; how many cubes, and the set of their
// combinations.
#[derive(Clone, Copy, Debug, PartialEq, Eq)]
pub struct Said {
    pub inputs: usize,
    pub output: bool,
    pub count: Option<Counted>,
    pub cubes: u64,
    pub class: u32,
}

impl Said {
    pub fn nothing() -> Said
        ensures { Keeps nothing_said result }
    {
        Said {
            inputs: 0,
            output: false,
            count: None,
            cubes: 0,
            class: 0,
        }
    }

    // `.i`, at an offset.
    fn take_inputs(&mut self, at: usize, n: u64) -> Result<(), Refusal>
        ensures leads { MakesOf self.old at inputs n (next_of result self.new) }
        ensures kept { OnErr result (self.new ≡ self.old) }
    {
        if self.inputs != 0 {
            return Err(Refusal::Unreadable(at));
        }
        if !sheet::marks_ok(n as usize) {
            return Err(Refusal::Marks);
        }
        self.inputs = n as usize;
        Ok(())
    }

    // `.o 1`
    fn take_output(&mut self, at: usize) -> Result<(), Refusal>
        ensures leads { Makes self.old at output (next_of result self.new) }
        ensures kept { OnErr result (self.new ≡ self.old) }
    {
        if self.inputs == 0 {
            return Err(Refusal::Unreadable(at));
        }
        if self.output {
            return Err(Refusal::Unreadable(at));
        }
        self.output = true;
        Ok(())
    }

    // `.p`
    fn take_count(&mut self, at: usize, number: u64) -> Result<(), Refusal>
        ensures leads { MakesOf self.old at count number (next_of result self.new) }
        ensures kept { OnErr result (self.new ≡ self.old) }
    {
        if self.count.is_some() {
            return Err(Refusal::Unreadable(at));
        }
        self.count = Some(Counted { number, at });
        Ok(())
    }

    // A cube.
    fn take_cube(&mut self, at: usize, b: usize) -> Result<(), Refusal>
        requires box_of_inputs { (self.old.inputs ≤ most_marks) × (b < 3 ^ self.old.inputs) }
        requires few { self.old.cubes + 1 < 2 ^ 64 }
        ensures leads { Makes self.old at (cube b) (next_of result self.new) }
        ensures kept { OnErr result (self.new ≡ self.old) }
    {
        if !self.output {
            return Err(Refusal::Unreadable(at));
        }
        self.cubes += 1;
        self.class |= sets::sets()[b];
        Ok(())
    }

    // The line at an offset: whether the text goes on behind it.
    pub fn judge(&mut self, at: usize, heard: Heard) -> Result<bool, Refusal>
        requires { Hearable self.old heard }
        ensures leads { Judged self.old at heard (judged_of result self.new) }
        ensures kept { OnErr result (self.new ≡ self.old) }
        ensures ended { IfOk result (λ goes_on. goes_on ≡ false → self.new ≡ self.old) }
    {
        match heard {
            Heard::Blank => {}
            Heard::Inputs(n) => self.take_inputs(at, n)?,
            Heard::Output => self.take_output(at)?,
            Heard::Count(n) => self.take_count(at, n)?,
            Heard::Cube(b) => self.take_cube(at, b)?,
            Heard::End => return Ok(false),
            Heard::Unreadable => return Err(Refusal::Unreadable(at)),
        }
        Ok(true)
    }

    // The offset of a `.p` line that has another number than that of the cubes.
    fn miscounted(&self) -> Option<usize>
        ensures { result ≡ miscount self.now.count self.now.cubes }
    {
        let count = self.count?;
        if count.number == self.cubes {
            return None;
        }
        Some(count.at)
    }

    // What was said in all, at the end of an input of so many bytes.
    pub fn comes_to(&self, size: usize) -> Result<Sheet, Refused>
        requires { (self.now.inputs ≤ most_marks) × (self.now.cubes + 1 < 2 ^ 64) }
        ensures { Comes self.now size (read_as result) }
    {
        if self.inputs == 0 {
            return Err(Refusal::Unreadable(size).into());
        }
        if !self.output {
            return Err(Refusal::Unreadable(size).into());
        }
        if let Some(at) = self.miscounted() {
            return Err(Refusal::Unreadable(at).into());
        }
        let outs = sets::outs_of(self.class);
        let none = [0u32; 32];
        Ok(Sheet::afresh(self.inputs, Profile::None, &outs, &none, &none))
    }
}
