// Texts, laid one behind the other in a lent area: nothing is allocated, and no write can fail.
ghost use Rattle.std.specs.Prelude.{◌≡◌, [], ◌∷◌, ◌<◌, ◌≤◌, length};
ghost use Rattle.ground.specs.Figures.{figures};
ghost use Rattle.print.specs.Texts.{decimal, clock, sign, pattern};
ghost use Rattle.print.specs.Pages.{Puts, HasRoom};

// The text in front of a lent area.
#[derive(Drop)]
pub struct Page<'a> {
    pub area: &'a mut [u8],
    pub len: usize,
}

// The byte of a box's digit: 0 off, 1 on, `-` free, which no printing of numbers knows.
fn sign(d: usize) -> u8
    requires { d < 3 }
    ensures { result ≡ sign d }
{
    if d == 2 {
        return b'-';
    }
    b'0' + d as u8
}

impl<'a> Page<'a> {
    // An area of which nothing is written.
    pub fn new(area: &'a mut [u8]) -> Page<'a>
        ensures same { result.area.ghost_name ≡ area.entry.ghost_name }
        ensures area { result.area.now ≡ area.old }
        ensures empty { result.len ≡ 0 }
    {
        Page { area, len: 0 }
    }

    // An area of which so many bytes are written already.
    pub fn behind(area: &'a mut [u8], len: usize) -> Page<'a>
        ensures same { result.area.ghost_name ≡ area.entry.ghost_name }
        ensures area { result.area.now ≡ area.old }
        ensures len { result.len ≡ len }
    {
        Page { area, len }
    }

    // A text behind what there is.
    pub fn put(&mut self, text: &[u8])
        requires { HasRoom self.old (length text.now) }
        ensures { Puts self.old self.new text.now }
    {
        let start = self.len;
        let end = start + text.len();
        self.area[start..end].copy_from_slice(text);
        self.len = end;
    }

    // One byte.
    pub fn put_byte(&mut self, b: u8)
        requires { HasRoom self.old 1 }
        ensures { Puts self.old self.new (b ∷ []) }
    {
        self.put(&[b]);
    }

    // A number in decimal, at most 20 bytes.
    pub fn put_number(&mut self, n: u64)
        requires { HasRoom self.old (length (decimal n)) }
        ensures { Puts self.old self.new (decimal n) }
    {
        let mut digits = itoa::Buffer::new();
        self.put(digits.format(n).as_bytes());
    }

    // A number below 100 in two digits. By hand, since `itoa` writes no zero in front.
    pub fn put_two(&mut self, n: u64)
        requires below { n < 100 }
        requires room { HasRoom self.old 2 }
        ensures { Puts self.old self.new (figures 10 2 n) }
    {
        self.put(&[b'0' + (n / 10) as u8, b'0' + (n % 10) as u8]);
    }

    // Seconds as minutes, a colon and two digits, at most 21 bytes.
    pub fn put_time(&mut self, seconds: u64)
        requires { HasRoom self.old (length (clock seconds)) }
        ensures { Puts self.old self.new (clock seconds) }
    {
        self.put_number(seconds / 60);
        self.put_byte(b':');
        self.put_two(seconds % 60);
    }

    // The pattern of a box over m marks, highest mark first: m bytes.
    pub fn put_pattern(&mut self, m: usize, b: usize)
        requires { HasRoom self.old m }
        ensures { Puts self.old self.new (pattern m b) }
    {
        if m == 0 {
            return;
        }
        self.put_pattern(m - 1, b / 3);
        self.put_byte(sign(b % 3));
    }
}
