// Text that is put together piece by piece in a lent buffer.
#![tactic(auto)]

ghost use Rattle.std.specs.Prelude.{◌≡◌, ◌%◌, length, take};
ghost use Rattle.io.specs.Digits.{hex_digit_ascii};
ghost use Rattle.text.specs.Part.{Lies};
ghost use Rattle.page.specs.Lent.{room_of, with_text};
ghost use Rattle.page.specs.Number.{number_text, code_text};

// A page: a lent buffer, and where its text ends.
#[derive(Drop)]
pub struct Page<'a> {
    pub room: &'a mut [u8],
    pub end: usize,
}

impl Page<'_> {
    // Writes a piece behind the text, as far as there is room.
    #[tactic(auto, using(crate::proofs::LentLaws::with_none, crate::proofs::LentLaws::with_cut))]
    pub fn append(&mut self, piece: &[u8])
        ensures { self.new ≡ with_text self.old piece.now }
    {
        if self.end < self.room.len() {
            let n = piece.len().min(self.room.len() - self.end);
            copy(&mut self.room[self.end..self.end + n], &piece[..n]);
            self.end += n;
        }
    }

    // Writes a number in as many decimal digits as it has.
    #[tactic(auto, using(crate::proofs::NumberLaws::number_digits))]
    pub fn append_number(&mut self, n: u64)
        ensures { self.new ≡ with_text self.old (number_text n) }
    {
        let mut digits = [0u8; 20];
        let k = io::decimal(n, &mut digits);
        self.append(&digits[..k]);
    }

    // Writes a code in four decimal digits.
    #[tactic(auto, unfolding(crate::specs::Number::code_text))]
    pub fn append_code(&mut self, code: u16)
        ensures { self.new ≡ with_text self.old (code_text code) }
    {
        let tens = code / 10;
        let hundreds = tens / 10;
        let digits = [
            digit(hundreds / 10),
            digit(hundreds),
            digit(tens),
            digit(code),
        ];
        self.append(&digits);
    }

    // The text that stands in the buffer.
    pub fn text(&self) -> &[u8]
        ensures { Lies (room_of self.now) 0 (take self.now.end self.now.room.now) result }
    {
        &self.room[..self.end.min(self.room.len())]
    }
}

// Copies a piece into a part of its length.
// As it is: the library's copy_from_slice is a call of memmove, which costs a single byte more than this loop does, and which C callers would have to bring.
fn copy(part: &mut [u8], piece: &[u8])
    requires { length part.old ≡ length piece.now }
    ensures { part.new ≡ piece.now }
{
    for (i, b) in piece.iter().enumerate() {
        part[i] = *b;
    }
}

// The last decimal digit of a number, as text.
fn digit(n: u16) -> u8
    ensures { result ≡ hex_digit_ascii (n % 10) }
{
    b'0' + (n % 10) as u8
}
