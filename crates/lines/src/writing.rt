// A page, and the printing of a line: a word, numbers with a space before each, and byte 10.
ghost use Rattle.std.specs.Prelude.{◌≤◌, length};
ghost use Rattle.lines.specs.Decimal.{decimal};
ghost use Rattle.lines.specs.inner.Printed.{spaced_numbers, line_with, HasRoom, Printed};
ghost use Rattle.lines.specs.Lines.{rounds_and_facts};

use itoa::Buffer;

// A row, and the place where the next byte is printed.
#[derive(Drop)]
pub struct Page<'a> {
    pub row: &'a mut [u8],
    pub at: usize,
}

impl Page<'_> {
    // Prints bytes.
    pub fn bytes(&mut self, bytes: &[u8])
        requires { HasRoom self.old (length bytes.now) }
        ensures { Printed self.old bytes.now self.new }
    {
        let end = self.at + bytes.len();
        self.row[self.at..end].copy_from_slice(bytes);
        self.at = end;
    }

    // Prints a number. One of one digit or two, as most are, needs no buffer.
    pub fn decimal(&mut self, n: usize)
        requires { HasRoom self.old (length (decimal n)) }
        ensures { Printed self.old (decimal n) self.new }
    {
        if n < 10 {
            self.bytes(&[b'0' + n as u8]);
        } else if n < 100 {
            self.bytes(&[b'0' + (n / 10) as u8, b'0' + (n % 10) as u8]);
        } else {
            self.long_decimal(n);
        }
    }

    // Prints a longer number: three digits one by one, more by the library. It stands apart, so that a short number is not weighed down by it.
    #[inline(never)]
    fn long_decimal(&mut self, n: usize)
        requires long { 100 ≤ n }
        requires room { HasRoom self.old (length (decimal n)) }
        ensures { Printed self.old (decimal n) self.new }
    {
        if n < 1000 {
            self.bytes(&[
                b'0' + (n / 100) as u8,
                b'0' + (n / 10 % 10) as u8,
                b'0' + (n % 10) as u8,
            ]);
        } else {
            let mut digits = Buffer::new();
            self.bytes(digits.format(n).as_bytes());
        }
    }

    // Prints numbers, with a space before each.
    pub fn numbers(&mut self, numbers: &[usize])
        requires { HasRoom self.old (length (spaced_numbers numbers.now)) }
        ensures { Printed self.old (spaced_numbers numbers.now) self.new }
    {
        for number in numbers {
            self.bytes(b" ");
            self.decimal(*number);
        }
    }

    // Prints a line of a word and numbers.
    pub fn line(&mut self, word: &[u8], numbers: &[usize])
        requires { HasRoom self.old (length (line_with word.now numbers.now)) }
        ensures { Printed self.old (line_with word.now numbers.now) self.new }
    {
        self.bytes(word);
        self.numbers(numbers);
        self.bytes(b"\n");
    }

    // Prints the line of rounds and facts.
    pub fn rounds(&mut self, rounds: usize, facts: usize)
        requires { HasRoom self.old 64 }
        ensures { Printed self.old (rounds_and_facts rounds facts) self.new }
    {
        self.bytes(b"rounds");
        self.numbers(&[rounds]);
        self.line(b" facts", &[facts]);
    }
}
