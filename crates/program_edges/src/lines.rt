// A line of the list: its name, and the bytes of its parts.
use buffer::byte_at;

// No line has more bytes.
pub const BYTES: usize = 16400;

// The parts of a line: its name; the bytes of an input, or of a table where a hall follows; of a stored hall; of choices;
// and of a tally.
#[derive(Clone, Copy, PartialEq, Eq)]
pub enum Part {
    Name,
    Input,
    Hall,
    Choices,
    Tally,
}

// A line as far as it is read.
#[derive(Clone, Copy)]
pub struct EdgeLine {
    part: Part,
    // The number being read, if there is one.
    number: Option<usize>,
    // Where the bytes of the word being read begin, and how often it stands for them.
    from: usize,
    times: usize,
    // Where hall, choices and tally begin, and how many bytes there are.
    hall: usize,
    choices: usize,
    tally: usize,
    length: usize,
    bytes: [u8; BYTES],
}

impl EdgeLine {
    pub fn new() -> Self {
        EdgeLine {
            part: Part::Name,
            number: None,
            from: 0,
            times: 1,
            hall: 0,
            choices: 0,
            tally: 0,
            length: 0,
            bytes: [0; BYTES],
        }
    }

    // The next line begins. The bytes of this one are written over.
    pub fn restart(&mut self) {
        self.part = Part::Name;
        self.number = None;
        self.from = 0;
        self.times = 1;
        self.hall = 0;
        self.choices = 0;
        self.tally = 0;
        self.length = 0;
    }

    // The part being read.
    pub fn part(&self) -> Part {
        self.part
    }

    // A byte more, where there is room.
    fn push(&mut self, byte: u8) {
        if self.length < BYTES {
            self.bytes[self.length] = byte;
            self.length += 1;
        }
    }

    // The bytes from..to once more.
    fn repeat(&mut self, from: usize, to: usize) {
        for i in from..to {
            let byte = byte_at(&self.bytes, i);
            self.push(byte);
        }
    }

    // A digit more of the number being read.
    pub fn digit(&mut self, c: u8) {
        let value = self.number.unwrap_or(0);
        self.number = Some(if value < 100000 {
            value * 10 + usize::from(c % 16)
        } else {
            value
        });
    }

    // The number being read tells how often the word stands for what follows.
    pub fn times(&mut self) {
        self.times = self.number.unwrap_or(0);
        self.number = None;
    }

    // The number being read is over.
    pub fn end_number(&mut self) {
        if let Some(value) = self.number {
            self.push((value % 256) as u8);
        }
        self.number = None;
    }

    // The word being read is over.
    pub fn end_word(&mut self) {
        self.end_number();
        let from = self.from;
        let to = self.length;
        for _ in 1..self.times {
            self.repeat(from, to);
        }
        self.from = self.length;
        self.times = 1;
    }

    // The name is over.
    pub fn end_name(&mut self) {
        self.part = Part::Input;
    }

    // The word being read is over, and with it a part of the line.
    pub fn end_part(&mut self) {
        self.end_word();
        match self.part {
            Part::Input => {
                self.hall = self.length;
                self.part = Part::Hall;
            }
            Part::Hall => {
                self.choices = self.length;
                self.part = Part::Choices;
            }
            _ => {
                self.tally = self.length;
                self.part = Part::Tally;
            }
        }
    }

    // The line is over: where it has no tally, none of its bytes are one.
    pub fn end(&mut self) {
        self.end_word();
        if self.part == Part::Choices {
            self.tally = self.length;
        }
    }

    // Whether each part ends where the next one begins: a hall that no choices follow has no end.
    pub fn is_whole(&self) -> bool {
        self.hall <= self.choices && self.choices <= self.tally && self.tally <= self.length
    }

    // The bytes from..to.
    fn bytes(&self, from: usize, to: usize) -> &[u8] {
        self.bytes.get(from..to).unwrap_or(&[])
    }

    pub fn input(&self) -> &[u8] {
        self.bytes(0, self.length)
    }

    pub fn table(&self) -> &[u8] {
        self.bytes(0, self.hall)
    }

    pub fn hall(&self) -> &[u8] {
        self.bytes(self.hall, self.choices)
    }

    pub fn choices(&self) -> &[u8] {
        self.bytes(self.choices, self.tally)
    }

    pub fn tally(&self) -> &[u8] {
        self.bytes(self.tally, self.length)
    }
}
