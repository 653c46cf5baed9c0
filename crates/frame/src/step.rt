// What one byte of the line does to a reader.

ghost use Rattle.std.specs.Prelude.{◌≡◌, true, ◌<◌};
ghost use Rattle.frame.specs.Stuffing.{scale_after, completed};
ghost use Rattle.frame.specs.Reader.{shifted, sum_after, added, counted, bad_answer, is_good, ended};
ghost use Rattle.frame.specs.Reader.{phase_after_header, opened, after_part, part_answer, silent, answering};
ghost use Rattle.frame.specs.Reader.{storing, byte_complete, data_of, end_of, transition_of};
ghost use Rattle.frame.specs.Feeding.{stored};
ghost use Rattle.frame.specs.Within.{in_part, last_due, goes_on, completing, ends_header};

use crate::{Answer, Reader, Transition};

// Where a header's length and checksum, and the last byte, stand in the last eight bytes.
const LENGTH: u64 = 0x100000000;

const CHECKSUM: u64 = 0x1000000000000;

const LAST: u64 = 0x100000000000000;

// The longest body.
const BODY_MOST: u64 = 532;

#[tactic(auto, unfolding(crate::specs::Stuffing::scale_after))]
fn scale_after(scale: u16) -> u16
    ensures { result ≡ scale_after scale }
{
    if 256 <= scale { 2 } else { scale * 2 }
}

// What comes after a good header: a length of zero means no body.
#[tactic(auto, unfolding(crate::specs::Reader::phase_after_header))]
fn phase_after_header(size: u16) -> u8
    ensures { result ≡ phase_after_header size }
{
    if size == 0 {
        crate::BEFORE_END
    } else {
        crate::IN_BODY
    }
}

impl Transition {
    // Stores no byte and answers nothing.
    fn silent(reader: Reader) -> Transition
        ensures { result ≡ silent reader }
    {
        Transition {
            reader,
            stores: None,
            answer: None,
        }
    }

    // An answer, and no byte stored.
    fn answering(answer: Answer) -> Transition
        ensures { result ≡ answering answer }
    {
        Transition {
            reader: Reader::new(),
            stores: None,
            answer: Some(answer),
        }
    }
}

impl Reader {
    // The byte that a stuffed byte completes.
    #[tactic(auto, using(crate::proofs::Bounds::scaled))]
    fn completed(&self, c: u8) -> u8
        ensures { result ≡ completed self.now.scale self.now.held c }
    {
        let bits = c as u32 % 128;
        ((self.held as u32 + bits * self.scale as u32 / 256) % 256) as u8
    }

    // A reader that holds the bits that a stuffed byte leaves.
    #[tactic(auto, using(crate::proofs::Bounds::scaled))]
    fn shift(&self, c: u8) -> Reader
        ensures { result ≡ shifted self.now c }
    {
        let bits = c as u32 % 128;
        Reader {
            held: (bits * self.scale as u32 % 256) as u8,
            scale: scale_after(self.scale),
            ..*self
        }
    }

    // The checksum with one more byte of a part.
    #[tactic(auto, unfolding(crate::specs::Reader::sum_after))]
    fn sum_after(&self, b: u8) -> u16
        ensures { result ≡ sum_after self.now b }
    {
        if self.count < self.size as u32 {
            crate::sum_next(self.sum, b)
        } else {
            self.sum
        }
    }

    // A reader with one more byte of its part.
    fn add(&self, b: u8) -> Reader
        ensures { result ≡ added self.now b }
    {
        Reader {
            sum: self.sum_after(b),
            last: self.last / 256 + b as u64 * LAST,
            ..*self
        }
    }

    // A reader with the byte that a stuffed byte completes.
    fn completing(&self, c: u8) -> Reader
        ensures { result ≡ completing self.now c }
    {
        self.shift(c).add(self.completed(c))
    }

    // A reader whose part goes on.
    fn advance(&self) -> Reader
        requires { self.now.count < 4294967295 }
        ensures { result ≡ counted self.now }
    {
        Reader {
            count: self.count + 1,
            ..*self
        }
    }

    // The answer to a packet that is bad: its header while that is incomplete, where the length is zero, or where it
    // is no CVK_HDR_DATA; else its body.
    #[tactic(auto, unfolding(crate::specs::Reader::bad_answer, crate::specs::Packet::is_data))]
    fn bad_answer(&self) -> Answer
        ensures { result ≡ bad_answer self.now }
    {
        if self.id / 32768 != 1 || self.size == 0 {
            return Answer::BadHeader;
        }
        Answer::BadBody {
            index: (self.id / 256 % 64) as u8,
            sequence: (self.id % 256) as u8,
        }
    }

    // Whether a part is good, at its last byte.
    #[tactic(auto, unfolding(crate::specs::Reader::is_good))]
    fn is_good(&self) -> bool
        ensures { result ≡ is_good self.now }
    {
        self.held == 0
            && self.last / CHECKSUM == self.sum as u64
            && (self.phase != crate::IN_HEADER || self.last / LENGTH % 65536 <= BODY_MOST)
    }

    // A reader before the end byte.
    fn end(&self) -> Reader
        ensures { result ≡ ended self.now }
    {
        Reader {
            id: self.id,
            size: self.size,
            phase: crate::BEFORE_END,
            ..Reader::new()
        }
    }

    // A reader after a good header, whose eight bytes are the last.
    fn open(&self) -> Reader
        ensures { result ≡ opened self.now.last }
    {
        let size = (self.last / LENGTH % 65536) as u16;
        Reader {
            id: (self.last % LENGTH) as u32,
            scale: 2,
            size,
            sum: crate::CHECKSUM_START,
            phase: phase_after_header(size),
            ..Reader::new()
        }
    }

    // A reader after the last byte of a part.
    #[tactic(auto, unfolding(crate::specs::Reader::after_part))]
    fn after_part(&self) -> Reader
        ensures { result ≡ after_part self.now }
    {
        if !self.is_good() {
            return Reader::new();
        }
        if self.phase == crate::IN_HEADER {
            return self.open();
        }
        self.end()
    }

    // The answer at the last byte of a part.
    #[tactic(auto, unfolding(crate::specs::Reader::part_answer))]
    fn part_answer(&self) -> Option<Answer>
        ensures { result ≡ part_answer self.now }
    {
        if self.is_good() {
            return None;
        }
        Some(self.bad_answer())
    }

    // A byte that is complete, where it is to be stored.
    fn storing(&self, b: u8) -> Option<u8>
        ensures { result ≡ storing self.now b }
    {
        if self.phase == crate::IN_BODY {
            Some(b)
        } else {
            None
        }
    }

    // A byte of a part is complete.
    #[tactic(auto, unfolding(crate::specs::Reader::byte_complete))]
    fn byte_complete(&self, b: u8) -> Transition
        ensures { result ≡ byte_complete self.now b }
    {
        let stores = self.storing(b);
        let n = self.add(b);
        if n.size as u32 + 1 <= n.count {
            return Transition {
                reader: n.after_part(),
                stores,
                answer: n.part_answer(),
            };
        }
        Transition {
            reader: n.advance(),
            stores,
            answer: None,
        }
    }

    // A byte of the line where stuffed data is due. The first of eight stuffed bytes completes no byte.
    #[tactic(auto, unfolding(crate::specs::Reader::data_of))]
    fn data(&self, c: u8) -> Transition
        ensures { result ≡ data_of self.now c }
    {
        if c < 128 {
            return Transition::answering(self.bad_answer());
        }
        if self.scale <= 2 {
            return Transition::silent(self.shift(c));
        }
        self.shift(c).byte_complete(self.completed(c))
    }

    // A byte of the line where the end is due.
    #[tactic(auto, unfolding(crate::specs::Reader::end_of))]
    fn ending(&self, c: u8) -> Transition
        ensures { result ≡ end_of self.now c }
    {
        if c == crate::END {
            return Transition::answering(Answer::Packet {
                id: self.id,
                size: self.size,
            });
        }
        Transition::answering(self.bad_answer())
    }

    // Whether stuffed data is due.
    fn in_part(&self) -> bool
        ensures { result ≡ in_part self.now }
    {
        self.phase == crate::IN_HEADER || self.phase == crate::IN_BODY
    }

    /// What one byte of the line does.
    #[tactic(auto, unfolding(crate::specs::Reader::transition_of))]
    pub fn transition(&self, c: u8) -> Transition
        ensures { result ≡ transition_of self.now c }
    {
        if c == crate::BEGIN {
            return Transition::silent(Reader::begun());
        }
        if self.in_part() {
            return self.data(c);
        }
        if self.phase == crate::BEFORE_END {
            return self.ending(c);
        }
        Transition::silent(*self)
    }

    // Whether the next stuffed byte completes the last byte of its part.
    #[tactic(auto, unfolding(crate::specs::Within::last_due))]
    fn last_due(&self) -> bool
        ensures { result ≡ last_due self.now }
    {
        2 < self.scale && (self.size as u32) < self.count
    }

    /// Whether a byte is stuffed data after which its part goes on.
    #[tactic(auto, unfolding(crate::specs::Within::goes_on))]
    pub fn goes_on(&self, c: u8) -> bool
        ensures { result ≡ goes_on self.now c }
    {
        if c < 128 || !self.in_part() {
            return false;
        }
        !self.last_due()
    }

    /// The reader that `transition` gives for such a byte: most bytes are such, and nothing is answered.
    #[tactic(auto, using(crate::proofs::Goes::more, crate::proofs::Goes::first_byte, crate::proofs::Goes::next_byte))]
    pub fn within(&self, c: u8) -> Reader
        requires { goes_on self.now c ≡ true }
        ensures { result ≡ (transition_of self.now c).reader }
    {
        if self.scale <= 2 {
            return self.shift(c);
        }
        self.completing(c).advance()
    }

    /// Stores what `transition` does for such a byte.
    #[tactic(auto, using(crate::proofs::Goes::stores_first, crate::proofs::Goes::stores_none, crate::proofs::Goes::stores_byte))]
    pub fn keep(&self, c: u8, buffer: &mut [u8])
        requires { goes_on self.now c ≡ true }
        ensures { buffer.new ≡ stored self.now (transition_of self.now c) buffer.old }
    {
        if self.scale <= 2 {
            return;
        }
        if self.phase != crate::IN_BODY {
            return;
        }
        crate::put(buffer, self.count as usize, self.completed(c));
    }

    /// Whether a byte is the last of a good header.
    #[tactic(auto, unfolding(crate::specs::Within::ends_header))]
    pub fn ends_header(&self, c: u8) -> bool
        ensures { result ≡ ends_header self.now c }
    {
        128 <= c
            && self.last_due()
            && self.phase == crate::IN_HEADER
            && self.completing(c).is_good()
    }

    /// The reader that `transition` gives for such a byte; nothing is stored or answered.
    #[tactic(auto, using(crate::proofs::Goes::header_ends))]
    pub fn after_header(&self, c: u8) -> Reader
        requires { ends_header self.now c ≡ true }
        ensures { result ≡ (transition_of self.now c).reader }
    {
        self.completing(c).open()
    }
}
