use itoa::Buffer;
use std::alloc::Global;

/// A text that is put together piece by piece. It keeps in mind the first thing that went wrong, and goes on.
#[derive(Drop)]
pub struct Text {
    bytes: Vec<u8>,
    trouble: Option<&'static str>,
    /// The byte of a file from which places are counted.
    origin: u32,
}

impl Text {
    /// An empty text.
    pub fn new(alloc: Global) -> Text {
        Text {
            bytes: Vec::new(alloc),
            trouble: None,
            origin: 0,
        }
    }

    /// Counts places from this byte of a file on.
    pub fn count_from(&mut self, origin: u32) {
        self.origin = origin;
    }

    /// Adds these bytes.
    pub fn put(&mut self, piece: &[u8]) {
        if self.bytes.extend_from_slice(piece).is_err() {
            self.refuse("memory is wanting");
        }
    }

    /// Adds a number in decimal digits.
    pub fn put_number(&mut self, number: u64) {
        let mut digits = Buffer::new();
        self.put(digits.format(number).as_bytes());
    }

    /// Adds a place in a file, in bytes.
    pub fn put_place(&mut self, at: u32) {
        self.put_number(u64::from(at.saturating_sub(self.origin)));
    }

    /// Notes what went wrong, unless something did before.
    pub fn refuse(&mut self, why: &'static str) {
        if self.trouble.is_none() {
            self.trouble = Some(why);
        }
    }

    /// What went wrong first.
    pub fn trouble(&self) -> Option<&'static str> {
        self.trouble
    }

    /// Notes what went wrong in another text.
    pub fn refuse_as(&mut self, other: &Text) {
        if let Some(why) = other.trouble {
            self.refuse(why);
        }
    }

    /// The bytes so far.
    pub fn bytes(&self) -> &[u8] {
        self.bytes.as_slice()
    }

    /// Begins anew, and keeps in mind what went wrong.
    pub fn clear(&mut self) {
        self.bytes.clear();
    }

    /// The bytes, where nothing went wrong.
    pub fn into_bytes(self) -> Vec<u8> {
        self.bytes
    }
}
