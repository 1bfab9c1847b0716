//! The records of a journal, as they are read.
ghost use Rattle.std.specs.Prelude.{◌≡◌, ◌==◌, ◌^◌, ◌<◌, length};
ghost use Rattle.journal.specs.Records.{taken};

use std::marker::Model;

/// The bytes of one record.
#[derive(Drop)]
pub struct Payload {
    bytes: Vec<u8>,
}

impl Model for Payload {
    ghost use Rattle.std.specs.Prelude.{List, ℕ};

    ghost Value = { List ℕ };

    ghost view = { λ p. p.bytes.items };
}

impl Payload {
    pub fn of(bytes: Vec<u8>) -> Payload
        ensures { result ≡ bytes.items }
    {
        Payload { bytes }
    }

    pub fn as_slice(&self) -> &[u8]
        ensures { result.now ≡ self.now }
    {
        self.bytes.as_slice()
    }

    pub fn into_vec(self) -> Vec<u8>
        ensures { result.items ≡ self }
    {
        let Payload { bytes } = self;
        bytes
    }
}

/// The payloads of a journal, the oldest first.
#[derive(Drop)]
pub struct Records {
    items: Vec<Payload>,
}

impl Model for Records {
    ghost use Rattle.std.specs.Prelude.{List, ℕ};

    ghost Value = { List (List ℕ) };

    ghost view = { λ r. r.items.items };
}

impl Records {
    pub fn of(items: Vec<Payload>) -> Records
        ensures { result ≡ items.items }
    {
        Records { items }
    }

    pub fn as_slice(&self) -> &[Payload]
        ensures { result.now ≡ self.now }
    {
        self.items.as_slice()
    }

    pub fn into_vec(self) -> Vec<Payload>
        ensures { result.items ≡ self }
    {
        let Records { items } = self;
        items
    }

    pub fn len(&self) -> usize
        ensures { result ≡ length self.now }
    {
        self.items.len()
    }

    pub fn is_empty(&self) -> bool
        ensures { result ≡ (length self.now == 0) }
    {
        self.items.is_empty()
    }

    /// How many bytes the records take in their area: where the next one begins.
    pub fn byte_len(&self) -> u64
        requires { taken self.now < 2 ^ 64 }
        ensures { result ≡ taken self.now }
    {
        let mut all = 0;
        for payload in self.items.as_slice() {
            all += 5 + payload.as_slice().len() as u64;
        }
        all
    }
}
