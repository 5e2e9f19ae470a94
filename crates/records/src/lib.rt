// Reads document 01's records from lent bytes.
#![tactic(auto)]

ghost use Rattle.std.specs.Prelude.{◌≡◌, ◌+◌, ◌≤◌, length, take, drop, None, MatchResult};
ghost use Rattle.records.specs.declared.Unread.TheVariants.{Bad};
ghost use Rattle.records.specs.Kinds.{number};
ghost use Rattle.records.specs.Records.{payload_of, Holds, asked_of, call_of, record_of};

use state::Asked;

#[derive(Clone, Copy)]
pub enum Call {
    Create(Asked),
    Alloc(u64),
    Release(u64),
    Shrink(u64, u64),
    Query(u64),
    SoftReset,
    HardReset,
}

// A whole record: how many bytes it takes, and the call that it asks for.
#[derive(Clone, Copy)]
pub struct Record {
    pub length: usize,
    pub call: Call,
}

// Why no record can be read: there are too few bytes so far, or they start with none of document 01's records.
#[derive(Clone, Copy, PartialEq, Eq)]
pub enum Unread {
    Cut,
    Bad,
}

// The number of bytes before a payload: its length and the kind, two bytes each.
pub const HEAD: usize = 4;

// Returns the `N` bytes from `at` on.
fn bytes_at<const N: usize>(bytes: &[u8], at: usize) -> [u8; N]
    requires { at + N ≤ length bytes.now }
    ensures { result ≡ take N (drop at bytes.now) }
{
    *bytes[at..].first_chunk().unwrap()
}

// ---- kinds of records

#[derive(Clone, Copy)]
enum Kind {
    Create,
    Alloc,
    Release,
    Shrink,
    Query,
    SoftReset,
    HardReset,
}

impl TryFrom<u16> for Kind {
    type Error = Unread;

    ghost try_from_gives = { λ n r. MatchResult r (λ k. number k ≡ n) (λ e. (e ≡ Bad) × (payload_of n ≡ None)) };

    #[tactic(auto, unfolding(crate::specs::Records::payload_of))]
    fn try_from(n: u16) -> Result<Kind, Unread> {
        match n {
            1 => Ok(Kind::Create),
            2 => Ok(Kind::Alloc),
            3 => Ok(Kind::Release),
            4 => Ok(Kind::Shrink),
            5 => Ok(Kind::Query),
            6 => Ok(Kind::SoftReset),
            7 => Ok(Kind::HardReset),
            _ => Err(Unread::Bad),
        }
    }
}

impl Kind {
    // Returns the length of this kind's payload.
    #[tactic(auto, unfolding(crate::specs::Records::payload_of))]
    fn payload(self) -> usize
        ensures { payload_of (number self) ≡ Some result }
    {
        match self {
            Kind::Create => 32,
            Kind::Shrink => 16,
            Kind::Alloc | Kind::Release | Kind::Query => 8,
            Kind::SoftReset | Kind::HardReset => 0,
        }
    }

    // Returns the call of a whole record of this kind.
    #[tactic(auto, using(crate::proofs::Numbers::u64_of), unfolding(crate::specs::Records::payload_of, crate::specs::Records::call_of))]
    fn call(self, bytes: &[u8]) -> Call
        requires { Holds (payload_of (number self)) (length bytes.now) }
        ensures { result ≡ call_of bytes.now (number self) }
    {
        match self {
            Kind::Create => Call::Create(asked_of(bytes)),
            Kind::Alloc => Call::Alloc(u64::from_le_bytes(bytes_at(bytes, 4))),
            Kind::Release => Call::Release(u64::from_le_bytes(bytes_at(bytes, 4))),
            Kind::Shrink => Call::Shrink(
                u64::from_le_bytes(bytes_at(bytes, 4)),
                u64::from_le_bytes(bytes_at(bytes, 12)),
            ),
            Kind::Query => Call::Query(u64::from_le_bytes(bytes_at(bytes, 4))),
            Kind::SoftReset => Call::SoftReset,
            Kind::HardReset => Call::HardReset,
        }
    }
}

fn asked_of(bytes: &[u8]) -> Asked
    requires { 36 ≤ length bytes.now }
    ensures { result ≡ asked_of bytes.now }
{
    Asked {
        size: u32::from_le_bytes(bytes_at(bytes, 4)),
        granularity: u32::from_le_bytes(bytes_at(bytes, 8)),
        flags: u32::from_le_bytes(bytes_at(bytes, 12)),
        w: u32::from_le_bytes(bytes_at(bytes, 16)),
        arena: u64::from_le_bytes(bytes_at(bytes, 20)),
        length: u64::from_le_bytes(bytes_at(bytes, 28)),
    }
}

// Reads the record that the bytes start with. A wrong payload length is bad at once, even if not so many bytes are there.
#[tactic(auto, using(crate::proofs::Numbers::u16_of), unfolding(crate::specs::Records::record_of))]
pub fn read(bytes: &[u8]) -> Result<Record, Unread>
    ensures { result ≡ record_of bytes.now }
{
    if bytes.len() < HEAD {
        return Err(Unread::Cut);
    }
    let kind = Kind::try_from(u16::from_le_bytes(bytes_at(bytes, 2)))?;
    let payload = kind.payload();
    if u16::from_le_bytes(bytes_at(bytes, 0)) as usize != payload {
        return Err(Unread::Bad);
    }
    let length = HEAD + payload;
    if bytes.len() < length {
        return Err(Unread::Cut);
    }
    Ok(Record {
        length,
        call: kind.call(bytes),
    })
}
