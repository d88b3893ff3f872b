// One event as bytes: the record at the start of a slice, and its lists. What lies past the end of the slice reads as 0.
#![tactic(auto)]

ghost use Rattle.std.specs.Prelude.{◌≡◌, ◌≤◌, ◌↔◌, IfSome, IsSome, get_or};
ghost use Rattle.std.proofs.lemmas.List.Edits.{sets};
ghost use Rattle.record.specs.Kinds.{kind_of, number_of};
ghost use Rattle.record.specs.Record.{word_table, nine_of, record_of, head_of, tail_of, first_by, first_at, second_at, tail_at, size_of, words_at};

// The kinds of events, by their numbers in a record.
#[derive(Clone, Copy, PartialEq, Eq, Debug)]
pub enum EventKind {
    HostOpen = 1,
    HostCopy = 2,
    HostDrop = 3,
    HostPut = 4,
    HostEnded = 5,
    Reserve = 6,
    Submit = 7,
    Call = 8,
    Generic = 9,
    StdFs = 10,
    Fmap = 11,
    Close = 12,
    Detach = 13,
    Wake = 14,
    Read = 15,
    Write = 16,
    Move = 17,
    Obtain = 18,
    Supply = 19,
    FdWrite = 20,
    FdRead = 21,
}

impl EventKind {
    pub fn try_from_raw(raw: u8) -> Option<EventKind>
        ensures value { result ≡ kind_of raw }
        ensures number { IfSome result (λ kind. raw ≡ number_of kind) }
        ensures named { IsSome result ↔ (1 ≤ raw) × (raw ≤ 21) }
    {
        Some(match raw {
            1 => EventKind::HostOpen,
            2 => EventKind::HostCopy,
            3 => EventKind::HostDrop,
            4 => EventKind::HostPut,
            5 => EventKind::HostEnded,
            6 => EventKind::Reserve,
            7 => EventKind::Submit,
            8 => EventKind::Call,
            9 => EventKind::Generic,
            10 => EventKind::StdFs,
            11 => EventKind::Fmap,
            12 => EventKind::Close,
            13 => EventKind::Detach,
            14 => EventKind::Wake,
            15 => EventKind::Read,
            16 => EventKind::Write,
            17 => EventKind::Move,
            18 => EventKind::Obtain,
            19 => EventKind::Supply,
            20 => EventKind::FdWrite,
            21 => EventKind::FdRead,
            _ => return None,
        })
    }
}

#[derive(Clone, Copy)]
pub struct Nine(
    pub u64,
    pub u64,
    pub u64,
    pub u64,
    pub u64,
    pub u64,
    pub u64,
    pub u64,
    pub u64,
);

#[derive(Clone, Copy)]
pub struct Record {
    pub kind: u8,
    pub first: u8,
    pub second: u8,
    pub flags: u8,
    pub number: u32,
    pub uid: u32,
    pub gid: u32,
    pub words: Nine,
}

fn read_words(s: &[u8]) -> Nine
    ensures { result ≡ nine_of s.now }
{
    Nine(
        le::word(s, 16),
        le::word(s, 24),
        le::word(s, 32),
        le::word(s, 40),
        le::word(s, 48),
        le::word(s, 56),
        le::word(s, 64),
        le::word(s, 72),
        le::word(s, 80),
    )
}

// The bytes are read behind the numbers: in this order the compiler drops the tests of all where it knows the length.
fn fields(s: &[u8]) -> Record
    ensures { result ≡ record_of s.now }
{
    Record {
        number: le::half(s, 4),
        uid: le::half(s, 8),
        gid: le::half(s, 12),
        kind: le::byte(s, 0),
        first: le::byte(s, 1),
        second: le::byte(s, 2),
        flags: le::byte(s, 3),
        words: read_words(s),
    }
}

// The record at the start of a slice. Its fields end at 88, and where so many bytes are there, one test does for all of them.
pub fn record_at(s: &[u8]) -> Record
    ensures { result ≡ record_of s.now }
{
    if 88 <= s.len() {
        return fields(&s[..88]);
    }
    fields(s)
}

// In the order of `fields`.
fn head(s: &[u8]) -> Record
    ensures { result ≡ head_of s.now }
{
    Record {
        number: le::half(s, 4),
        uid: le::half(s, 8),
        gid: le::half(s, 12),
        kind: le::byte(s, 0),
        first: le::byte(s, 1),
        second: le::byte(s, 2),
        flags: le::byte(s, 3),
        words: Nine(0, 0, 0, 0, 0, 0, 0, 0, 0),
    }
}

// The record at the start of a slice without its words: its size, and whether it is an event, is told by its first 16 bytes.
pub fn head_at(s: &[u8]) -> Record
    ensures { result ≡ head_of s.now }
{
    if 16 <= s.len() {
        return head(&s[..16]);
    }
    head(s)
}

// How many words stand before the lists.
fn words_before(kind: EventKind) -> usize
    ensures { (result ≡ get_or word_table (number_of kind) 0) × (result ≤ 9) }
{
    match kind {
        EventKind::HostEnded | EventKind::Reserve | EventKind::Move | EventKind::Obtain => 0,
        EventKind::HostOpen
        | EventKind::HostCopy
        | EventKind::HostDrop
        | EventKind::Close
        | EventKind::Read
        | EventKind::Write => 1,
        EventKind::HostPut | EventKind::Detach => 2,
        EventKind::Generic | EventKind::StdFs | EventKind::FdWrite => 3,
        EventKind::Fmap | EventKind::Wake | EventKind::Supply | EventKind::FdRead => 4,
        EventKind::Call => 8,
        EventKind::Submit => 9,
    }
}

// Where the lists begin: behind a head of 16 bytes and the words.
fn first_by(kind: u8) -> usize
    ensures { (result ≡ first_by kind) × (result ≤ 88) }
{
    match EventKind::try_from_raw(kind) {
        Some(kind) => 16 + 8 * words_before(kind),
        None => 16,
    }
}

fn first_at(r: Record) -> usize
    ensures { (result ≡ first_at r) × (result ≤ 88) }
{
    first_by(r.kind)
}

fn second_at(r: Record) -> usize
    ensures { (result ≡ second_at r) × (result ≤ 2128) }
{
    first_by(r.kind) + 8 * usize::from(r.first)
}

// Where its bytes begin, and how many there are.
pub fn tail_at(r: Record) -> usize
    ensures { (result ≡ tail_at r) × (result ≤ 4168) }
{
    second_at(r) + 8 * usize::from(r.second)
}

pub fn tail(r: Record) -> usize
    ensures { (result ≡ tail_of r) × (result ≤ 0xffff_ffff) }
{
    match EventKind::try_from_raw(r.kind) {
        Some(EventKind::Write) => r.number as usize,
        _ => 0,
    }
}

// All its bytes.
pub fn size(r: Record) -> usize
    ensures { result ≡ size_of r }
{
    tail_at(r) + tail(r)
}

// So many words from a place, into those lent from the first on.
fn words_at(s: &[u8], at: usize, n: u8, out: &mut [u64])
    requires { at ≤ 0x1_0000_0000 }
    ensures { out.new ≡ sets out.old 0 (words_at s.now at n) }
{
    for i in 0..usize::from(n) {
        word_put::put(out, i, le::word(s, at + 8 * i));
    }
}

pub fn first_list(s: &[u8], r: Record, out: &mut [u64])
    ensures { out.new ≡ sets out.old 0 (words_at s.now (first_at r) r.first) }
{
    words_at(s, first_at(r), r.first, out);
}

pub fn second_list(s: &[u8], r: Record, out: &mut [u64])
    ensures { out.new ≡ sets out.old 0 (words_at s.now (second_at r) r.second) }
{
    words_at(s, second_at(r), r.second, out);
}
